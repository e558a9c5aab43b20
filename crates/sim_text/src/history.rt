//! The lines of the history of a world.
ghost use Rattle.std.specs.Prelude.{◌≡◌, flat_map};
ghost use Rattle.edge_io.specs.Pieces.{gathered, Gathers};
ghost use Rattle.edge_io.specs.Sink.{Writes};
ghost use Rattle.sim_text.specs.History.{entry_line, history_text};

use edge_io::{Piece, PutFault, Sink};
use sm_types::Entry;
use text_lines::{put_counted, put_event_words, put_number_line};

/// The line of an entry.
fn put_entry_line<K: Sink>(piece: &mut Piece, out: &mut K, entry: Entry) -> Result<(), PutFault>
    ensures { Gathers (gathered (K.view out.old) piece.old) (gathered (K.view out.new) piece.new) result
        (entry_line entry) }
{
    put_counted(piece, out, b"h ", u64::from(entry.thread))?;
    piece.put(out, b" ")?;
    put_event_words(piece, out, entry.event)?;
    piece.put(out, b"\n")
}

/// The lines of some entries, in their order.
fn put_entries<K: Sink>(piece: &mut Piece, out: &mut K, entries: &[Entry]) -> Result<(), PutFault>
    ensures { Gathers (gathered (K.view out.old) piece.old) (gathered (K.view out.new) piece.new) result
        (flat_map entry_line entries.now) }
{
    for entry in entries {
        put_entry_line(piece, out, *entry)?;
    }
    Ok(())
}

/// The number of the entries, and their lines.
fn put_history<K: Sink>(piece: &mut Piece, out: &mut K, history: &[Entry]) -> Result<(), PutFault>
    ensures { Gathers (gathered (K.view out.old) piece.old) (gathered (K.view out.new) piece.new) result
        (history_text history.now) }
{
    put_number_line(piece, out, b"history", history.len() as u64)?;
    put_entries(piece, out, history)
}

/// Writes the history of the operations on the shared words, the oldest first. `Failed` where the sink
/// fails; a part of the text from the front is then written.
pub fn write_history<K: Sink>(history: &[Entry], out: &mut K) -> Result<(), PutFault>
    ensures { Writes (K.view out.old) (K.view out.new) result (history_text history.now) }
{
    let mut piece = Piece::new();
    put_history(&mut piece, out, history)?;
    piece.flush(out)
}
