//! The line that says how a thread parts from its journal and count.
ghost use Rattle.std.specs.Prelude.{◌≡◌, ◌∷◌, [], codes, decimal};
ghost use Rattle.std.specs.List.{concat};
ghost use Rattle.text_lines.specs.Words.{stop_words};
ghost use Rattle.edge_io.specs.Pieces.{gathered, Gathers};
ghost use Rattle.edge_io.specs.Sink.{Writes};
ghost use Rattle.report_compare.specs.DifferLines as spec;

use edge_io::{Piece, PutFault, Sink};
use lone_runner::AloneFault;
use sm_types::Stop;
use text_lines::{put_counted, put_stop_words};

/// The end of a thread before its count.
fn put_early_end<K: Sink>(
    piece: &mut Piece,
    out: &mut K,
    count: u32,
    stop: Stop,
) -> Result<(), PutFault>
    ensures { Gathers (gathered (K.view out.old) piece.old) (gathered (K.view out.new) piece.new) result
        (concat (codes "endsearly " ∷ decimal count ∷ codes " " ∷ stop_words stop ∷ [])) }
{
    let mut buffer = itoa::Buffer::new();
    piece.put(out, b"endsearly ")?;
    piece.put(out, buffer.format(count).as_bytes())?;
    piece.put(out, b" ")?;
    put_stop_words(piece, out, stop)
}

/// How a thread parts from its journal and count, with the values of the fault.
#[tactic(auto, unfolding(crate::specs::DifferLines::parting_words))]
fn put_parting_words<K: Sink>(
    piece: &mut Piece,
    out: &mut K,
    fault: AloneFault,
) -> Result<(), PutFault>
    ensures { Gathers (gathered (K.view out.old) piece.old) (gathered (K.view out.new) piece.new) result
        (spec.parting_words fault) }
{
    match fault {
        AloneFault::JournalShort(count) => {
            put_counted(piece, out, b"journalshort ", u64::from(count))
        }
        AloneFault::JournalDiffers(event) => {
            put_counted(piece, out, b"journaldiffers ", u64::from(event))
        }
        AloneFault::JournalLong(left) => {
            put_counted(piece, out, b"journallong ", u64::from(left))
        }
        AloneFault::EndsEarly { count, stop } => put_early_end(piece, out, count, stop),
        AloneFault::GoesOn(count) => put_counted(piece, out, b"goeson ", u64::from(count)),
        AloneFault::Memory => piece.put(out, b"memory"),
    }
}

/// The line that says how a thread parts from its journal and count.
fn put_parting<K: Sink>(piece: &mut Piece, out: &mut K, fault: AloneFault) -> Result<(), PutFault>
    ensures { Gathers (gathered (K.view out.old) piece.old) (gathered (K.view out.new) piece.new) result
        (spec.parting_line fault) }
{
    piece.put(out, b"differs: ")?;
    put_parting_words(piece, out, fault)?;
    piece.put(out, b"\n")
}

/// Writes the line that says how a thread parts from its journal and count. `Failed` where the sink fails; a
/// part of the line from the front is then written.
pub fn write_parting<K: Sink>(out: &mut K, fault: AloneFault) -> Result<(), PutFault>
    ensures { Writes (K.view out.old) (K.view out.new) result (spec.parting_line fault) }
{
    let mut piece = Piece::new();
    put_parting(&mut piece, out, fault)?;
    piece.flush(out)
}
