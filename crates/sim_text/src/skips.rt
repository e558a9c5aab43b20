//! The lines of events that were not enabled.
ghost use Rattle.std.specs.Prelude.{◌≡◌};
ghost use Rattle.edge_io.specs.Pieces.{gathered, Gathers};
ghost use Rattle.edge_io.specs.Sink.{Writes};
ghost use Rattle.sim_text.specs.Skips.{why_words, skip_line, skips_text};
ghost use Rattle.world_core.specs.declared.event.Applied.TheVariants.{NotEnabled};

use edge_io::{Piece, PutFault, Sink};
use text_lines::put_counted;
use world_core::{Applied, Why};

/// Why an event is not enabled, with its value.
#[tactic(auto, unfolding(crate::specs::Skips::why_words))]
fn put_why<K: Sink>(piece: &mut Piece, out: &mut K, why: Why) -> Result<(), PutFault>
    ensures { Gathers (gathered (K.view out.old) piece.old) (gathered (K.view out.new) piece.new) result
        (why_words why) }
{
    match why {
        Why::NoCore(core) => put_counted(piece, out, b"nocore ", u64::from(core)),
        Why::NoResident => piece.put(out, b"noresident"),
        Why::OneResident => piece.put(out, b"oneresident"),
        Why::CoreFull(residents) => put_counted(piece, out, b"corefull ", residents as u64),
        Why::QueueEmpty => piece.put(out, b"queueempty"),
    }
}

/// The line of an event that was not enabled.
fn put_skip_line<K: Sink>(
    piece: &mut Piece,
    out: &mut K,
    line: u64,
    why: Why,
) -> Result<(), PutFault>
    ensures { Gathers (gathered (K.view out.old) piece.old) (gathered (K.view out.new) piece.new) result
        (skip_line line (NotEnabled why)) }
{
    put_counted(piece, out, b"skip ", line)?;
    piece.put(out, b" ")?;
    put_why(piece, out, why)?;
    piece.put(out, b"\n")
}

/// The line of an event with this answer, or nothing where it was enabled.
#[tactic(auto, unfolding(crate::specs::Skips::skip_line))]
fn put_answer<K: Sink>(
    piece: &mut Piece,
    out: &mut K,
    line: u64,
    answer: Applied,
) -> Result<(), PutFault>
    ensures { Gathers (gathered (K.view out.old) piece.old) (gathered (K.view out.new) piece.new) result
        (skip_line line answer) }
{
    match answer {
        Applied::NotEnabled(why) => put_skip_line(piece, out, line, why),
        Applied::Done => piece.put_all(out, &[]),
        Applied::Ran(_) => piece.put_all(out, &[]),
    }
}

/// The lines of the events of a plan, in their order.
fn put_skips<K: Sink>(
    piece: &mut Piece,
    out: &mut K,
    lines: &[u64],
    answers: &[Applied],
) -> Result<(), PutFault>
    ensures { Gathers (gathered (K.view out.old) piece.old) (gathered (K.view out.new) piece.new) result
        (skips_text lines.now answers.now) }
{
    for (line, answer) in lines.iter().zip(answers) {
        put_answer(piece, out, *line, *answer)?;
    }
    Ok(())
}

/// Writes a line for each event of a plan that was not enabled, with the line of the plan that says the
/// event and why. `lines` has the line of each event, and `answers` its answer; an event that lacks one of
/// them has no line. `Failed` where the sink fails; a part of the text from the front is then written.
pub fn write_skips<K: Sink>(lines: &[u64], answers: &[Applied], out: &mut K) -> Result<(), PutFault>
    ensures { Writes (K.view out.old) (K.view out.new) result (skips_text lines.now answers.now) }
{
    let mut piece = Piece::new();
    put_skips(&mut piece, out, lines, answers)?;
    piece.flush(out)
}
