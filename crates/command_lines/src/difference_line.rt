//! The lines that say in which line a report and a replay differ.
ghost use Rattle.std.specs.Prelude.{◌≡◌};
ghost use Rattle.edge_io.specs.Sink.{Writes};
ghost use Rattle.command_lines.specs.ReportLines as spec;

use edge_io::{PutFault, Sink, write_parts};

/// A line with the line feed that ends it; one that is not there is empty.
fn shown(line: &[u8]) -> &[u8]
    ensures { result.now ≡ spec.shown line.now }
{
    if line.is_empty() { b"\n" } else { line }
}

/// Writes the lines that say in which line a report and a replay differ.
#[tactic(auto, unfolding(crate::specs::ReportLines::difference_lines))]
pub fn write_difference_lines<K: Sink>(
    out: &mut K,
    line: u64,
    report: &[u8],
    replay: &[u8],
) -> Result<(), PutFault>
    ensures { Writes (K.view out.old) (K.view out.new) result
        (spec.difference_lines line report.now replay.now) }
{
    let mut buffer = itoa::Buffer::new();
    let digits = buffer.format(line).as_bytes();
    write_parts(
        out,
        &[
            b"differs: line ",
            digits,
            b"\n",
            shown(report),
            shown(replay),
        ],
    )
}
