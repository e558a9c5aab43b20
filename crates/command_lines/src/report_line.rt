//! The line of the fault for which a report is refused.
ghost use Rattle.std.specs.Prelude.{◌≡◌};
ghost use Rattle.edge_io.specs.Sink.{Writes};
ghost use Rattle.command_lines.specs.ReportLines as spec;

use edge_io::{PutFault, Sink, write_parts};
use report_reader::ReportKind;

/// The part of a report to which a line should belong, or what else is wrong with it.
fn part_word(kind: ReportKind) -> &'static [u8]
    ensures { result.now ≡ spec.part_word kind }
{
    match kind {
        ReportKind::TooLong => b"toolong",
        ReportKind::NotText => b"nottext",
        ReportKind::Header => b"header",
        ReportKind::Options => b"options",
        ReportKind::Image => b"image",
        ReportKind::Block => b"block",
        ReportKind::Journal => b"journal",
        ReportKind::Shared => b"shared",
        ReportKind::End => b"end",
        ReportKind::NoThread => b"nothread",
    }
}

/// Writes the line of a fault of a report.
#[tactic(auto, unfolding(crate::specs::ReportLines::report_line))]
pub fn write_report_fault<K: Sink>(out: &mut K, line: u64, kind: ReportKind) -> Result<(), PutFault>
    ensures { Writes (K.view out.old) (K.view out.new) result
        (spec.report_line (record { line = line; kind = kind })) }
{
    let mut buffer = itoa::Buffer::new();
    let digits = buffer.format(line).as_bytes();
    write_parts(
        out,
        &[b"bad report: line ", digits, b": ", part_word(kind), b"\n"],
    )
}
