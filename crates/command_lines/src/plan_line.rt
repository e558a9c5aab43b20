//! The line of the fault for which a plan, or a script, is refused.
ghost use Rattle.std.specs.Prelude.{◌≡◌};
ghost use Rattle.edge_io.specs.Sink.{Writes};
ghost use Rattle.command_lines.specs.PlanLines as spec;

use edge_io::{PutFault, Sink, write_parts};
use line_reader::TextKind;

/// What is wrong with it.
fn fault_word(kind: TextKind) -> &'static [u8]
    ensures { result.now ≡ spec.fault_word kind }
{
    match kind {
        TextKind::TooLong => b"toolong",
        TextKind::NotText => b"nottext",
        TextKind::Unknown => b"unknown",
        TextKind::BadNumber => b"badnumber",
        TextKind::Extra => b"extra",
        TextKind::Missing => b"missing",
    }
}

/// Writes the line of a fault of a plan or a script.
#[tactic(auto, unfolding(crate::specs::PlanLines::plan_line))]
pub fn write_plan_fault<K: Sink>(out: &mut K, line: u64, kind: TextKind) -> Result<(), PutFault>
    ensures { Writes (K.view out.old) (K.view out.new) result
        (spec.plan_line (record { line = line; kind = kind })) }
{
    let mut buffer = itoa::Buffer::new();
    let digits = buffer.format(line).as_bytes();
    write_parts(
        out,
        &[b"bad plan: line ", digits, b": ", fault_word(kind), b"\n"],
    )
}
