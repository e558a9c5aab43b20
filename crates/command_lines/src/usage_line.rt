//! The line of a fault of the words.
ghost use Rattle.std.specs.Prelude.{◌≡◌};
ghost use Rattle.edge_io.specs.Sink.{Writes};
ghost use Rattle.command_lines.specs.Texts as text;

use cmd_words::UsageKind;
use edge_io::{PutFault, Sink, write_parts};

/// What is wrong with a word.
fn kind_word(kind: UsageKind) -> &'static [u8]
    ensures { result.now ≡ text.kind_word kind }
{
    match kind {
        UsageKind::Unknown => b"unknown",
        UsageKind::Missing => b"missing",
        UsageKind::Repeated => b"repeated",
        UsageKind::BadNumber => b"badnumber",
        UsageKind::OutOfRange => b"outofrange",
        UsageKind::Extra => b"extra",
    }
}

/// Writes the line of a fault of the words.
#[tactic(auto, unfolding(crate::specs::Texts::usage_line))]
pub fn write_usage<K: Sink>(out: &mut K, place: usize, kind: UsageKind) -> Result<(), PutFault>
    ensures { Writes (K.view out.old) (K.view out.new) result (text.usage_line
        (record { place = place; kind = kind })) }
{
    let mut buffer = itoa::Buffer::new();
    let place_digits = buffer.format(place).as_bytes();
    write_parts(
        out,
        &[b"usage: word ", place_digits, b": ", kind_word(kind), b"\n"],
    )
}
