//! The lines of a check of marked calls.
ghost use Rattle.edge_io.specs.Sink.{Writes};
ghost use Rattle.command_lines.specs.LawLines.{lawful_line, unlawful_line};

use edge_io::{PutFault, Sink, write_parts};
use text_lines::hex64_digits;

/// Writes the line of a run whose marked calls are lawful: how many returned, and how many did not.
#[tactic(auto, unfolding(crate::specs::LawLines::lawful_line))]
pub fn write_lawful<K: Sink>(out: &mut K, returned: u32, unreturned: u32) -> Result<(), PutFault>
    ensures { Writes (K.view out.old) (K.view out.new) result (lawful_line returned unreturned) }
{
    let mut first = itoa::Buffer::new();
    let mut second = itoa::Buffer::new();
    write_parts(
        out,
        &[
            b"abi yes calls ",
            first.format(returned).as_bytes(),
            b" open ",
            second.format(unreturned).as_bytes(),
            b"\n",
        ],
    )
}

/// Writes the line of the first fault of the marked calls of a run: the count and the PC of its place, and
/// the word of its kind.
#[tactic(auto, unfolding(crate::specs::LawLines::unlawful_line))]
pub fn write_unlawful<K: Sink>(
    out: &mut K,
    count: u32,
    pc: u64,
    kind: &[u8],
) -> Result<(), PutFault>
    ensures { Writes (K.view out.old) (K.view out.new) result (unlawful_line count pc kind.now) }
{
    let mut buffer = itoa::Buffer::new();
    let digits = buffer.format(count).as_bytes();
    write_parts(
        out,
        &[
            b"unlawful: count ",
            digits,
            b" pc ",
            &hex64_digits(pc),
            b" ",
            kind,
            b"\n",
        ],
    )
}
