//! The text of a source, line by line.
ghost use Rattle.std.specs.Prelude.{◌≡◌, IfOk};
ghost use Rattle.std.specs.List.{flat_map};
ghost use Rattle.edge_io.specs.Pieces.{gathered, Gathers};
ghost use Rattle.edge_io.specs.Sink.{Writes};
ghost use Rattle.workload.specs.Source as source;

use crate::text_sink::TextSink;
use edge_io::{Piece, PutFault, Sink};
use sm_types::Memory;
use std::alloc::Global;

/// The number that follows another in the sequence of a source.
fn next_number(number: u32) -> u32
    ensures { result ≡ source.next_number number }
{
    ((25173 * u64::from(number) + 13849) % 65536) as u32
}

/// The line that adds a number.
fn put_sum_line<K: Sink>(piece: &mut Piece, out: &mut K, addend: u32) -> Result<(), PutFault>
    ensures { Gathers (gathered (K.view out.old) piece.old) (gathered (K.view out.new) piece.new) result
        (source.ended (source.sum_line addend)) }
{
    let mut buffer = itoa::Buffer::new();
    let digits = buffer.format(addend).as_bytes();
    piece.put_all(out, &[b"add x12, x12, #", digits, b"\n"])
}

/// The line that a number chooses.
#[tactic(auto, unfolding(crate::specs::Source::chosen_line))]
fn put_chosen_line<K: Sink>(piece: &mut Piece, out: &mut K, number: u32) -> Result<(), PutFault>
    ensures { Gathers (gathered (K.view out.old) piece.old) (gathered (K.view out.new) piece.new) result
        (source.ended (source.chosen_line number)) }
{
    match number / 16 % 4 {
        0 => piece.put(out, b"smopa za0.s, p0/m, p0/m, z0.b, z1.b\n"),
        1 => piece.put(out, b"add z0.b, z0.b, z1.b\n"),
        2 => piece.put(out, b"ldadd x10, x11, [x9]\n"),
        _ => put_sum_line(piece, out, number % 4096),
    }
}

/// The lines that the numbers of a sequence choose, as many as the source's number.
fn put_chosen_lines<K: Sink>(piece: &mut Piece, out: &mut K, number: u32) -> Result<(), PutFault>
    ensures { Gathers (gathered (K.view out.old) piece.old) (gathered (K.view out.new) piece.new) result
        (flat_map source.ended (source.chosen_lines number)) }
{
    let mut current = number;
    for _i in 0..number {
        current = next_number(current);
        put_chosen_line(piece, out, current)?;
    }
    Ok(())
}

/// The lines before them.
fn put_first_lines<K: Sink>(piece: &mut Piece, out: &mut K) -> Result<(), PutFault>
    ensures { Gathers (gathered (K.view out.old) piece.old) (gathered (K.view out.new) piece.new) result
        (flat_map source.ended source.first_lines) }
{
    piece.put_all(
        out,
        &[
            b".text\n",
            b".global _start\n",
            b"_start:\n",
            b"smstart\n",
            b"ptrue p0.b, all\n",
            b"index z0.b, #0, #1\n",
            b"index z1.b, #1, #2\n",
            b"movz x9, #32512, lsl #32\n",
            b"movz x10, #1\n",
        ],
    )
}

/// The lines after them.
fn put_last_lines<K: Sink>(piece: &mut Piece, out: &mut K) -> Result<(), PutFault>
    ensures { Gathers (gathered (K.view out.old) piece.old) (gathered (K.view out.new) piece.new) result
        (flat_map source.ended source.last_lines) }
{
    piece.put_all(
        out,
        &[
            b"smstop\n",
            b"movz x8, #93\n",
            b"movz x0, #0\n",
            b"svc #0\n",
        ],
    )
}

/// The lines of the source of a number.
fn put_lines<K: Sink>(piece: &mut Piece, out: &mut K, number: u32) -> Result<(), PutFault>
    ensures { Gathers (gathered (K.view out.old) piece.old) (gathered (K.view out.new) piece.new) result
        (source.source_of number) }
{
    put_first_lines(piece, out)?;
    put_chosen_lines(piece, out, number)?;
    put_last_lines(piece, out)
}

/// Writes the text of the source of a number. It takes no memory, and fails only where the sink does.
pub fn write_source<K: Sink>(number: u32, out: &mut K) -> Result<(), PutFault>
    ensures { Writes (K.view out.old) (K.view out.new) result (source.source_of number) }
{
    let mut piece = Piece::new();
    put_lines(&mut piece, out, number)?;
    piece.flush(out)
}

/// The text of the source of a number. `Memory` where it is out of memory.
pub fn source_text(alloc: Global, number: u32) -> Result<Vec<u8>, Memory>
    ensures { IfOk result (λ text. text.items ≡ source.source_of number) }
{
    let mut sink = TextSink::new(alloc);
    match write_source(number, &mut sink) {
        Ok(()) => Ok(sink.into_text()),
        Err(_) => Err(Memory),
    }
}
