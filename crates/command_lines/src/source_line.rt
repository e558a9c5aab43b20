//! The line of the fault for which a source is refused.
ghost use Rattle.std.specs.Prelude.{◌≡◌, ◌∷◌, [], codes};
ghost use Rattle.std.specs.Fmt.{signed_decimal};
ghost use Rattle.std.specs.List.{concat};
ghost use Rattle.edge_io.specs.Pieces.{gathered, Gathers};
ghost use Rattle.edge_io.specs.Sink.{Writes};
ghost use Rattle.command_lines.specs.SourceLines as spec;

use asm_core::AsmFault;
use asm_parser::LineFault;
use edge_io::{Piece, PutFault, Sink};
use text_lines::put_counted;

/// What is wrong with a line by itself, and at which column.
#[tactic(auto, unfolding(crate::specs::SourceLines::line_words))]
fn put_line_words<K: Sink>(piece: &mut Piece, out: &mut K, fault: LineFault) -> Result<(), PutFault>
    ensures { Gathers (gathered (K.view out.old) piece.old) (gathered (K.view out.new) piece.new) result
        (spec.line_words fault) }
{
    match fault {
        LineFault::UnknownName(column) => {
            put_counted(piece, out, b"line unknownname ", u64::from(column))
        }
        LineFault::BadOperand(column) => put_counted(
            piece,
            out,
            b"line badoperand ",
            u64::from(column),
        ),
        LineFault::BadNumber(column) => put_counted(
            piece,
            out,
            b"line badnumber ",
            u64::from(column),
        ),
        LineFault::Extra(column) => put_counted(piece, out, b"line extra ", u64::from(column)),
        LineFault::Memory => piece.put(out, b"line memory"),
    }
}

/// A target that is too far.
fn put_distance<K: Sink>(piece: &mut Piece, out: &mut K, distance: i64) -> Result<(), PutFault>
    ensures { Gathers (gathered (K.view out.old) piece.old) (gathered (K.view out.new) piece.new) result
        (concat (codes "toofar " ∷ signed_decimal distance ∷ [])) }
{
    let mut buffer = itoa::Buffer::new();
    piece.put_all(out, &[b"toofar ", buffer.format(distance).as_bytes()])
}

/// Why a source is refused, with the values of the fault.
#[tactic(auto, unfolding(crate::specs::SourceLines::source_words))]
fn put_source_words<K: Sink>(
    piece: &mut Piece,
    out: &mut K,
    fault: AsmFault,
) -> Result<(), PutFault>
    ensures { Gathers (gathered (K.view out.old) piece.old) (gathered (K.view out.new) piece.new) result
        (spec.source_words fault) }
{
    match fault {
        AsmFault::TooLong => piece.put(out, b"toolong"),
        AsmFault::NotText(offset) => put_counted(piece, out, b"nottext ", offset as u64),
        AsmFault::Line { fault, .. } => put_line_words(piece, out, fault),
        AsmFault::Doubled(_) => piece.put(out, b"doubled"),
        AsmFault::Undefined(_) => piece.put(out, b"undefined"),
        AsmFault::TooFar { distance, .. } => put_distance(piece, out, distance),
        AsmFault::TooLarge(_) => piece.put(out, b"toolarge"),
        AsmFault::NoStart => piece.put(out, b"nostart"),
        AsmFault::Memory => piece.put(out, b"memory"),
    }
}

/// The line of a fault, or 0.
fn line_number(fault: AsmFault) -> u32
    ensures { result ≡ spec.line_number fault }
{
    match fault {
        AsmFault::Line { line, .. } => line,
        AsmFault::Doubled(line) => line,
        AsmFault::Undefined(line) => line,
        AsmFault::TooFar { line, .. } => line,
        AsmFault::TooLarge(line) => line,
        AsmFault::TooLong | AsmFault::NotText(_) | AsmFault::NoStart | AsmFault::Memory => 0,
    }
}

/// The line of a fault.
fn put_source_fault<K: Sink>(
    piece: &mut Piece,
    out: &mut K,
    fault: AsmFault,
) -> Result<(), PutFault>
    ensures { Gathers (gathered (K.view out.old) piece.old) (gathered (K.view out.new) piece.new) result
        (spec.source_line fault) }
{
    let mut buffer = itoa::Buffer::new();
    piece.put(out, b"bad source: line ")?;
    piece.put(out, buffer.format(line_number(fault)).as_bytes())?;
    piece.put(out, b": ")?;
    put_source_words(piece, out, fault)?;
    piece.put(out, b"\n")
}

/// Writes the line of a fault.
pub fn write_source_fault<K: Sink>(out: &mut K, fault: AsmFault) -> Result<(), PutFault>
    ensures { Writes (K.view out.old) (K.view out.new) result (spec.source_line fault) }
{
    let mut piece = Piece::new();
    put_source_fault(&mut piece, out, fault)?;
    piece.flush(out)
}
