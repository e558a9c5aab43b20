//! The text of fields and of exceptions.
ghost use Rattle.std.specs.Prelude.{◌≡◌, ◌++◌, ◌∷◌, [], OnOk, IfOk, codes, decimal, map};
ghost use Rattle.std.specs.List.{flat_map};
ghost use Rattle.edge_io.specs.MemSink.{text_of};
ghost use Rattle.hex.specs.Hex.{encode_lower};
ghost use Rattle.text_lines.specs.Words.{exception_words};
ghost use Rattle.vector_runner.specs.Answer.{spaced};
ghost use Rattle.vector_runner.specs.Field.{field_text, svcr_text};
ghost use Rattle.vector_runner.specs.Told.{field_told};

use crate::vector::Field;
use edge_io::{MemSink, Piece, PutFault};
use sm_types::{Bytes, Exception, Memory};
use std::alloc::{AllocError, Global};
use text_lines::{flag_digit, hex64_digits, put_exception};

/// Adds the parts of a text one after another.
pub fn put_all(line: &mut Bytes, parts: &[&[u8]]) -> Result<(), AllocError>
    ensures { OnOk result (line.new.items ≡ line.old.items ++ flat_map (λ part. part.now) parts.now) }
{
    for part in parts {
        line.extend_from_slice(part)?;
    }
    Ok(())
}

/// Adds letters, a number and a value.
fn put_numbered(
    line: &mut Bytes,
    letters: &[u8],
    number: u8,
    value: &[u8],
) -> Result<(), AllocError>
    ensures { OnOk result (line.new.items
        ≡ line.old.items ++ (letters.now ++ (decimal number ++ 61 ∷ value.now))) }
{
    let mut buffer = itoa::Buffer::new();
    put_all(
        line,
        &[letters, buffer.format(number).as_bytes(), b"=", value],
    )
}

/// Adds letters, a number and bytes in hexadecimal.
fn put_register(
    alloc: Global,
    line: &mut Bytes,
    letters: &[u8],
    number: u8,
    bytes: &[u8],
) -> Result<(), AllocError>
    ensures { OnOk result (line.new.items
        ≡ line.old.items ++ (letters.now ++ (decimal number ++ 61 ∷ encode_lower bytes.now))) }
{
    let digits = hex::encode(alloc, bytes)?;
    put_numbered(line, letters, number, digits.as_bytes())
}

/// Adds letters and bytes in hexadecimal.
fn put_bytes(
    alloc: Global,
    line: &mut Bytes,
    letters: &[u8],
    bytes: &[u8],
) -> Result<(), AllocError>
    ensures { OnOk result (line.new.items ≡ line.old.items ++ (letters.now ++ encode_lower bytes.now)) }
{
    let digits = hex::encode(alloc, bytes)?;
    put_all(line, &[letters, digits.as_bytes()])
}

/// PSTATE.SM and PSTATE.ZA as bits 0 and 1 of a digit.
fn svcr_digit(streaming: bool, za_on: bool) -> &'static [u8]
    ensures { result.now ≡ svcr_text streaming za_on }
{
    match (streaming, za_on) {
        (false, false) => b"0",
        (true, false) => b"1",
        (false, true) => b"2",
        (true, true) => b"3",
    }
}

/// Adds a field after a space.
#[tactic(auto, unfolding(crate::specs::Field::field_text))]
fn put_field(alloc: Global, line: &mut Bytes, field: &Field) -> Result<(), AllocError>
    ensures { OnOk result (line.new.items ≡ line.old.items ++ 32 ∷ field_text (field_told field.now)) }
{
    match field {
        Field::X(n, value) => put_numbered(line, b" x", *n, &hex64_digits(*value)),
        Field::Sp(value) => put_all(line, &[b" sp=", &hex64_digits(*value)]),
        Field::Nzcv(n, z, c, v) => put_all(
            line,
            &[
                b" nzcv=",
                &[
                    flag_digit(*n),
                    flag_digit(*z),
                    flag_digit(*c),
                    flag_digit(*v),
                ],
            ],
        ),
        Field::Tpidr(value) => put_all(line, &[b" tpidr=", &hex64_digits(*value)]),
        Field::Tpidr2(value) => put_all(line, &[b" tpidr2=", &hex64_digits(*value)]),
        Field::Svcr(streaming, za_on) => put_all(
            line,
            &[b" svcr=", svcr_digit(*streaming, *za_on)],
        ),
        Field::Z(n, bytes) => put_register(alloc, line, b" z", *n, bytes.as_slice()),
        Field::P(n, bytes) => put_register(alloc, line, b" p", *n, bytes.as_slice()),
        Field::Ffr(bytes) => put_bytes(alloc, line, b" ffr=", bytes.as_slice()),
        Field::Za(n, bytes) => put_register(alloc, line, b" za", *n, bytes.as_slice()),
        Field::M(bytes) => put_bytes(alloc, line, b" m=", bytes.as_slice()),
    }
}

/// Adds fields, each after a space.
#[tactic(auto, unfolding(crate::specs::Answer::spaced))]
pub fn put_fields(alloc: Global, line: &mut Bytes, fields: &[Field]) -> Result<(), AllocError>
    ensures { OnOk result (line.new.items ≡ line.old.items ++ spaced (map field_told fields.now)) }
{
    for field in fields {
        put_field(alloc, line, field)?;
    }
    Ok(())
}

/// Writes the name of an exception and its values.
fn write_exception(sink: &mut MemSink, exception: Exception) -> Result<(), PutFault>
    ensures { OnOk result (text_of sink.new ≡ text_of sink.old ++ exception_words exception) }
{
    let mut piece = Piece::new();
    put_exception(&mut piece, sink, exception)?;
    piece.flush(sink)
}

/// The most bytes of the text of an exception, and some more.
const EXCEPTION_ROOM: usize = 64;

/// The name of an exception and its values. `Memory` is want of memory.
pub fn exception_text(alloc: Global, exception: Exception) -> Result<MemSink, Memory>
    ensures { IfOk result (λ sink. text_of sink ≡ exception_words exception) }
{
    let mut sink = MemSink::new(alloc, EXCEPTION_ROOM)?;
    match write_exception(&mut sink, exception) {
        Ok(()) => Ok(sink),
        Err(_) => Err(Memory),
    }
}
