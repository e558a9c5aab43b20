//! The fields of a state that are not zero.
ghost use Rattle.std.specs.Prelude.{◌≡◌, ◌+◌, ◌^◌, ◌<◌, ◌≤◌, ◌++◌, ◌∷◌, ◌==◌, [], OnOk, IfOk, length, map};
ghost use Rattle.std.specs.Prelude.{if◌then◌else◌};
ghost use Rattle.sve_vectors.specs.Predicates.{predicate_bytes};
ghost use Rattle.text_lines.specs.Rows as rows;
ghost use Rattle.vector_runner.specs.Answer as spec;
ghost use Rattle.vector_runner.specs.Field as said;
ghost use Rattle.vector_runner.specs.Prepared.{core_in};
ghost use Rattle.vector_runner.specs.Told.{field_told, with_bytes};

use crate::state::{DATA, State};
use crate::vector::Field;
use machine_step::Machine;
use paged_memory::Pages;
use sm_types::{Bytes, Scalars};
use std::alloc::{AllocError, Global};
use sve_vectors::{Vectors, truths_tell_bytes};
use za_array::Za;

/// Whether all bytes are zero.
fn are_zero(bytes: &[u8]) -> bool
    ensures { result ≡ rows.are_zero bytes.now }
{
    bytes.iter().all(|byte| *byte == 0)
}

/// The end of the bytes that are not zero, where this byte follows those that were looked at.
fn end_after(byte: u8, at: usize, end: usize) -> usize
    requires { at < 2 ^ 32 }
    ensures { result ≡ (if byte == 0 then end else at + 1) }
{
    if byte == 0 { end } else { at + 1 }
}

/// Bytes up to the last that is not zero.
fn up_to_last(bytes: &[u8]) -> &[u8]
    requires { length bytes.now ≤ 4096 }
    ensures { result.now ≡ spec.up_to_last bytes.now }
{
    let mut end = 0;
    for at in 0..bytes.len() {
        let byte = bytes[at];
        end = end_after(byte, at, end);
    }
    &bytes[..end]
}

/// Adds a field, where its value is not zero.
fn push_number(fields: &mut Vec<Field>, field: Field, value: u64) -> Result<(), AllocError>
    ensures { OnOk result (map field_told fields.new.items ≡ map field_told fields.old.items
        ++ (if value == 0 then [] else field_told field ∷ [])) }
{
    if value != 0 {
        fields.push(field)?;
    }
    Ok(())
}

/// Adds the general registers.
fn push_x(fields: &mut Vec<Field>, values: &[u64; 31]) -> Result<(), AllocError>
    ensures { OnOk result (map field_told fields.new.items
        ≡ map field_told fields.old.items ++ spec.x_fields values.now) }
{
    for n in 0..31u8 {
        let value = values[usize::from(n)];
        push_number(fields, Field::X(n, value), value)?;
    }
    Ok(())
}

/// Adds the flags, where one of them is set.
#[tactic(auto, unfolding(crate::specs::Answer::flags_field))]
fn push_flags(fields: &mut Vec<Field>, s: &Scalars) -> Result<(), AllocError>
    ensures { OnOk result (map field_told fields.new.items
        ≡ map field_told fields.old.items ++ spec.flags_field s.now) }
{
    if s.n || s.z || s.c || s.v {
        fields.push(Field::Nzcv(s.n, s.z, s.c, s.v))?;
    }
    Ok(())
}

/// Adds PSTATE.SM and PSTATE.ZA, where one of them is set.
#[tactic(auto, unfolding(crate::specs::Answer::modes_field))]
fn push_modes(fields: &mut Vec<Field>, streaming: bool, za_on: bool) -> Result<(), AllocError>
    ensures { OnOk result (map field_told fields.new.items
        ≡ map field_told fields.old.items ++ spec.modes_field streaming za_on) }
{
    if streaming || za_on {
        fields.push(Field::Svcr(streaming, za_on))?;
    }
    Ok(())
}

/// Adds the other scalar registers.
fn push_scalars(fields: &mut Vec<Field>, machine: &Machine) -> Result<(), AllocError>
    ensures { OnOk result (map field_told fields.new.items
        ≡ map field_told fields.old.items ++ spec.scalar_fields machine.now.scalars machine.now.tpidr
        machine.now.tpidr2 machine.now.streaming machine.now.za_on) }
{
    push_number(fields, Field::Sp(machine.scalars.sp), machine.scalars.sp)?;
    push_flags(fields, &machine.scalars)?;
    push_number(fields, Field::Tpidr(machine.tpidr), machine.tpidr)?;
    push_number(fields, Field::Tpidr2(machine.tpidr2), machine.tpidr2)?;
    push_modes(fields, machine.streaming, machine.za_on)?;
    Ok(())
}

/// A field whose value is bytes.
#[derive(Clone, Copy)]
pub enum BytesField {
    /// A vector register.
    Z(u8),
    /// A predicate register.
    P(u8),
    /// The first fault register.
    Ffr,
    /// A vector of ZA.
    Za(u8),
    /// The data.
    M,
}

impl BytesField {
    /// The field with these bytes.
    fn with(self, bytes: Bytes) -> Field
        ensures { field_told result ≡ with_bytes self bytes.items }
    {
        match self {
            BytesField::Z(n) => Field::Z(n, bytes),
            BytesField::P(n) => Field::P(n, bytes),
            BytesField::Ffr => Field::Ffr(bytes),
            BytesField::Za(n) => Field::Za(n, bytes),
            BytesField::M => Field::M(bytes),
        }
    }
}

/// Adds a field, where its bytes are not all zero.
fn push_bytes(
    alloc: Global,
    fields: &mut Vec<Field>,
    field: BytesField,
    bytes: &[u8],
) -> Result<(), AllocError>
    ensures { OnOk result (map field_told fields.new.items
        ≡ map field_told fields.old.items ++ spec.bytes_field (with_bytes field) bytes.now) }
{
    if !are_zero(bytes) {
        fields.push(field.with(Vec::from_slice(alloc, bytes)?))?;
    }
    Ok(())
}

/// Adds the vectors.
fn push_z(alloc: Global, fields: &mut Vec<Field>, vectors: &Vectors) -> Result<(), AllocError>
    ensures { OnOk result (map field_told fields.new.items ≡ map field_told fields.old.items
        ++ spec.bytes_fields said.Z vectors.now.registers.vectors) }
{
    let _length = vectors.length();
    for n in 0..32u8 {
        push_bytes(alloc, fields, BytesField::Z(n), vectors.z(n))?;
    }
    Ok(())
}

/// Adds the predicates.
fn push_p(alloc: Global, fields: &mut Vec<Field>, vectors: &Vectors) -> Result<(), AllocError>
    ensures { OnOk result (map field_told fields.new.items ≡ map field_told fields.old.items
        ++ spec.bytes_fields said.P (map predicate_bytes vectors.now.registers.predicates)) }
{
    let _length = vectors.length();
    for n in 0..16u8 {
        let bytes = vectors.p(n);
        truths_tell_bytes(bytes);
        push_bytes(alloc, fields, BytesField::P(n), bytes)?;
    }
    Ok(())
}

/// Adds FFR.
fn push_ffr(alloc: Global, fields: &mut Vec<Field>, vectors: &Vectors) -> Result<(), AllocError>
    ensures { OnOk result (map field_told fields.new.items ≡ map field_told fields.old.items
        ++ spec.bytes_field said.Ffr (predicate_bytes vectors.now.registers.ffr)) }
{
    let bytes = vectors.ffr();
    truths_tell_bytes(bytes);
    push_bytes(alloc, fields, BytesField::Ffr, bytes)
}

/// Adds the vectors of ZA.
fn push_za(alloc: Global, fields: &mut Vec<Field>, za: &Za) -> Result<(), AllocError>
    ensures { OnOk result (map field_told fields.new.items ≡ map field_told fields.old.items
        ++ spec.bytes_fields said.Za za.now.vectors) }
{
    for n in 0..za.size() {
        push_bytes(alloc, fields, BytesField::Za(n as u8), za.vector(n))?;
    }
    Ok(())
}

/// Adds the data.
#[tactic(auto, unfolding(crate::specs::Answer::data_in))]
fn push_data(alloc: Global, fields: &mut Vec<Field>, pages: &Pages) -> Result<(), AllocError>
    ensures { OnOk result (map field_told fields.new.items ≡ map field_told fields.old.items
        ++ spec.bytes_field said.M (spec.data_in pages.now.memory)) }
{
    match pages.bytes_within(DATA, 4096) {
        Some(data) => push_bytes(alloc, fields, BytesField::M, up_to_last(data)),
        None => Ok(()),
    }
}

/// Adds the vectors of ZA, where it is on.
fn push_array(
    alloc: Global,
    fields: &mut Vec<Field>,
    za: &Za,
    za_on: bool,
) -> Result<(), AllocError>
    ensures { OnOk result (map field_told fields.new.items
        ≡ map field_told fields.old.items ++ spec.array_fields za_on za.now.vectors) }
{
    if za_on {
        push_za(alloc, fields, za)?;
    }
    Ok(())
}

/// The fields of a state that are not zero, in the order of a line.
#[tactic(auto, unfolding(crate::specs::Answer::fields_of))]
pub fn fields_of(alloc: Global, state: &State) -> Result<Vec<Field>, AllocError>
    ensures { IfOk result (λ fields. map field_told fields.items ≡ spec.fields_of (core_in state.now)) }
{
    let mut fields = Vec::new(alloc);
    push_x(&mut fields, &state.machine.scalars.x)?;
    push_scalars(&mut fields, &state.machine)?;
    push_z(alloc, &mut fields, &state.bank.vectors)?;
    push_p(alloc, &mut fields, &state.bank.vectors)?;
    push_ffr(alloc, &mut fields, &state.bank.vectors)?;
    push_array(alloc, &mut fields, &state.bank.za, state.machine.za_on)?;
    push_data(alloc, &mut fields, &state.machine.pages)?;
    Ok(fields)
}
