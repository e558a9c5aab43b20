//! The conditions on a word that has a row's fixed bits.
#![tactic(auto, unfolding(
// The table and its conditions.
crate::specs::Table::vector, crate::specs::Conditions::fits_of, insn_forms::specs::Tables::fits_with,
// The fields of a word.
insn_forms::specs::Fields::is_field, insn_forms::specs::Fields::mask_of,
// The bounds of a field.
crate::specs::Conditions::is_from, crate::specs::Conditions::is_up_to, crate::specs::Conditions::is_offset,
// The least and greatest elements of the operations.
crate::specs::Sizes::least_binary, crate::specs::Sizes::least_unary,
// Those of shifted immediates and of reductions.
crate::specs::Sizes::least_shifted, crate::specs::Sizes::widest_reduced))]

ghost use Rattle.std.specs.Prelude.{◌≡◌};
ghost use Rattle.insn_forms.specs.Tables.{numbers_in};
ghost use Rattle.sve_table.specs.declared.fields.TheConstants.{RM};
ghost use Rattle.sve_table.specs.declared.operation.VectorOperation.TheVariants.{G37};
ghost use Rattle.sve_table.specs.Conditions.{fits_of, is_from, is_offset, is_up_to};
ghost use Rattle.sve_table.specs.Rows.{vector_row_fits};
ghost use Rattle.sve_table.specs.Sizes.{least_binary, least_shifted, least_unary, widest_reduced};

use crate::fields::{ELEMENT_SIZE, MEMORY_SIZE, RM, SH, SIZE};
use crate::operation::{
    AccessForm, CopyForm, PermuteForm, ReductionForm, Sve2Form, VectorOperation,
};
use crate::rows::VECTOR_LINES;
use insn_forms::{field_in, line_with, one};
use sm_types::{Elem, PredicatedBinaryOp, PredicatedUnaryOp, ReductionOp, Row};

/// Whether a word that has the row's fixed bits meets the condition of the row; no word does where the table
/// has no such row.
pub fn fits(row: &Row, word: u32) -> bool
    ensures { result ≡ vector_row_fits row.now word }
{
    match line_with(&VECTOR_LINES, row.mask, row.value) {
        Some(line) => condition(line.operation, word),
        None => false,
    }
}

/// Whether the word meets the condition of the operation.
#[inline(always)]
pub fn condition(operation: VectorOperation, word: u32) -> bool
    ensures { result ≡ fits_of operation (numbers_in word) }
{
    match operation {
        VectorOperation::G26(op) => from(least_binary(op), field_in(&SIZE, word)),
        VectorOperation::G28(op) => from(least_unary(op), field_in(&SIZE, word)),
        VectorOperation::G30(CopyForm::Immediate)
        | VectorOperation::G30(CopyForm::PredicatedImmediate)
        | VectorOperation::G30(CopyForm::AddImmediate(_)) => {
            from(least_shifted(one(SH, word)), field_in(&SIZE, word))
        }
        VectorOperation::G31(PermuteForm::Unpack(_, _)) => from(Elem::H, field_in(&SIZE, word)),
        VectorOperation::G32(ReductionForm::Reduce(op)) => {
            up_to(widest_reduced(op), field_in(&SIZE, word))
        }
        VectorOperation::G37(form) => access_fits(form, word),
        VectorOperation::G38(Sve2Form::Widening(_, _)) => from(Elem::H, field_in(&SIZE, word)),
        _ => true,
    }
}

/// Whether a load or store has its element and its offset.
#[inline(always)]
fn access_fits(form: AccessForm, word: u32) -> bool
    ensures { result ≡ fits_of (G37 form) (numbers_in word) }
{
    match form {
        AccessForm::LoadRegister | AccessForm::StoreBytes | AccessForm::StoreDoublewords => {
            offset(word)
        }
        AccessForm::StoreVectors => field_in(&MEMORY_SIZE, word) <= field_in(&ELEMENT_SIZE, word),
        AccessForm::StoreHalfwords => {
            from(Elem::H, field_in(&ELEMENT_SIZE, word)) && offset(word)
        }
        AccessForm::StoreWords => from(Elem::S, field_in(&ELEMENT_SIZE, word)) && offset(word),
        _ => true,
    }
}

/// Whether the register of an offset is not 31.
#[inline(always)]
fn offset(word: u32) -> bool
    ensures { result ≡ is_offset (numbers_in word RM) }
{
    field_in(&RM, word) < 31
}

/// Whether the number is that of elements no narrower than these.
#[inline(always)]
fn from(least: Elem, number: u32) -> bool
    ensures { result ≡ is_from least number }
{
    least as u32 <= number
}

/// Whether the number is that of elements no wider than these.
#[inline(always)]
fn up_to(widest: Elem, number: u32) -> bool
    ensures { result ≡ is_up_to widest number }
{
    number <= widest as u32
}

/// The narrowest elements of an operation on two vectors.
#[inline(always)]
fn least_binary(op: PredicatedBinaryOp) -> Elem
    ensures { result ≡ least_binary op }
{
    match op {
        PredicatedBinaryOp::Sdiv | PredicatedBinaryOp::Udiv => Elem::S,
        _ => Elem::B,
    }
}

/// The narrowest elements of an operation on one vector.
#[inline(always)]
fn least_unary(op: PredicatedUnaryOp) -> Elem
    ensures { result ≡ least_unary op }
{
    match op {
        PredicatedUnaryOp::Sxtb | PredicatedUnaryOp::Uxtb => Elem::H,
        PredicatedUnaryOp::Sxth | PredicatedUnaryOp::Uxth => Elem::S,
        PredicatedUnaryOp::Sxtw | PredicatedUnaryOp::Uxtw => Elem::D,
        _ => Elem::B,
    }
}

/// The narrowest elements of an immediate.
#[inline(always)]
fn least_shifted(shifted: bool) -> Elem
    ensures { result ≡ least_shifted shifted }
{
    if shifted { Elem::H } else { Elem::B }
}

/// The widest elements of a reduction.
#[inline(always)]
fn widest_reduced(op: ReductionOp) -> Elem
    ensures { result ≡ widest_reduced op }
{
    match op {
        ReductionOp::Saddv => Elem::S,
        _ => Elem::D,
    }
}
