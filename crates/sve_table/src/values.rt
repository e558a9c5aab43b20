//! What the number of a field stands for.
#![tactic(auto, unfolding(insn_forms::specs::Fields::is_field, insn_forms::specs::Fields::mask_of))]

ghost use Rattle.std.specs.Prelude.{◌≡◌, ◌<◌, ◌≤◌, ◌+◌, true};
ghost use Rattle.insn_forms.specs.Fields.{field_in, is_field};
ghost use Rattle.insn_forms.specs.Tables.{numbers_in};
ghost use Rattle.sve_table.specs.declared.fields.TheConstants.{MULTIPLIER, RV};
ghost use Rattle.sve_table.specs.Values.{elem_of, load_type_of, shift_amount};

use crate::fields::{MULTIPLIER, RV};
use insn_forms::{Field, field_in};
use sm_types::{Elem, LoadType, VectorShiftOp};

// The variant that each number stands for; the last stands for all others.
macro_rules! variant {
    ($number:expr; $kind:ident [$($n:literal $variant:ident),*] $last:ident) => {
        match $number { $($n => $kind::$variant,)* _ => $kind::$last }
    };
}

/// The elements of a field of 2 bits.
#[inline(always)]
#[tactic(auto, unfolding(crate::specs::Values::elem_of))]
pub fn elem_of(it: Field, word: u32) -> Elem
    requires { is_field it ≡ true }
    ensures { result ≡ elem_of (field_in it word) }
{
    variant!(field_in(&it, word); Elem [0 B, 1 H, 2 S] D)
}

/// The load of a field of 4 bits.
#[inline(always)]
#[tactic(auto, unfolding(crate::specs::Values::load_type_of))]
pub fn load_type_of(it: Field, word: u32) -> LoadType
    requires { is_field it ≡ true }
    ensures { result ≡ load_type_of (field_in it word) }
{
    variant!(field_in(&it, word); LoadType [
        0 ByteToB, 1 ByteToH, 2 ByteToS, 3 ByteToD, 4 SignedWordToD, 5 HalfwordToH, 6 HalfwordToS,
        7 HalfwordToD, 8 SignedHalfwordToD, 9 SignedHalfwordToS, 10 WordToS, 11 WordToD,
        12 SignedByteToD, 13 SignedByteToS, 14 SignedByteToH
    ] DoublewordToD)
}

/// The multiplier of a number of elements.
#[inline(always)]
pub fn multiplier(word: u32) -> u8
    ensures { result ≡ 1 + numbers_in word MULTIPLIER }
{
    1 + field_in(&MULTIPLIER, word) as u8
}

/// The register of a slice.
#[inline(always)]
pub fn slice_register(word: u32) -> u8
    ensures { result ≡ 12 + numbers_in word RV }
{
    12 + field_in(&RV, word) as u8
}

/// The amount of a shift of elements of so many bits, by its field.
#[inline(always)]
#[tactic(auto, unfolding(crate::specs::Values::shift_amount))]
pub fn shift_amount(op: VectorShiftOp, width: u32, number: u32) -> u8
    requires small { width ≤ 64 }
    requires below { number < width }
    ensures { result ≡ shift_amount op width number }
{
    match op {
        VectorShiftOp::Lsl => number as u8,
        VectorShiftOp::Asr | VectorShiftOp::Lsr => (width - number) as u8,
    }
}
