//! The number of a field as an instruction keeps it.
ghost use Rattle.std.specs.Prelude.{◌≡◌, true};
ghost use Rattle.insn_forms.specs.Fields.{field_in, is_field};
ghost use Rattle.insn_forms.specs.Tables.{signed_numbers_in};
ghost use Rattle.insn_forms.specs.Values.{byte, half, is_one};

use crate::field::{Field, field_in, signed_in};

/// The number of a field as 8 bits.
#[inline(always)]
pub fn byte(it: Field, word: u32) -> u8
    requires { is_field it ≡ true }
    ensures { result ≡ byte (field_in it word) }
{
    (field_in(&it, word) & 0xFF) as u8
}

/// The number of a field as 16 bits.
#[inline(always)]
pub fn half(it: Field, word: u32) -> u16
    requires { is_field it ≡ true }
    ensures { result ≡ half (field_in it word) }
{
    (field_in(&it, word) & 0xFFFF) as u16
}

/// Whether the number of a field is 1.
#[inline(always)]
pub fn one(it: Field, word: u32) -> bool
    requires { is_field it ≡ true }
    ensures { result ≡ is_one (field_in it word) }
{
    field_in(&it, word) == 1
}

/// The number of a field in two's complement.
#[inline(always)]
pub fn signed_number(it: Field, word: u32) -> i32
    requires { is_field it ≡ true }
    ensures { result ≡ signed_numbers_in word it }
{
    signed_in(&it, word)
}
