//! The numbers of an instruction's fields.
ghost use Rattle.std.specs.Prelude.{◌≡◌, ◌<◌, ◌^◌, ◌-◌, ◌&&◌, true, int_le, int_lt, pos, ◌-ℤ◌};
ghost use Rattle.std.specs.List.{list_all};
ghost use Rattle.insn_forms.specs.Fields.{is_field};
ghost use Rattle.insn_forms.specs.Forms.{bits, flag_number, is_in, unsigned_number, word_in};

use crate::field::{Field, placed};

/// The number of an instruction's field, with or without a sign.
#[derive(Clone, Copy)]
pub enum Number {
    Unsigned(u32),
    Signed(i32),
}

/// An instruction's operation, and the numbers of its line's fields in their order, with zeros after the
/// last one.
#[derive(Clone, Copy)]
pub struct Parts<O> {
    pub operation: O,
    pub numbers: [Number; 8],
}

/// The number 1 or 0.
#[inline(always)]
pub fn flag(it: bool) -> Number
    ensures { result ≡ flag_number it }
{
    Number::Unsigned(if it { 1 } else { 0 })
}

/// A number without a sign.
#[inline(always)]
pub fn count(it: u8) -> Number
    ensures { result ≡ unsigned_number it }
{
    Number::Unsigned(u32::from(it))
}

/// Whether so many bits can hold the number in two's complement.
fn below(n: i32, width: u32) -> bool
    requires some { 0 < width }
    requires width { width < 31 }
    ensures { result ≡ (int_le (pos 0 -ℤ pos (2 ^ (width - 1))) n && int_lt n (pos (2 ^ (width - 1)))) }
{
    let half = 1i32 << (width - 1);
    -half <= n && n < half
}

/// Whether the number is one that the field can have.
#[tactic(auto, unfolding(
// The numbers that a field can have.
crate::specs::Forms::is_in, crate::specs::Forms::is_signed,
// The bits of the field.
crate::specs::Fields::is_field))]
fn is_in(it: &Field, number: Number) -> bool
    requires { is_field it.now ≡ true }
    ensures { result ≡ is_in it.now number }
{
    let width = u32::from(it.width) + u32::from(it.upper_width);
    match number {
        Number::Unsigned(n) => n < 1 << width,
        Number::Signed(n) => width > 0 && below(n, width),
    }
}

/// The bits of the number in the field.
#[tactic(auto, unfolding(crate::specs::Forms::bits, crate::specs::Fields::is_field))]
fn bits(it: &Field, number: Number) -> u32
    requires { is_field it.now ≡ true }
    ensures { result ≡ bits it.now number }
{
    let width = u32::from(it.width) + u32::from(it.upper_width);
    match number {
        Number::Unsigned(n) => n,
        Number::Signed(n) => n.cast_unsigned() % (1 << width),
    }
}

/// The word of the fixed bits and the numbers; `None` exactly where a number is not one that its field can
/// have.
pub fn word_in(value: u32, fields: &[Field; 8], numbers: &[Number; 8]) -> Option<u32>
    requires { list_all is_field fields.now ≡ true }
    ensures { result ≡ word_in value fields.now numbers.now }
{
    let mut word = value;
    for k in 0..8usize {
        let it = fields[k];
        let number = numbers[k];
        if !is_in(&it, number) {
            return None;
        }
        word |= placed(&it, bits(&it, number));
    }
    Some(word)
}
