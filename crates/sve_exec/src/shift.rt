//! Shifts of elements by any amount.
ghost use Rattle.std.specs.Prelude.{◌≡◌, ◌^◌, ◌<◌, ◌≤◌, min, pos};
ghost use Rattle.std.specs.Int.{int_div_euclid};
ghost use Rattle.vector_elements.specs.Numbers.{bits_in, range_of};
ghost use Rattle.sve_exec.specs.Binary.{shifted_left, shifted_right, signed_shifted_right};

use crate::product::signed_word;
use vector_elements::{Size, low_bits, signed, wrapped};

/// The amount, or the width where it is more.
#[inline(always)]
fn at_most_width(size: Size, amount: u64) -> u32
    ensures { result ≡ min amount (bits_in size) }
{
    amount.min(u64::from(size.bits())) as u32
}

/// An element, shifted to the left.
#[inline(always)]
pub fn shift_left(size: Size, a: u64, amount: u64) -> u64
    requires { a < range_of size }
    ensures { result ≡ shifted_left size a amount }
{
    let amount = at_most_width(size, amount);
    if amount < 64 {
        low_bits(size, a << amount)
    } else {
        0
    }
}

/// An element, shifted to the right by zeros.
#[inline(always)]
pub fn shift_right(size: Size, a: u64, amount: u64) -> u64
    requires { a < range_of size }
    ensures { result ≡ shifted_right size a amount }
{
    let amount = at_most_width(size, amount);
    if amount < 64 { a >> amount } else { 0 }
}

/// An element, shifted to the right as a number of 64 bits.
#[inline(always)]
fn shifted_by_sign(size: Size, a: u64, amount: u64) -> u64
    requires { a < range_of size }
    ensures { result ≡ signed_shifted_right size a amount }
{
    let amount = at_most_width(size, amount);
    let number = signed(size, a);
    if amount < 64 {
        wrapped(size, number >> amount)
    } else if number < 0 {
        wrapped(size, -1)
    } else {
        wrapped(size, 0)
    }
}

/// A number of 32 bits, shifted to the right by its sign; of 31 bits and more the sign alone is left.
#[inline(always)]
fn shifted_word(number: i32, amount: u64) -> i32
    ensures { result ≡ int_div_euclid number (pos (2 ^ min amount 32)) }
{
    number >> (amount.min(31) as u32)
}

/// An element, shifted to the right by its sign.
#[inline(always)]
pub fn signed_shift_right(size: Size, a: u64, amount: u64) -> u64
    requires { a < range_of size }
    ensures { result ≡ signed_shifted_right size a amount }
{
    match size {
        Size::S => wrapped(size, i64::from(shifted_word(signed_word(a), amount))),
        Size::B | Size::H | Size::D => shifted_by_sign(size, a, amount),
    }
}
