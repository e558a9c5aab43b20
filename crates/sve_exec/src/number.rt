//! Arithmetic on elements.
ghost use Rattle.std.specs.Prelude.{◌≡◌, ◌+◌, ◌-◌, ◌*◌, ◌/◌, ◌%◌, ◌<◌, ◌+ℤ◌, ◌-ℤ◌};
ghost use Rattle.vector_elements.specs.Numbers.{range_of, signed_of, wrapped};
ghost use Rattle.sve_exec.specs.Numbers.{signed_saturated, unsigned_saturated, inverted};
ghost use Rattle.sve_exec.specs.Arithmetic.{sum_of, difference_of};
ghost use Rattle.sve_exec.specs.Unary.{sign_extended};

use vector_elements::{Size, low_bits, signed, wrapped};

/// The sum of two elements.
#[inline(always)]
pub fn sum(size: Size, a: u64, b: u64) -> u64
    requires a { a < range_of size }
    requires b { b < range_of size }
    ensures value { result ≡ sum_of size a b }
    ensures fits { result < range_of size }
{
    low_bits(size, a.wrapping_add(b))
}

/// The difference of two elements.
#[inline(always)]
pub fn difference(size: Size, a: u64, b: u64) -> u64
    requires a { a < range_of size }
    requires b { b < range_of size }
    ensures value { result ≡ difference_of size a b }
    ensures fits { result < range_of size }
{
    low_bits(size, a.wrapping_sub(b))
}

/// The greatest element, as a number without a sign.
#[inline(always)]
pub fn all_ones(size: Size) -> u64
    ensures { result ≡ range_of size - 1 }
{
    match size {
        Size::B => 0xff,
        Size::H => 0xffff,
        Size::S => 0xffff_ffff,
        Size::D => u64::MAX,
    }
}

/// Every bit of an element inverted.
#[inline(always)]
pub fn invert(size: Size, x: u64) -> u64
    requires { x < range_of size }
    ensures value { result ≡ inverted size x }
    ensures fits { result < range_of size }
{
    all_ones(size) - x
}

/// The sum of two elements without a sign, saturated.
#[inline(always)]
pub fn saturating_sum(size: Size, a: u64, b: u64) -> u64
    requires a { a < range_of size }
    requires b { b < range_of size }
    ensures { result ≡ unsigned_saturated size (a + b) }
{
    a.saturating_add(b).min(all_ones(size))
}

#[tactic(auto, unfolding(
// The signed number of bits, and the bits of a number.
vector_elements::specs::Numbers::signed_of, vector_elements::specs::Numbers::wrapped,
// The nearest number that the bits can have.
crate::specs::Numbers::signed_saturated))]
/// The sum of two signed elements, saturated.
#[inline(always)]
pub fn saturating_signed_sum(size: Size, a: u64, b: u64) -> u64
    requires a { a < range_of size }
    requires b { b < range_of size }
    ensures { result ≡ wrapped size (signed_saturated size (signed_of size a +ℤ signed_of size b)) }
{
    match size {
        Size::B => u64::from(
            (a as u8)
                .cast_signed()
                .saturating_add((b as u8).cast_signed())
                .cast_unsigned(),
        ),
        Size::H => u64::from(
            (a as u16)
                .cast_signed()
                .saturating_add((b as u16).cast_signed())
                .cast_unsigned(),
        ),
        Size::S => u64::from(
            (a as u32)
                .cast_signed()
                .saturating_add((b as u32).cast_signed())
                .cast_unsigned(),
        ),
        Size::D => a
            .cast_signed()
            .saturating_add(b.cast_signed())
            .cast_unsigned(),
    }
}

#[tactic(auto, unfolding(
// The signed number of bits, and the bits of a number.
vector_elements::specs::Numbers::signed_of, vector_elements::specs::Numbers::wrapped,
// The nearest number that the bits can have.
crate::specs::Numbers::signed_saturated))]
/// The difference of two signed elements, saturated.
#[inline(always)]
pub fn saturating_signed_difference(size: Size, a: u64, b: u64) -> u64
    requires a { a < range_of size }
    requires b { b < range_of size }
    ensures { result ≡ wrapped size (signed_saturated size (signed_of size a -ℤ signed_of size b)) }
{
    match size {
        Size::B => u64::from(
            (a as u8)
                .cast_signed()
                .saturating_sub((b as u8).cast_signed())
                .cast_unsigned(),
        ),
        Size::H => u64::from(
            (a as u16)
                .cast_signed()
                .saturating_sub((b as u16).cast_signed())
                .cast_unsigned(),
        ),
        Size::S => u64::from(
            (a as u32)
                .cast_signed()
                .saturating_sub((b as u32).cast_signed())
                .cast_unsigned(),
        ),
        Size::D => a
            .cast_signed()
            .saturating_sub(b.cast_signed())
            .cast_unsigned(),
    }
}

/// The low part of an element, of the size `from`, as an element with its sign.
#[inline(always)]
pub fn sign_extend(from: Size, size: Size, a: u64) -> u64
    ensures { result ≡ sign_extended from size a }
{
    wrapped(size, signed(from, low_bits(from, a)))
}
