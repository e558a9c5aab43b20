//! Products of elements.
ghost use Rattle.std.specs.Prelude.{◌≡◌, ◌*◌, ◌/◌, ◌%◌, ◌^◌, ◌<◌, pos, ◌*ℤ◌};
ghost use Rattle.std.specs.Int.{int_div_euclid};
ghost use Rattle.vector_elements.specs.declared.size.Size.TheVariants.{B, H, S};
ghost use Rattle.vector_elements.specs.Numbers.{range_of, signed_of, wrapped};
ghost use Rattle.sve_exec.specs.Binary.{product_of, signed_high_product, high_product};

use vector_elements::{Size, low_bits, signed, wrapped};

/// The low half of the product of two elements.
#[inline(always)]
pub fn product(size: Size, a: u64, b: u64) -> u64
    requires a { a < range_of size }
    requires b { b < range_of size }
    ensures value { result ≡ product_of size a b }
    ensures fits { result < range_of size }
{
    low_bits(size, a.wrapping_mul(b))
}

/// The upper half of the product of two elements without a sign.
#[inline(always)]
pub fn high_product(size: Size, a: u64, b: u64) -> u64
    requires a { a < range_of size }
    requires b { b < range_of size }
    ensures { result ≡ high_product size a b }
{
    match size {
        Size::B => (a * b) >> 8,
        Size::H => (a * b) >> 16,
        Size::S => (a * b) >> 32,
        Size::D => ((u128::from(a) * u128::from(b)) >> 64) as u64,
    }
}

/// An element of 8 bits as a number.
#[inline(always)]
#[tactic(auto, unfolding(vector_elements::specs::Numbers::signed_of))]
pub fn signed_byte(a: u64) -> i32
    requires { a < 2 ^ 8 }
    ensures { result ≡ signed_of B a }
{
    i32::from((a as u8).cast_signed())
}

/// An element of 16 bits as a number.
#[inline(always)]
#[tactic(auto, unfolding(vector_elements::specs::Numbers::signed_of))]
pub fn signed_halfword(a: u64) -> i32
    requires { a < 2 ^ 16 }
    ensures { result ≡ signed_of H a }
{
    i32::from((a as u16).cast_signed())
}

/// An element of 32 bits as a number.
#[inline(always)]
#[tactic(auto, unfolding(vector_elements::specs::Numbers::signed_of))]
pub fn signed_word(a: u64) -> i32
    requires { a < 2 ^ 32 }
    ensures { result ≡ signed_of S a }
{
    (a as u32).cast_signed()
}

/// The product of two numbers of 32 bits.
#[inline(always)]
pub fn long_product(a: i32, b: i32) -> i64
    ensures { result ≡ a *ℤ b }
{
    i64::from(a) * i64::from(b)
}

/// The product of two numbers of 64 bits.
#[inline(always)]
fn wide_product(a: i64, b: i64) -> i128
    ensures { result ≡ a *ℤ b }
{
    i128::from(a) * i128::from(b)
}

/// A number without its low bits.
#[inline(always)]
fn upper_part(number: i64, low: u32) -> i64
    requires { low < 64 }
    ensures { result ≡ int_div_euclid number (pos (2 ^ low)) }
{
    number >> low
}

/// The upper half of a number of 128 bits.
#[inline(always)]
fn upper_half(both: i128) -> i64
    ensures { result ≡ int_div_euclid both (pos (2 ^ 64)) }
{
    (both >> 64) as i64
}

/// The upper half of the product of two signed elements.
#[inline(always)]
pub fn signed_high_product(size: Size, a: u64, b: u64) -> u64
    requires a { a < range_of size }
    requires b { b < range_of size }
    ensures { result ≡ signed_high_product size a b }
{
    match size {
        Size::B => wrapped(
            Size::B,
            upper_part(long_product(signed_byte(a), signed_byte(b)), 8),
        ),
        Size::H => wrapped(
            Size::H,
            upper_part(long_product(signed_halfword(a), signed_halfword(b)), 16),
        ),
        Size::S => wrapped(
            Size::S,
            upper_part(long_product(signed_word(a), signed_word(b)), 32),
        ),
        Size::D => wrapped(
            Size::D,
            upper_half(wide_product(signed(Size::D, a), signed(Size::D, b))),
        ),
    }
}
