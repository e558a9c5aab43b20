//! Quotients of elements.
#![tactic(auto, unfolding(
// The signed number of bits, and the bits of a number.
vector_elements::specs::Numbers::signed_of, vector_elements::specs::Numbers::wrapped))]

ghost use Rattle.std.specs.Prelude.{◌≡◌, ◌<◌};
ghost use Rattle.vector_elements.specs.Numbers.{range_of};
ghost use Rattle.sve_exec.specs.Binary.{signed_quotient, quotient};

use vector_elements::Size;

/// The quotient of two elements without a sign; 0 where the divisor is 0.
#[inline(always)]
pub fn quotient(a: u64, b: u64) -> u64
    ensures { result ≡ quotient a b }
{
    if b == 0 { 0 } else { a / b }
}

/// The quotient of two signed elements, rounded towards zero; 0 where the divisor is 0.
#[inline(always)]
pub fn signed_quotient(size: Size, a: u64, b: u64) -> u64
    requires a { a < range_of size }
    requires b { b < range_of size }
    ensures { result ≡ signed_quotient size a b }
{
    if b == 0 {
        return 0;
    }
    match size {
        Size::B => u64::from(
            (a as u8)
                .cast_signed()
                .wrapping_div((b as u8).cast_signed())
                .cast_unsigned(),
        ),
        Size::H => u64::from(
            (a as u16)
                .cast_signed()
                .wrapping_div((b as u16).cast_signed())
                .cast_unsigned(),
        ),
        Size::S => u64::from(
            (a as u32)
                .cast_signed()
                .wrapping_div((b as u32).cast_signed())
                .cast_unsigned(),
        ),
        Size::D => a
            .cast_signed()
            .wrapping_div(b.cast_signed())
            .cast_unsigned(),
    }
}
