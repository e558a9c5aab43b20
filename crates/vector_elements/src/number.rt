//! Elements as numbers.
ghost use Rattle.std.specs.Prelude.{◌≡◌, ◌%◌, ◌<◌, pos};
ghost use Rattle.vector_elements.specs.Numbers.{range_of, signed_of, wrapped};

use crate::size::Size;

/// The element that a number without a sign becomes, modulo 2 ^ w.
#[inline(always)]
pub fn low_bits(size: Size, value: u64) -> u64
    ensures value { result ≡ value % range_of size }
    ensures fits { result < range_of size }
{
    match size {
        Size::B => value % 0x100,
        Size::H => value % 0x1_0000,
        Size::S => value % 0x1_0000_0000,
        Size::D => value,
    }
}

/// An element as a number in two's complement.
#[inline(always)]
#[tactic(auto, unfolding(crate::specs::Numbers::signed_of))]
pub fn signed(size: Size, value: u64) -> i64
    requires { value < range_of size }
    ensures { result ≡ signed_of size value }
{
    match size {
        Size::B => i64::from((value as u8).cast_signed()),
        Size::H => i64::from((value as u16).cast_signed()),
        Size::S => i64::from((value as u32).cast_signed()),
        Size::D => value.cast_signed(),
    }
}

/// The element that a number becomes, modulo 2 ^ w.
#[inline(always)]
#[tactic(auto, unfolding(crate::specs::Numbers::wrapped))]
pub fn wrapped(size: Size, value: i64) -> u64
    ensures value { result ≡ wrapped size value }
    ensures fits { result < range_of size }
{
    match size {
        Size::B => value.cast_unsigned() % 0x100,
        Size::H => value.cast_unsigned() % 0x1_0000,
        Size::S => value.cast_unsigned() % 0x1_0000_0000,
        Size::D => value.cast_unsigned(),
    }
}
