//! Elements and bits at their places.
ghost use Rattle.std.specs.Prelude.{◌≡◌, ◌+◌, ◌*◌, ◌<◌, ◌≤◌, ◌++◌, length, take, drop};
ghost use Rattle.std.specs.Simd.Lanes.{digits_l};
ghost use Rattle.vector_elements.specs.Elements.{element_of, bit_of};
ghost use Rattle.vector_elements.specs.Numbers.{bytes_in, range_of};

use crate::size::Size;

/// Element `i` of a vector. It is copied before it is read as a number, so that it is one load: were its
/// bytes put together, the one of the sign would be loaded apart, and no loop over elements vectorized.
#[inline(always)]
#[tactic(auto, unfolding(crate::specs::Elements::element_of))]
pub fn element(bytes: &[u8], size: Size, i: usize) -> u64
    requires { bytes_in size * i + bytes_in size ≤ length bytes.now }
    ensures value { result ≡ element_of (bytes_in size) bytes.now i }
    ensures fits { result < range_of size }
{
    match size {
        Size::B => u64::from(bytes[i]),
        Size::H => {
            let mut halfword = [0u8; 2];
            halfword.copy_from_slice(&bytes[2 * i..2 * i + 2]);
            u64::from(u16::from_le_bytes(halfword))
        }
        Size::S => {
            let mut word = [0u8; 4];
            word.copy_from_slice(&bytes[4 * i..4 * i + 4]);
            u64::from(u32::from_le_bytes(word))
        }
        Size::D => {
            let mut doubleword = [0u8; 8];
            doubleword.copy_from_slice(&bytes[8 * i..8 * i + 8]);
            u64::from_le_bytes(doubleword)
        }
    }
}

/// Sets element `i` of a vector to the low bits of a value.
#[inline(always)]
pub fn set_element(bytes: &mut [u8], size: Size, i: usize, value: u64)
    requires { bytes_in size * i + bytes_in size ≤ length bytes.old }
    ensures { let e = bytes_in size in bytes.new ≡
        take (e * i) bytes.old ++ (digits_l 256 e value ++ drop (e * i + e) bytes.old) }
{
    match size {
        Size::B => bytes[i..i + 1].copy_from_slice(&((value % 0x100) as u8).to_le_bytes()),
        Size::H => bytes[2 * i..2 * i + 2].copy_from_slice(
            &((value % 0x1_0000) as u16).to_le_bytes(),
        ),
        Size::S => bytes[4 * i..4 * i + 4].copy_from_slice(
            &((value % 0x1_0000_0000) as u32).to_le_bytes(),
        ),
        Size::D => bytes[8 * i..8 * i + 8].copy_from_slice(&value.to_le_bytes()),
    }
}

/// Bit `i` of a predicate.
#[inline(always)]
#[tactic(auto, unfolding(crate::specs::Elements::bit_of))]
pub fn bit(predicate: &[u8], i: usize) -> bool
    requires { i < 8 * length predicate.now }
    ensures { result ≡ bit_of predicate.now i }
{
    (predicate[i / 8] >> (i % 8)) & 1 == 1
}
