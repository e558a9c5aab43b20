//! Sixteen bytes of a vector as the lanes of `std::simd`, for elements of each size.
ghost use Rattle.std.specs.Prelude.{◌≡◌, ◌+◌, ◌*◌, ◌≤◌, length};
ghost use Rattle.vector_elements.specs.declared.size.Size.TheVariants.{B, H, S, D};
ghost use Rattle.vector_elements.specs.Lanes.{lanes_of, with_lanes};

use std::simd::prelude::*;

/// Bytes 16i to 16i + 15.
#[inline(always)]
pub fn byte_lanes(bytes: &[u8], i: usize) -> u8x16
    requires { 16 * i + 16 ≤ length bytes.now }
    ensures { result ≡ lanes_of B bytes.now i }
{
    u8x16::from_slice(&bytes[16 * i..])
}

/// Halfwords 8i to 8i + 7.
#[inline(always)]
pub fn halfword_lanes(bytes: &[u8], i: usize) -> u16x8
    requires { 16 * i + 16 ≤ length bytes.now }
    ensures { result ≡ lanes_of H bytes.now i }
{
    u16x8::from_le_bytes(u8x16::from_slice(&bytes[16 * i..]))
}

/// Words 4i to 4i + 3.
#[inline(always)]
pub fn word_lanes(bytes: &[u8], i: usize) -> u32x4
    requires { 16 * i + 16 ≤ length bytes.now }
    ensures { result ≡ lanes_of S bytes.now i }
{
    u32x4::from_le_bytes(u8x16::from_slice(&bytes[16 * i..]))
}

/// Doublewords 2i to 2i + 1.
#[inline(always)]
pub fn doubleword_lanes(bytes: &[u8], i: usize) -> u64x2
    requires { 16 * i + 16 ≤ length bytes.now }
    ensures { result ≡ lanes_of D bytes.now i }
{
    u64x2::from_le_bytes(u8x16::from_slice(&bytes[16 * i..]))
}

/// Sets bytes 16i to 16i + 15.
#[inline(always)]
pub fn set_byte_lanes(bytes: &mut [u8], i: usize, lanes: u8x16)
    requires { 16 * i + 16 ≤ length bytes.old }
    ensures { bytes.new ≡ with_lanes B bytes.old i lanes }
{
    lanes.copy_to_slice(&mut bytes[16 * i..]);
}

/// Sets halfwords 8i to 8i + 7.
#[inline(always)]
pub fn set_halfword_lanes(bytes: &mut [u8], i: usize, lanes: u16x8)
    requires { 16 * i + 16 ≤ length bytes.old }
    ensures { bytes.new ≡ with_lanes H bytes.old i lanes }
{
    lanes.to_le_bytes().copy_to_slice(&mut bytes[16 * i..]);
}

/// Sets words 4i to 4i + 3.
#[inline(always)]
pub fn set_word_lanes(bytes: &mut [u8], i: usize, lanes: u32x4)
    requires { 16 * i + 16 ≤ length bytes.old }
    ensures { bytes.new ≡ with_lanes S bytes.old i lanes }
{
    lanes.to_le_bytes().copy_to_slice(&mut bytes[16 * i..]);
}

/// Sets doublewords 2i to 2i + 1.
#[inline(always)]
pub fn set_doubleword_lanes(bytes: &mut [u8], i: usize, lanes: u64x2)
    requires { 16 * i + 16 ≤ length bytes.old }
    ensures { bytes.new ≡ with_lanes D bytes.old i lanes }
{
    lanes.to_le_bytes().copy_to_slice(&mut bytes[16 * i..]);
}
