//! A predicate with a byte for each bit, so that a loop over elements reads both in the same way.
ghost use Rattle.std.specs.Prelude.{◌≡◌, ℕ, ◌+◌, ◌*◌, ◌/◌, ◌%◌, ◌^◌, ◌<◌, ◌≤◌, ◌==◌, not, length};
ghost use Rattle.std.specs.Prelude.{slice_index};
ghost use Rattle.std.specs.Prelude.{◌↔◌, IsTrue};
ghost use Rattle.std.specs.Simd.Lanes.{digits_l};
ghost use Rattle.vector_elements.specs.Elements.{bit_of};
ghost use Rattle.vector_elements.specs.Active.{AreActive, HasCommonBits, element_bits};
ghost use Rattle.vector_elements.specs.Spread.{IsSpread};
ghost use Rattle.vector_elements.specs.Numbers.{bytes_in};

use crate::access::element;
use crate::size::Size;

/// The byte eight times, and of each its own bit.
#[inline(always)]
fn own_bits(byte: u8) -> u64
    ensures { IsSpread byte (digits_l 256 8 result) }
{
    (u64::from(byte) * 0x0101_0101_0101_0101) & 0x8040_2010_0804_0201
}

/// Eight bytes of which byte k is not zero exactly where bit k of the byte is set.
#[inline(always)]
fn spread(byte: u8) -> [u8; 8]
    ensures { IsSpread byte result }
{
    own_bits(byte).to_le_bytes()
}

/// Writes a byte, spread, as the `i`th eight bytes of a mask.
#[inline(always)]
fn put_spread(mask: &mut [u8], i: usize, byte: u8)
    requires { 8 * i + 8 ≤ length mask.old }
    ensures written { (k : ℕ) → k < 8 →
        (slice_index mask.new (8 * i + k) == 0) ≡ not (byte / 2 ^ k % 2 == 1) }
    ensures kept { (j : ℕ) → j < 8 * i → slice_index mask.new j ≡ slice_index mask.old j }
{
    mask[8 * i..8 * i + 8].copy_from_slice(&spread(byte));
}

/// Makes byte `j` of the mask zero exactly where bit `j` of the predicate is clear.
#[inline(always)]
pub fn expand(p: &[u8], mask: &mut [u8])
    requires { 8 * length p.now ≤ length mask.old }
    ensures { (j : ℕ) → j < 8 * length p.now → not (slice_index mask.new j == 0) ≡ bit_of p.now j }
{
    for i in 0..p.len() {
        put_spread(mask, i, p[i]);
    }
}

/// The bits of a byte of a predicate that are of elements.
#[inline(always)]
pub fn element_bits(size: Size) -> u8
    ensures { result ≡ element_bits size }
{
    match size {
        Size::B => 0xff,
        Size::H => 0x55,
        Size::S => 0x11,
        Size::D => 0x01,
    }
}

/// The bits that are set in each byte.
#[inline(always)]
fn common_bits(p: &[u8]) -> u8
    ensures { HasCommonBits result p.now }
{
    let mut bits = 0xff;
    for i in 0..p.len() {
        bits = bits & p[i];
    }
    bits
}

/// Whether all elements are active.
#[inline(always)]
pub fn are_active(p: &[u8], size: Size) -> bool
    ensures { IsTrue result ↔ AreActive size p.now }
{
    let bits = element_bits(size);
    common_bits(p) & bits == bits
}

/// Whether the lowest byte of element `i` of a mask is not zero.
#[inline(always)]
pub fn is_marked(mask: &[u8], size: Size, i: usize) -> bool
    requires { bytes_in size * i + bytes_in size ≤ length mask.now }
    ensures { result ≡ not (slice_index mask.now (bytes_in size * i) == 0) }
{
    element(mask, size, i) % 0x100 != 0
}
