//! Operations that are made on all lanes of 16 bytes at once.
ghost use Rattle.std.specs.Prelude.{◌≡◌, ◌+◌, ◌*◌, ◌%◌, ◌≤◌, length};
ghost use Rattle.std.specs.Simd.Lanes.{zip2};
ghost use Rattle.vector_elements.specs.declared.size.Size.TheVariants.{B, H, S, D};
ghost use Rattle.vector_elements.specs.Elements.{element_of, each_element};
ghost use Rattle.vector_elements.specs.Lanes.{lanes_of, with_lanes};
ghost use Rattle.vector_elements.specs.Numbers.{bytes_in};

use crate::operation::{Binary, each_with};
use std::simd::prelude::*;
use vector_elements::{
    Size, byte_lanes, doubleword_lanes, element, halfword_lanes, set_byte_lanes,
    set_doubleword_lanes, set_element, set_halfword_lanes, set_word_lanes, word_lanes,
};

/// An operation on two elements that is made on lanes too.
pub trait Lanewise: Binary {
    /// Its values at two vectors of bytes.
    fn of_bytes(self, a: u8x16, b: u8x16) -> u8x16
        ensures { result ≡ zip2 (Self.gives self B) a b };

    /// Its values at two vectors of halfwords.
    fn of_halfwords(self, a: u16x8, b: u16x8) -> u16x8
        ensures { result ≡ zip2 (Self.gives self H) a b };

    /// Its values at two vectors of words.
    fn of_words(self, a: u32x4, b: u32x4) -> u32x4
        ensures { result ≡ zip2 (Self.gives self S) a b };

    /// Its values at two vectors of doublewords.
    fn of_doublewords(self, a: u64x2, b: u64x2) -> u64x2
        ensures { result ≡ zip2 (Self.gives self D) a b };
}

/// Changes the ith 16 bytes of `d` by those of `m`.
#[inline(always)]
fn change_sixteen<O: Lanewise>(op: O, size: Size, i: usize, d: &mut [u8], m: &[u8])
    requires d { 16 * i + 16 ≤ length d.old }
    requires m { 16 * i + 16 ≤ length m.now }
    ensures { d.new ≡ with_lanes size d.old i
        (zip2 (O.gives op size) (lanes_of size d.old i) (lanes_of size m.now i)) }
{
    match size {
        Size::B => {
            let lanes = op.of_bytes(byte_lanes(d, i), byte_lanes(m, i));
            set_byte_lanes(d, i, lanes);
        }
        Size::H => {
            let lanes = op.of_halfwords(halfword_lanes(d, i), halfword_lanes(m, i));
            set_halfword_lanes(d, i, lanes);
        }
        Size::S => {
            let lanes = op.of_words(word_lanes(d, i), word_lanes(m, i));
            set_word_lanes(d, i, lanes);
        }
        Size::D => {
            let lanes = op.of_doublewords(doubleword_lanes(d, i), doubleword_lanes(m, i));
            set_doubleword_lanes(d, i, lanes);
        }
    }
}

/// Changes the elements of `d` by those of `m`: 16 bytes at a time, and what is left one by one.
#[inline(always)]
fn each_sixteen<O: Lanewise>(op: O, size: Size, d: &mut [u8], m: &[u8])
    requires same { length d.old ≡ length m.now }
    requires whole { length d.old % bytes_in size ≡ 0 }
    ensures { d.new ≡ each_element (bytes_in size) d.old (λ i a.
        O.gives op size a (element_of (bytes_in size) m.now i)) }
{
    let turns = d.len() / 16;
    for turn in 0..turns {
        change_sixteen(op, size, turn, d, m);
    }
    for i in 16 / size.bytes() * turns..d.len() / size.bytes() {
        let value = op.of_two(size, element(d, size, i), element(m, size, i));
        set_element(d, size, i, value);
    }
}

/// Changes the elements of `d` by those of `m`, with loops for each size.
#[inline]
pub fn each_by_lanes<O: Lanewise>(op: O, size: Size, d: &mut [u8], m: &[u8])
    requires same { length d.old ≡ length m.now }
    requires whole { length d.old % bytes_in size ≡ 0 }
    ensures { d.new ≡ each_element (bytes_in size) d.old (λ i a.
        O.gives op size a (element_of (bytes_in size) m.now i)) }
{
    match size {
        Size::B => each_sixteen(op, Size::B, d, m),
        Size::H => each_sixteen(op, Size::H, d, m),
        Size::S => each_sixteen(op, Size::S, d, m),
        Size::D => each_sixteen(op, Size::D, d, m),
    }
}

/// Changes the elements of `d` by those of `m`: a vector of 16 bytes on lanes, and a longer one element by
/// element, for an operation whose loop over elements the compiler makes of instructions for 16 bytes; such
/// a loop is shorter, and takes longer to begin with. Doublewords gain nothing on lanes.
#[inline]
pub fn each_of_short_by_lanes<O: Lanewise>(op: O, size: Size, d: &mut [u8], m: &[u8])
    requires same { length d.old ≡ length m.now }
    requires whole { length d.old % bytes_in size ≡ 0 }
    ensures { d.new ≡ each_element (bytes_in size) d.old (λ i a.
        O.gives op size a (element_of (bytes_in size) m.now i)) }
{
    if d.len() == 16 && size.bytes() < 8 {
        each_by_lanes(op, size, d, m);
    } else {
        each_with(op, size, d, m);
    }
}
