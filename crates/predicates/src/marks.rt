//! Truth values as marks, a byte for each byte of a vector, and predicates of them.
ghost use Rattle.std.specs.Prelude.{◌≡◌, ℕ, ◌+◌, ◌-◌, ◌*◌, ◌/◌, ◌%◌, ◌^◌, ◌<◌, ◌≤◌, ◌==◌, ◌&&◌};
ghost use Rattle.std.specs.Prelude.{if◌then◌else◌, length, slice_index};
ghost use Rattle.vector_elements.specs.Elements.{bit_of, is_active};
ghost use Rattle.vector_elements.specs.Numbers.{bytes_in, range_of};
ghost use Rattle.predicates.specs.Predicates.{predicate_of};

use crate::truths::Truth;
use std::simd::prelude::*;
use sve_vectors::truths_tell_bytes;
use vector_elements::{Change, Size, change_each, element_bits};

/// The element all of whose bits are set.
#[inline(always)]
fn all_ones(size: Size) -> u64
    ensures { result ≡ range_of size - 1 }
{
    match size {
        Size::B => 0xff,
        Size::H => 0xffff,
        Size::S => 0xffff_ffff,
        Size::D => u64::MAX,
    }
}

/// Elements with all bits set where a truth value holds, and with none elsewhere.
#[derive(Clone, Copy)]
struct Marks<'a, T> {
    truth: &'a T,
}

impl<'a, T: Truth> Change for Marks<'a, T> {
    ghost can = { λ s size i. T.can s.truth.now size i };

    ghost gives = { λ s size i old. if T.gives s.truth.now size i then range_of size - 1 else 0 };

    #[inline(always)]
    fn apply(&self, size: Size, place: usize, _old: u64) -> u64 {
        if self.truth.holds(size, place) {
            all_ones(size)
        } else {
            0
        }
    }
}

/// The byte whose bit k is set where byte k of the `i`th eight marks is 0xff.
#[inline(always)]
fn gather(marks: &[u8], i: usize) -> u8
    requires { 8 * i + 8 ≤ length marks.now }
    ensures { (k : ℕ) → k < 8 → (result / 2 ^ k % 2 == 1) ≡ (slice_index marks.now (8 * i + k) == 255) }
{
    let eight = u8x8::from_slice(&marks[8 * i..8 * i + 8]);
    (eight.simd_eq(u8x8::splat(0xff)).to_bitmask() % 0x100) as u8
}

/// Sets the bit of each active element whose lowest byte is marked, and clears all others.
fn gather_active(marks: &[u8], size: Size, pd: &mut [u8], pg: &[u8])
    requires long { length marks.now ≡ 8 * length pd.old }
    requires same { length pg.now ≡ length pd.old }
    ensures { (j : ℕ) → j < 8 * length pd.old → bit_of pd.new j ≡
        ((j % bytes_in size == 0) && (bit_of pg.now j && (slice_index marks.now j == 255))) }
{
    let bits = element_bits(size);
    for i in 0..pd.len() {
        pd[i] = gather(marks, i) & pg[i] & bits;
    }
}

/// The same as `gather_active` for a predicate of two bytes.
#[inline(always)]
fn gather_two(marks: &[u8], size: Size, pd: &mut [u8], pg: &[u8])
    requires two { length pd.old ≡ 2 }
    requires long { length marks.now ≡ 8 * length pd.old }
    requires same { length pg.now ≡ length pd.old }
    ensures { (j : ℕ) → j < 8 * length pd.old → bit_of pd.new j ≡
        ((j % bytes_in size == 0) && (bit_of pg.now j && (slice_index marks.now j == 255))) }
{
    let bits = element_bits(size);
    pd[0] = gather(marks, 0) & pg[0] & bits;
    pd[1] = gather(marks, 1) & pg[1] & bits;
}

/// Makes a predicate of the truth values of the active elements, by marks, whatever they are before.
#[inline(always)]
fn put_by_marks<T: Truth>(truth: &T, size: Size, pd: &mut [u8], pg: &[u8], marks: &mut [u8])
    requires can { (i : ℕ) → bytes_in size * i + bytes_in size ≤ 8 * length pd.old
        → T.can truth.now size i }
    requires same { length pg.now ≡ length pd.old }
    requires long { length marks.old ≡ 8 * length pd.old }
    ensures { pd.new ≡ predicate_of (bytes_in size) (length pd.old)
        (λ i. is_active (bytes_in size) pg.now i && T.gives truth.now size i) }
{
    change_each(&Marks { truth }, size, marks);
    gather_active(marks, size, pd, pg);
    truths_tell_bytes(pd);
}

/// Makes a predicate of two bytes of the truth values of the active elements, by 16 marks.
#[inline(always)]
fn put_two<T: Truth>(truth: &T, size: Size, pd: &mut [u8], pg: &[u8])
    requires can { (i : ℕ) → bytes_in size * i + bytes_in size ≤ 8 * length pd.old
        → T.can truth.now size i }
    requires two { length pd.old ≡ 2 }
    requires same { length pg.now ≡ length pd.old }
    ensures { pd.new ≡ predicate_of (bytes_in size) (length pd.old)
        (λ i. is_active (bytes_in size) pg.now i && T.gives truth.now size i) }
{
    let mut marks = [0u8; 16];
    change_each(&Marks { truth }, size, &mut marks);
    gather_two(&marks, size, pd, pg);
    truths_tell_bytes(pd);
}

/// Makes a predicate of any length of the truth values of the active elements. It is a call of its own, so
/// that for a predicate of two bytes no marks are cleared that are not used.
#[inline(never)]
fn put_many<T: Truth>(truth: &T, size: Size, pd: &mut [u8], pg: &[u8])
    requires can { (i : ℕ) → bytes_in size * i + bytes_in size ≤ 8 * length pd.old
        → T.can truth.now size i }
    requires small { length pd.old ≤ 32 }
    requires same { length pg.now ≡ length pd.old }
    ensures { pd.new ≡ predicate_of (bytes_in size) (length pd.old)
        (λ i. is_active (bytes_in size) pg.now i && T.gives truth.now size i) }
{
    let mut room = [0u8; 256];
    let marks = &mut room[..8 * pd.len()];
    put_by_marks(truth, size, pd, pg, marks);
}

/// Makes a predicate of the truth values of the active elements, with a loop for each size.
#[inline(always)]
pub fn put_governed<T: Truth>(truth: &T, size: Size, pd: &mut [u8], pg: &[u8])
    requires can { (i : ℕ) → bytes_in size * i + bytes_in size ≤ 8 * length pd.old
        → T.can truth.now size i }
    requires small { length pd.old ≤ 32 }
    requires same { length pg.now ≡ length pd.old }
    ensures { pd.new ≡ predicate_of (bytes_in size) (length pd.old)
        (λ i. is_active (bytes_in size) pg.now i && T.gives truth.now size i) }
{
    if pd.len() == 2 {
        put_two(truth, size, pd, pg);
    } else {
        put_many(truth, size, pd, pg);
    }
}
