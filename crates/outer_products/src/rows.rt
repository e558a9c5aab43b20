//! The rows of a tile, one after another.
ghost use Rattle.std.specs.Prelude.{◌≡◌, ℕ, ℤ, ◌+◌, ◌*◌, ◌%◌, ◌≤◌, List, length};
ghost use Rattle.std.specs.Int.{w16, w32};
ghost use Rattle.vector_elements.specs.declared.size.Size.TheVariants.{S, D};
ghost use Rattle.outer_products.specs.Sources.{AllFit, word_sums, doubleword_sums, sixteen_with, row_of_sums};
ghost use Rattle.outer_products.specs.Sources.{dot_in_pairs, IsSummedTo};

use crate::dots::{doubleword_sums, word_sums};
use std::simd::prelude::*;
use za_array::RowChange;

/// Adds sums to words 4i to 4i + 3 of a row.
#[inline(always)]
fn add_words(row: &mut [u8], i: usize, sums: [i32; 4])
    requires { 16 * i + 16 ≤ length row.old }
    ensures { (exact : ℕ → ℤ) → sums ≡ word_sums exact (4 * i) →
        row.new ≡ sixteen_with S exact (4 * i) 4 row.old }
{
    let [a, b, c, d] = sums;
    let old = i32x4::from_le_bytes(u8x16::from_slice(&row[16 * i..]));
    let new = old + i32x4::from_array([a, b, c, d]);
    new.to_le_bytes().copy_to_slice(&mut row[16 * i..]);
}

/// Adds sums to doublewords 2i and 2i + 1 of a row.
#[inline(always)]
fn add_doublewords(row: &mut [u8], i: usize, sums: [i64; 2])
    requires { 16 * i + 16 ≤ length row.old }
    ensures { (exact : ℕ → ℤ) → sums ≡ doubleword_sums exact (2 * i) →
        row.new ≡ sixteen_with D exact (2 * i) 2 row.old }
{
    let [a, b] = sums;
    let old = i64x2::from_le_bytes(u8x16::from_slice(&row[16 * i..]));
    let new = old + i64x2::from_array([a, b]);
    new.to_le_bytes().copy_to_slice(&mut row[16 * i..]);
}

/// Adds the sums of 16 columns to a row, of which those before have theirs.
#[inline(always)]
fn add_four(row: &mut [u8], n: [i16; 4], m: &[i16], t: usize)
    requires room { 64 * t + 64 ≤ length row.old }
    requires same { length row.old ≡ length m.now }
    requires n_fit { AllFit w16 n }
    requires m_fit { AllFit w16 m.now }
    ensures summed { (old : List ℕ) → IsSummedTo S (dot_in_pairs 4 n m.now) old (16 * t) row.old →
        IsSummedTo S (dot_in_pairs 4 n m.now) old (16 * (t + 1)) row.new }
    ensures long { length row.new ≡ length row.old }
{
    add_words(row, 4 * t, word_sums(n, m, 4 * t));
    add_words(row, 4 * t + 1, word_sums(n, m, 4 * t + 1));
    add_words(row, 4 * t + 2, word_sums(n, m, 4 * t + 2));
    add_words(row, 4 * t + 3, word_sums(n, m, 4 * t + 3));
}

/// Adds the sums of all columns to a row of 256 bytes. Without a loop LLVM keeps the numbers of Zn packed,
/// and in a call of its own those of Zm: laid into the loop over rows it would widen them before it.
#[inline(never)]
fn add_sixteen(row: &mut [u8], n: [i16; 4], m: &[i16])
    requires long { length row.old ≡ 256 }
    requires same { length row.old ≡ length m.now }
    requires n_fit { AllFit w16 n }
    requires m_fit { AllFit w16 m.now }
    ensures { IsSummedTo S (dot_in_pairs 4 n m.now) row.old 64 row.new }
{
    add_four(row, n, m, 0);
    add_four(row, n, m, 1);
    add_four(row, n, m, 2);
    add_four(row, n, m, 3);
}

/// The numbers of two sources of bytes, by which each row of words is changed.
#[derive(Clone, Copy)]
pub(crate) struct ByteSources<'a> {
    pub n: &'a [i16],
    pub m: &'a [i16],
}

/// Adds the products of numbers 4r to 4r + 3 of Zn to a row of words.
#[inline(always)]
fn change_words(s: &ByteSources, r: usize, row: &mut [u8])
    requires n { 4 * r + 4 ≤ length s.now.n.now }
    requires m { length row.old ≡ length s.now.m.now }
    requires whole { length row.old % 16 ≡ 0 }
    requires n_fit { AllFit w16 s.now.n.now }
    requires m_fit { AllFit w16 s.now.m.now }
    ensures { row.new ≡ row_of_sums S s.now.n.now s.now.m.now r row.old }
{
    let n = [s.n[4 * r], s.n[4 * r + 1], s.n[4 * r + 2], s.n[4 * r + 3]];
    if s.m.len() == 256 {
        add_sixteen(row, n, s.m);
        return;
    }
    let turns = s.m.len() / 64;
    for turn in 0..turns {
        add_words(row, 4 * turn, word_sums(n, s.m, 4 * turn));
        add_words(row, 4 * turn + 1, word_sums(n, s.m, 4 * turn + 1));
        add_words(row, 4 * turn + 2, word_sums(n, s.m, 4 * turn + 2));
        add_words(row, 4 * turn + 3, word_sums(n, s.m, 4 * turn + 3));
    }
    for i in 4 * turns..s.m.len() / 16 {
        add_words(row, i, word_sums(n, s.m, i));
    }
}

impl<'a> RowChange for ByteSources<'a> {
    ghost can = { λ s r size. (4 * r + 4 ≤ length s.n.now) × (size ≡ length s.m.now) × (size % 16 ≡ 0)
        × AllFit w16 s.n.now × AllFit w16 s.m.now };

    ghost gives = { λ s r row. row_of_sums S s.n.now s.m.now r row };

    #[inline(always)]
    fn change(&self, r: usize, row: &mut [u8]) {
        change_words(self, r, row);
    }
}

/// The numbers of two sources of halfwords, by which each row of doublewords is changed.
#[derive(Clone, Copy)]
pub(crate) struct HalfwordSources<'a> {
    pub n: &'a [i32],
    pub m: &'a [i32],
}

/// Adds the products of numbers 4r to 4r + 3 of Zn to a row of doublewords.
#[inline(always)]
fn change_doublewords(s: &HalfwordSources, r: usize, row: &mut [u8])
    requires n { 4 * r + 4 ≤ length s.now.n.now }
    requires m { length row.old ≡ 2 * length s.now.m.now }
    requires whole { length row.old % 16 ≡ 0 }
    requires n_fit { AllFit w32 s.now.n.now }
    requires m_fit { AllFit w32 s.now.m.now }
    ensures { row.new ≡ row_of_sums D s.now.n.now s.now.m.now r row.old }
{
    let n = [s.n[4 * r], s.n[4 * r + 1], s.n[4 * r + 2], s.n[4 * r + 3]];
    let turns = s.m.len() / 32;
    for turn in 0..turns {
        add_doublewords(row, 4 * turn, doubleword_sums(n, s.m, 4 * turn));
        add_doublewords(row, 4 * turn + 1, doubleword_sums(n, s.m, 4 * turn + 1));
        add_doublewords(row, 4 * turn + 2, doubleword_sums(n, s.m, 4 * turn + 2));
        add_doublewords(row, 4 * turn + 3, doubleword_sums(n, s.m, 4 * turn + 3));
    }
    for i in 4 * turns..s.m.len() / 8 {
        add_doublewords(row, i, doubleword_sums(n, s.m, i));
    }
}

impl<'a> RowChange for HalfwordSources<'a> {
    ghost can = { λ s r size. (4 * r + 4 ≤ length s.n.now) × (size ≡ 2 * length s.m.now) × (size % 16 ≡ 0)
        × AllFit w32 s.n.now × AllFit w32 s.m.now };

    ghost gives = { λ s r row. row_of_sums D s.n.now s.m.now r row };

    #[inline(always)]
    fn change(&self, r: usize, row: &mut [u8]) {
        change_doublewords(self, r, row);
    }
}
