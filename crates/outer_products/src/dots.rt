//! The sums of four products for the elements of 16 bytes of a row, all at once. The numbers of Zm stand in
//! pairs, so that LLVM makes of the two products of a pair of bytes and their sum one instruction of the
//! processor, and adds the sums of both pairs lane by lane.
ghost use Rattle.std.specs.Prelude.{◌≡◌, ◌+◌, ◌*◌, ◌≤◌, length};
ghost use Rattle.std.specs.Int.{w16, w32};
ghost use Rattle.outer_products.specs.Sources.{AllFit, dot_in_pairs, word_sums, doubleword_sums};

use std::simd::prelude::*;

/// The sums for columns 4i to 4i + 3, modulo 2 ^ 32: the products of four numbers of Zn with four of Zm each.
#[inline(always)]
pub(crate) fn word_sums(n: [i16; 4], m: &[i16], i: usize) -> [i32; 4]
    requires room { 16 * i + 16 ≤ length m.now }
    requires n_fit { AllFit w16 n }
    requires m_fit { AllFit w16 m.now }
    ensures { result ≡ word_sums (dot_in_pairs 4 n m.now) (4 * i) }
{
    let [a, b, c, d] = n;
    let n = i16x4::from_array([a, b, c, d]).cast::<i32>();
    let first = i16x8::from_array([
        m[16 * i],
        m[16 * i + 1],
        m[16 * i + 2],
        m[16 * i + 3],
        m[16 * i + 4],
        m[16 * i + 5],
        m[16 * i + 6],
        m[16 * i + 7],
    ]);
    let last = i16x8::from_array([
        m[16 * i + 8],
        m[16 * i + 9],
        m[16 * i + 10],
        m[16 * i + 11],
        m[16 * i + 12],
        m[16 * i + 13],
        m[16 * i + 14],
        m[16 * i + 15],
    ]);
    let first = n.swizzle([0, 1, 0, 1, 0, 1, 0, 1]) * first.cast::<i32>();
    let last = n.swizzle([2, 3, 2, 3, 2, 3, 2, 3]) * last.cast::<i32>();
    let first: i32x4 = first.swizzle([0, 2, 4, 6]) + first.swizzle([1, 3, 5, 7]);
    let last: i32x4 = last.swizzle([0, 2, 4, 6]) + last.swizzle([1, 3, 5, 7]);
    (first + last).to_array()
}

/// The sums for columns 2i and 2i + 1, modulo 2 ^ 64.
#[inline(always)]
pub(crate) fn doubleword_sums(n: [i32; 4], m: &[i32], i: usize) -> [i64; 2]
    requires room { 8 * i + 8 ≤ length m.now }
    requires n_fit { AllFit w32 n }
    requires m_fit { AllFit w32 m.now }
    ensures { result ≡ doubleword_sums (dot_in_pairs 2 n m.now) (2 * i) }
{
    let [a, b, c, d] = n;
    let n = i32x4::from_array([a, b, c, d]);
    let first = i32x4::from_slice(&m[8 * i..]);
    let last = i32x4::from_slice(&m[8 * i + 4..]);
    let even: i64x2 = n.swizzle([0, 0]).cast() * first.swizzle([0, 2]).cast();
    let odd: i64x2 = n.swizzle([1, 1]).cast() * first.swizzle([1, 3]).cast();
    let first = even + odd;
    let even: i64x2 = n.swizzle([2, 2]).cast() * last.swizzle([0, 2]).cast();
    let odd: i64x2 = n.swizzle([3, 3]).cast() * last.swizzle([1, 3]).cast();
    let last = even + odd;
    (first + last).to_array()
}
