//! The elements of a source as numbers, of which those that are not active are zero.
ghost use Rattle.std.specs.Prelude.{◌≡◌, ◌+◌, ◌*◌, ◌%◌, ◌^◌, ◌<◌, ◌≤◌, ◌++◌, length, take};
ghost use Rattle.vector_elements.specs.declared.size.Size.TheVariants.{B, H};
ghost use Rattle.vector_elements.specs.Elements.{listed, each_or_zero};
ghost use Rattle.vector_elements.specs.Numbers.{bytes_in};
ghost use Rattle.outer_products.specs.OuterProducts.{number_of};
ghost use Rattle.std.specs.Int.{w16, w32};
ghost use Rattle.outer_products.specs.Sources.{negated, elements_of, pair_number, pairs_of, AllFit};

use std::simd::prelude::*;
use vector_elements::{Change, Size, change_or_zero, element};

/// Each element as it was.
#[derive(Clone, Copy)]
struct Kept;

impl Change for Kept {
    ghost can = { λ s size i. Unit };

    ghost gives = { λ s size i old. old };

    #[inline(always)]
    fn apply(&self, _size: Size, _place: usize, old: u64) -> u64 {
        old
    }
}

/// Writes the elements of a source, with zero for those that are not active.
pub(crate) fn write_active(size: Size, p: &[u8], z: &[u8], out: &mut [u8])
    requires long { length out.old ≡ length z.now }
    requires whole { length z.now % bytes_in size ≡ 0 }
    requires bits { length z.now ≡ 8 * length p.now }
    requires small { length z.now ≤ 256 }
    ensures { out.new ≡ each_or_zero (bytes_in size) p.now z.now (λ i old. old) }
{
    out.copy_from_slice(z);
    change_or_zero(&Kept, size, out, p);
}

/// A byte as a number, or its negative.
#[inline(always)]
#[tactic(auto, unfolding(crate::specs::OuterProducts::number_of, vector_elements::specs::Numbers::signed_of))]
fn byte_number(signed: bool, negative: bool, x: u64) -> i16
    requires { x < 2 ^ 8 }
    ensures { result ≡ negated negative (number_of signed B x) }
{
    let x = x as u8;
    let number = if signed {
        i16::from(x.cast_signed())
    } else {
        i16::from(x)
    };
    if negative { -number } else { number }
}

/// A halfword as a number, or its negative.
#[inline(always)]
#[tactic(auto, unfolding(crate::specs::OuterProducts::number_of, vector_elements::specs::Numbers::signed_of))]
fn halfword_number(signed: bool, negative: bool, x: u64) -> i32
    requires { x < 2 ^ 16 }
    ensures { result ≡ negated negative (number_of signed H x) }
{
    let x = x as u16;
    let number = if signed {
        i32::from(x.cast_signed())
    } else {
        i32::from(x)
    };
    if negative { -number } else { number }
}

/// Writes bytes as numbers, or their negatives.
#[inline(always)]
pub(crate) fn write_bytes(signed: bool, negative: bool, bytes: &[u8], out: &mut [i16])
    requires { length out.old ≡ length bytes.now }
    ensures value { out.new ≡ elements_of B signed negative bytes.now }
    ensures fit { AllFit w16 out.new }
{
    for i in 0..out.len() {
        out[i] = byte_number(signed, negative, element(bytes, Size::B, i));
    }
}

/// Writes halfwords as numbers, or their negatives.
#[inline(always)]
pub(crate) fn write_halfwords(signed: bool, negative: bool, bytes: &[u8], out: &mut [i32])
    requires { length bytes.now ≡ 2 * length out.old }
    ensures value { out.new ≡ elements_of H signed negative bytes.now }
    ensures fit { AllFit w32 out.new }
{
    for i in 0..out.len() {
        out[i] = halfword_number(signed, negative, element(bytes, Size::H, i));
    }
}

/// Writes the numbers of 16 bytes, which four columns have: the first two of each, and then the last two of
/// each.
#[inline(always)]
fn byte_pairs(signed: bool, bytes: &[u8], i: usize, out: &mut [i16])
    requires bytes { 16 * i + 16 ≤ length bytes.now }
    requires out { 16 * i + 16 ≤ length out.old }
    ensures { take (16 * i + 16) out.new ≡ take (16 * i) out.old
        ++ listed (λ j. pair_number 4 B signed bytes.now (16 * i + j)) 16 }
{
    let numbers = i16x16::from_array([
        byte_number(signed, false, element(bytes, Size::B, 16 * i)),
        byte_number(signed, false, element(bytes, Size::B, 16 * i + 1)),
        byte_number(signed, false, element(bytes, Size::B, 16 * i + 2)),
        byte_number(signed, false, element(bytes, Size::B, 16 * i + 3)),
        byte_number(signed, false, element(bytes, Size::B, 16 * i + 4)),
        byte_number(signed, false, element(bytes, Size::B, 16 * i + 5)),
        byte_number(signed, false, element(bytes, Size::B, 16 * i + 6)),
        byte_number(signed, false, element(bytes, Size::B, 16 * i + 7)),
        byte_number(signed, false, element(bytes, Size::B, 16 * i + 8)),
        byte_number(signed, false, element(bytes, Size::B, 16 * i + 9)),
        byte_number(signed, false, element(bytes, Size::B, 16 * i + 10)),
        byte_number(signed, false, element(bytes, Size::B, 16 * i + 11)),
        byte_number(signed, false, element(bytes, Size::B, 16 * i + 12)),
        byte_number(signed, false, element(bytes, Size::B, 16 * i + 13)),
        byte_number(signed, false, element(bytes, Size::B, 16 * i + 14)),
        byte_number(signed, false, element(bytes, Size::B, 16 * i + 15)),
    ]);
    let pairs: i16x16 = numbers.swizzle([0, 1, 4, 5, 8, 9, 12, 13, 2, 3, 6, 7, 10, 11, 14, 15]);
    pairs.copy_to_slice(&mut out[16 * i..]);
}

/// Writes the numbers of bytes in pairs, of four columns each.
#[inline(always)]
fn put_byte_pairs(signed: bool, bytes: &[u8], out: &mut [i16])
    requires same { length out.old ≡ length bytes.now }
    requires whole { length bytes.now % 16 ≡ 0 }
    ensures value { out.new ≡ pairs_of 4 B signed bytes.now }
    ensures fit { AllFit w16 out.new }
{
    for i in 0..out.len() / 16 {
        byte_pairs(signed, bytes, i, out);
    }
}

/// Writes the numbers of bytes in pairs, with a loop for those that have a sign.
pub(crate) fn write_byte_pairs(signed: bool, bytes: &[u8], out: &mut [i16])
    requires same { length out.old ≡ length bytes.now }
    requires whole { length bytes.now % 16 ≡ 0 }
    ensures value { out.new ≡ pairs_of 4 B signed bytes.now }
    ensures fit { AllFit w16 out.new }
{
    if signed {
        put_byte_pairs(true, bytes, out);
    } else {
        put_byte_pairs(false, bytes, out);
    }
}

/// Writes the numbers of 8 halfwords, which two columns have: the first two of each, and then the last two of
/// each.
#[inline(always)]
fn halfword_pairs(signed: bool, bytes: &[u8], i: usize, out: &mut [i32])
    requires bytes { 16 * i + 16 ≤ length bytes.now }
    requires out { 8 * i + 8 ≤ length out.old }
    ensures { take (8 * i + 8) out.new ≡ take (8 * i) out.old
        ++ listed (λ j. pair_number 2 H signed bytes.now (8 * i + j)) 8 }
{
    let numbers = i32x8::from_array([
        halfword_number(signed, false, element(bytes, Size::H, 8 * i)),
        halfword_number(signed, false, element(bytes, Size::H, 8 * i + 1)),
        halfword_number(signed, false, element(bytes, Size::H, 8 * i + 2)),
        halfword_number(signed, false, element(bytes, Size::H, 8 * i + 3)),
        halfword_number(signed, false, element(bytes, Size::H, 8 * i + 4)),
        halfword_number(signed, false, element(bytes, Size::H, 8 * i + 5)),
        halfword_number(signed, false, element(bytes, Size::H, 8 * i + 6)),
        halfword_number(signed, false, element(bytes, Size::H, 8 * i + 7)),
    ]);
    let pairs: i32x8 = numbers.swizzle([0, 1, 4, 5, 2, 3, 6, 7]);
    pairs.copy_to_slice(&mut out[8 * i..]);
}

/// Writes the numbers of halfwords in pairs, of two columns each.
#[inline(always)]
fn put_halfword_pairs(signed: bool, bytes: &[u8], out: &mut [i32])
    requires same { length bytes.now ≡ 2 * length out.old }
    requires whole { length bytes.now % 16 ≡ 0 }
    ensures value { out.new ≡ pairs_of 2 H signed bytes.now }
    ensures fit { AllFit w32 out.new }
{
    for i in 0..out.len() / 8 {
        halfword_pairs(signed, bytes, i, out);
    }
}

/// Writes the numbers of halfwords in pairs, with a loop for those that have a sign.
pub(crate) fn write_halfword_pairs(signed: bool, bytes: &[u8], out: &mut [i32])
    requires same { length bytes.now ≡ 2 * length out.old }
    requires whole { length bytes.now % 16 ≡ 0 }
    ensures value { out.new ≡ pairs_of 2 H signed bytes.now }
    ensures fit { AllFit w32 out.new }
{
    if signed {
        put_halfword_pairs(true, bytes, out);
    } else {
        put_halfword_pairs(false, bytes, out);
    }
}
