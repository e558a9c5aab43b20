//! Sums and products that are twice as wide as their sources.
ghost use Rattle.std.specs.Prelude.{◌≡◌, ◌≢◌, ◌+◌, ◌*◌, ◌%◌, ◌<◌, ◌≤◌, ◌^◌, ◌+ℤ◌, length};
ghost use Rattle.vector_elements.specs.declared.size.Size.TheVariants.{B};
ghost use Rattle.vector_elements.specs.Elements.{element_of};
ghost use Rattle.vector_elements.specs.Numbers.{bytes_in, range_of, signed_of, wrapped};
ghost use Rattle.sve_exec.specs.Widening.{half_size, source_place, source_of, signed_product, widened};
ghost use Rattle.sve_exec.specs.Widening.{vector_widening};

use crate::number::sum;
use crate::product::{long_product, product, signed_byte, signed_halfword, signed_word};
use sm_types::WideningOp;
use vector_elements::{Change, Size, change_each, element, wrapped};

/// The elements of half the size; there are none of half a byte.
#[inline(always)]
pub fn half_size(size: Size) -> Size
    ensures { result ≡ half_size size }
{
    match size {
        Size::B | Size::H => Size::B,
        Size::S => Size::H,
        Size::D => Size::S,
    }
}

/// The place of the source of element `i`: among the odd elements where `top`, else among the even ones.
#[inline(always)]
fn source_place(top: bool, i: usize) -> usize
    requires { 2 * i + 1 < 2 ^ 64 }
    ensures { result ≡ source_place top i }
{
    if top { 2 * i + 1 } else { 2 * i }
}

/// An element of half the size as a number.
#[inline(always)]
fn signed_half(size: Size, a: u64) -> i32
    requires { a < range_of (half_size size) }
    ensures { result ≡ signed_of (half_size size) a }
{
    match size {
        Size::B | Size::H => signed_byte(a),
        Size::S => signed_halfword(a),
        Size::D => signed_word(a),
    }
}

/// The sum of two signed elements of half the size.
#[inline(always)]
fn signed_sum(size: Size, a: u64, b: u64) -> u64
    requires a { a < range_of (half_size size) }
    requires b { b < range_of (half_size size) }
    ensures { result ≡ wrapped size (signed_of (half_size size) a +ℤ signed_of (half_size size) b) }
{
    wrapped(
        size,
        i64::from(signed_half(size, a)) + i64::from(signed_half(size, b)),
    )
}

/// The product of two signed elements of half the size.
#[inline(always)]
fn signed_product(size: Size, a: u64, b: u64) -> u64
    requires a { a < range_of (half_size size) }
    requires b { b < range_of (half_size size) }
    ensures value { result ≡ signed_product size a b }
    ensures fits { result < range_of size }
{
    wrapped(
        size,
        long_product(signed_half(size, a), signed_half(size, b)),
    )
}

/// The operation on two elements of half the size, and the old element.
#[inline(always)]
#[tactic(auto, unfolding(crate::specs::Widening::widened))]
fn widened(op: WideningOp, size: Size, old: u64, a: u64, b: u64) -> u64
    requires old { old < range_of size }
    requires a { a < range_of (half_size size) }
    requires b { b < range_of (half_size size) }
    ensures { result ≡ widened op size old a b }
{
    match op {
        WideningOp::Saddl => signed_sum(size, a, b),
        WideningOp::Uaddl => sum(size, a, b),
        WideningOp::Smull => signed_product(size, a, b),
        WideningOp::Umull => product(size, a, b),
        WideningOp::Smlal => sum(size, old, signed_product(size, a, b)),
        WideningOp::Umlal => sum(size, old, product(size, a, b)),
    }
}

/// An operation on the odd or the even elements of two vectors.
#[derive(Clone, Copy)]
struct Halves<'a> {
    op: WideningOp,
    top: bool,
    n: &'a [u8],
    m: &'a [u8],
}

impl<'a> Change for Halves<'a> {
    ghost can = { λ s size i. (size ≢ B) × (bytes_in size * i + bytes_in size ≤ length s.n.now)
        × (bytes_in size * i + bytes_in size ≤ length s.m.now) };

    ghost gives = { λ s size i old.
        widened s.op size old (source_of s.top size s.n.now i) (source_of s.top size s.m.now i) };

    #[inline(always)]
    fn apply(&self, size: Size, place: usize, old: u64) -> u64 {
        let a = source(self.n, self.top, size, place);
        let b = source(self.m, self.top, size, place);
        widened(self.op, size, old, a, b)
    }
}

/// The source of element `i`.
#[inline(always)]
#[tactic(auto, unfolding(crate::specs::Widening::source_of))]
fn source(n: &[u8], top: bool, size: Size, i: usize) -> u64
    requires size { size ≢ B }
    requires room { bytes_in size * i + bytes_in size ≤ length n.now }
    ensures value { result ≡ source_of top size n.now i }
    ensures fits { result < range_of (half_size size) }
{
    element(n, half_size(size), source_place(top, i))
}

/// The same as `vector_widening`, for an operation that the caller knows.
#[inline(always)]
#[tactic(auto, unfolding(crate::specs::Widening::vector_widening))]
fn known_widening(op: WideningOp, top: bool, size: Size, d: &mut [u8], n: &[u8], m: &[u8])
    requires size { size ≢ B }
    requires n { length d.old ≡ length n.now }
    requires m { length d.old ≡ length m.now }
    requires whole { length d.old % bytes_in size ≡ 0 }
    ensures { d.new ≡ vector_widening op top size d.old n.now m.now }
{
    change_each(&Halves { op, top, n, m }, size, d);
}

/// The elements of `d` become sums or products of the even elements of `n` and `m`, of half the size, or of
/// the odd ones where `top`; SMLAL and UMLAL add the product. With a loop for each operation and size.
/// Source: DDI 0487, C8.2, SADDLB to UMLALT (vectors).
pub fn vector_widening(op: WideningOp, top: bool, size: Size, d: &mut [u8], n: &[u8], m: &[u8])
    requires size { size ≢ B }
    requires n { length d.old ≡ length n.now }
    requires m { length d.old ≡ length m.now }
    requires whole { length d.old % bytes_in size ≡ 0 }
    ensures { d.new ≡ vector_widening op top size d.old n.now m.now }
{
    match op {
        WideningOp::Saddl => known_widening(WideningOp::Saddl, top, size, d, n, m),
        WideningOp::Uaddl => known_widening(WideningOp::Uaddl, top, size, d, n, m),
        WideningOp::Smull => known_widening(WideningOp::Smull, top, size, d, n, m),
        WideningOp::Umull => known_widening(WideningOp::Umull, top, size, d, n, m),
        WideningOp::Smlal => known_widening(WideningOp::Smlal, top, size, d, n, m),
        WideningOp::Umlal => known_widening(WideningOp::Umlal, top, size, d, n, m),
    }
}
