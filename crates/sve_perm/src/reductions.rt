//! Reductions of a vector to one number.
ghost use Rattle.std.specs.Prelude.{◌≡◌, ℕ, ◌+◌, ◌*◌, ◌≤◌, ◌<◌, List, [], ◌∷◌, ◌++◌, if◌then◌else◌};
ghost use Rattle.std.specs.Prelude.{length};
ghost use Rattle.vector_elements.specs.declared.size.Size.{Size as ElementSize};
ghost use Rattle.vector_elements.specs.Active.{AreActive};
ghost use Rattle.vector_elements.specs.Numbers.{range_of};
ghost use Rattle.sve_perm.specs.Active.{active_elements};
ghost use Rattle.sve_perm.specs.Reduce.{result_size, reduced};

use crate::by_place::count;
use crate::operations::{
    AllOnes, AnyOnes, Greatest, Least, OddOnes, SignedGreatest, SignedLeast, SignedSum, Sum,
};
use sm_types::ReductionOp;
use vector_elements::{Size, are_active, bit, element, expand, is_marked};

/// What some elements make together.
pub trait Reduction: Copy {
    /// Its size, for elements of a size.
    ghost wide: { Self → ElementSize → ElementSize };

    /// The number that they make.
    ghost gives: { Self → ElementSize → List ℕ → ℕ };

    /// The number of no elements.
    fn neutral(self, size: Size) -> u64
        ensures value { result ≡ gives self size [] }
        ensures fits { result < range_of (wide self size) };

    /// The number with one element more.
    fn join(self, size: Size, total: u64, x: u64) -> u64
        requires total { total < range_of (wide self size) }
        requires x { x < range_of size }
        ensures value { (xs : List ℕ) → total ≡ gives self size xs →
            result ≡ gives self size (xs ++ x ∷ []) }
        ensures fits { result < range_of (wide self size) };
}

/// One of two numbers, without a branch in the loop that asks.
#[inline(always)]
fn choose(test: bool, yes: u64, no: u64) -> u64
    ensures { result ≡ (if test then yes else no) }
{
    if test { yes } else { no }
}

/// The number with one element more, if that is active. It is made in either case, and then chosen.
#[inline(always)]
fn join_where<R: Reduction>(reduction: R, size: Size, total: u64, x: u64, active: bool) -> u64
    requires total { total < range_of (R.wide reduction size) }
    requires x { x < range_of size }
    ensures value { (xs : List ℕ) → total ≡ R.gives reduction size xs →
        result ≡ R.gives reduction size (xs ++ (if active then x ∷ [] else [])) }
    ensures fits { result < range_of (R.wide reduction size) }
{
    choose(active, reduction.join(size, total, x), total)
}

/// What the active elements of a vector make together, by a mask of the predicate.
#[inline(always)]
fn reduce_marked<R: Reduction>(reduction: R, size: Size, pg: &[u8], n: &[u8]) -> u64
    requires bits { length n.now ≡ 8 * length pg.now }
    requires small { length n.now ≤ 256 }
    ensures value { result ≡ R.gives reduction size (active_elements size pg.now n.now) }
    ensures fits { result < range_of (R.wide reduction size) }
{
    let mut mask = [0u8; 256];
    expand(pg, &mut mask);
    let mut total = reduction.neutral(size);
    for i in 0..count(size, n) {
        let x = element(n, size, i);
        total = join_where(reduction, size, total, x, is_marked(&mask, size, i));
    }
    total
}

/// What the active elements of a vector of any length make together, one after the other.
#[cold]
#[inline(never)]
fn reduce_each<R: Reduction>(reduction: R, size: Size, pg: &[u8], n: &[u8]) -> u64
    requires bits { length n.now ≡ 8 * length pg.now }
    ensures value { result ≡ R.gives reduction size (active_elements size pg.now n.now) }
    ensures fits { result < range_of (R.wide reduction size) }
{
    let width = size.bytes();
    let mut total = reduction.neutral(size);
    for i in 0..count(size, n) {
        let x = element(n, size, i);
        total = join_where(reduction, size, total, x, bit(pg, width * i));
    }
    total
}

/// What all elements of a vector make together.
#[inline(always)]
fn reduce_all<R: Reduction>(reduction: R, size: Size, pg: &[u8], n: &[u8]) -> u64
    requires active { AreActive size pg.now }
    requires bits { length n.now ≡ 8 * length pg.now }
    ensures value { result ≡ R.gives reduction size (active_elements size pg.now n.now) }
    ensures fits { result < range_of (R.wide reduction size) }
{
    let mut total = reduction.neutral(size);
    for i in 0..count(size, n) {
        let x = element(n, size, i);
        total = reduction.join(size, total, x);
    }
    total
}

/// What the active elements of a vector make together. Mostly all are active.
#[inline(always)]
fn reduce_of_size<R: Reduction>(reduction: R, size: Size, pg: &[u8], n: &[u8]) -> u64
    requires bits { length n.now ≡ 8 * length pg.now }
    requires small { length n.now ≤ 256 }
    ensures value { result ≡ R.gives reduction size (active_elements size pg.now n.now) }
    ensures fits { result < range_of (R.wide reduction size) }
{
    if are_active(pg, size) {
        reduce_all(reduction, size, pg, n)
    } else {
        reduce_marked(reduction, size, pg, n)
    }
}

/// The same for a vector of any length, with loops for each size.
#[inline]
fn reduce_by<R: Reduction>(reduction: R, size: Size, pg: &[u8], n: &[u8]) -> u64
    requires bits { length n.now ≡ 8 * length pg.now }
    ensures value { result ≡ R.gives reduction size (active_elements size pg.now n.now) }
    ensures fits { result < range_of (R.wide reduction size) }
{
    if n.len() > 256 {
        return reduce_each(reduction, size, pg, n);
    }
    match size {
        Size::B => reduce_of_size(reduction, Size::B, pg, n),
        Size::H => reduce_of_size(reduction, Size::H, pg, n),
        Size::S => reduce_of_size(reduction, Size::S, pg, n),
        Size::D => reduce_of_size(reduction, Size::D, pg, n),
    }
}

/// The operation on the active elements of `n`, as a number without a sign: of 64 bits for SADDV and UADDV,
/// else of an element's; with no active element its neutral value. A predicate has a bit for each byte of
/// `n`.
/// Source: DDI 0487, C8.2, SADDV, UADDV, SMAXV, UMAXV, SMINV, UMINV, ORV, EORV, ANDV.
#[tactic(auto, unfolding(crate::specs::Reduce::reduced))]
pub fn reduce(op: ReductionOp, size: Size, pg: &[u8], n: &[u8]) -> u64
    requires bits { length n.now ≡ 8 * length pg.now }
    ensures value { result ≡ reduced op size pg.now n.now }
    ensures fits { result < range_of (result_size op size) }
{
    match op {
        ReductionOp::Saddv => reduce_by(SignedSum, size, pg, n),
        ReductionOp::Uaddv => reduce_by(Sum, size, pg, n),
        ReductionOp::Smaxv => reduce_by(SignedGreatest, size, pg, n),
        ReductionOp::Umaxv => reduce_by(Greatest, size, pg, n),
        ReductionOp::Sminv => reduce_by(SignedLeast, size, pg, n),
        ReductionOp::Uminv => reduce_by(Least, size, pg, n),
        ReductionOp::Orv => reduce_by(AnyOnes, size, pg, n),
        ReductionOp::Eorv => reduce_by(OddOnes, size, pg, n),
        ReductionOp::Andv => reduce_by(AllOnes, size, pg, n),
    }
}
