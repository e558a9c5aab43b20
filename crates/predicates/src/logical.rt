//! Logical operations on predicates, and their test.
ghost use Rattle.std.specs.Prelude.{◌≡◌, ◌*◌, ◌≤◌, ◌<◌, Bool, length};
ghost use Rattle.vector_elements.specs.Elements.{bit_of, active_of};
ghost use Rattle.predicates.specs.Flags.{flags_of};
ghost use Rattle.predicates.specs.Logical.{logical_of, predicate_logical};

use crate::flags::result_flags;
use crate::truths::{Truth, put_truths};
use bit_ops::Nzcv;
use sm_types::PredicateLogicalOp;
use vector_elements::{Size, bit};

/// The operation at one element.
#[inline(always)]
#[tactic(auto, unfolding(crate::specs::Logical::logical_of))]
fn logical_of(op: PredicateLogicalOp, g: bool, n: bool, m: bool) -> bool
    ensures { result ≡ logical_of op g n m }
{
    match op {
        PredicateLogicalOp::And => g && n && m,
        PredicateLogicalOp::Bic => g && n && !m,
        PredicateLogicalOp::Eor => g && n != m,
        PredicateLogicalOp::Sel => if g { n } else { m },
        PredicateLogicalOp::Orr => g && (n || m),
        PredicateLogicalOp::Orn => g && (n || !m),
        PredicateLogicalOp::Nor => g && !(n || m),
        PredicateLogicalOp::Nand => g && !(n && m),
    }
}

/// What the operation gives of two predicates under a third.
#[derive(Clone, Copy)]
struct Joined<'a> {
    op: PredicateLogicalOp,
    pg: &'a [u8],
    pn: &'a [u8],
    pm: &'a [u8],
}

impl<'a> Truth for Joined<'a> {
    ghost can = { λ s size i.
        (i < 8 * length s.pg.now) × (i < 8 * length s.pn.now) × (i < 8 * length s.pm.now) };

    ghost gives = { λ s size i. logical_of s.op (bit_of s.pg.now i) (bit_of s.pn.now i) (bit_of s.pm.now i) };

    #[inline(always)]
    fn holds(&self, _size: Size, place: usize) -> bool {
        let g = bit(self.pg, place);
        let n = bit(self.pn, place);
        let m = bit(self.pm, place);
        logical_of(self.op, g, n, m)
    }
}

/// The same as `predicate_logical`, for an operation that the caller knows.
#[inline(always)]
#[tactic(auto, unfolding(crate::specs::Logical::predicate_logical))]
fn known_logical(op: PredicateLogicalOp, pd: &mut [u8], pg: &[u8], pn: &[u8], pm: &[u8])
    requires small { length pd.old ≤ 32 }
    requires g { length pg.now ≡ length pd.old }
    requires n { length pn.now ≡ length pd.old }
    requires m { length pm.now ≡ length pd.old }
    ensures { pd.new ≡ predicate_logical op (length pd.old) pg.now pn.now pm.now }
{
    put_truths(&Joined { op, pg, pn, pm }, Size::B, pd);
}

/// Joins the elements of two predicates where the governing predicate holds, and makes the others false; SEL
/// takes those of `pn` where it holds, and else those of `pm`. With a loop for each operation.
/// Source: DDI 0487, C8.2, AND, BIC, EOR, SEL, ORR, ORN, NOR, NAND (predicates).
pub fn predicate_logical(op: PredicateLogicalOp, pd: &mut [u8], pg: &[u8], pn: &[u8], pm: &[u8])
    requires small { length pd.old ≤ 32 }
    requires g { length pg.now ≡ length pd.old }
    requires n { length pn.now ≡ length pd.old }
    requires m { length pm.now ≡ length pd.old }
    ensures { pd.new ≡ predicate_logical op (length pd.old) pg.now pn.now pm.now }
{
    match op {
        PredicateLogicalOp::And => known_logical(PredicateLogicalOp::And, pd, pg, pn, pm),
        PredicateLogicalOp::Bic => known_logical(PredicateLogicalOp::Bic, pd, pg, pn, pm),
        PredicateLogicalOp::Eor => known_logical(PredicateLogicalOp::Eor, pd, pg, pn, pm),
        PredicateLogicalOp::Sel => known_logical(PredicateLogicalOp::Sel, pd, pg, pn, pm),
        PredicateLogicalOp::Orr => known_logical(PredicateLogicalOp::Orr, pd, pg, pn, pm),
        PredicateLogicalOp::Orn => known_logical(PredicateLogicalOp::Orn, pd, pg, pn, pm),
        PredicateLogicalOp::Nor => known_logical(PredicateLogicalOp::Nor, pd, pg, pn, pm),
        PredicateLogicalOp::Nand => known_logical(PredicateLogicalOp::Nand, pd, pg, pn, pm),
    }
}

/// The same with the flags of the result, governed by `pg`.
/// Source: DDI 0487, C8.2, ANDS, BICS, EORS, ORRS, ORNS, NORS, NANDS.
pub fn predicate_logical_flags(
    op: PredicateLogicalOp,
    pd: &mut [u8],
    pg: &[u8],
    pn: &[u8],
    pm: &[u8],
) -> Nzcv
    requires small { length pd.old ≤ 32 }
    requires g { length pg.now ≡ length pd.old }
    requires n { length pn.now ≡ length pd.old }
    requires m { length pm.now ≡ length pd.old }
    ensures value { pd.new ≡ predicate_logical op (length pd.old) pg.now pn.now pm.now }
    ensures flags { result ≡ flags_of (active_of 1 pg.now) (active_of 1 pd.new) }
{
    predicate_logical(op, pd, pg, pn, pm);
    result_flags(Size::B, pg, pd)
}

/// The flags of a predicate, governed by another. Source: DDI 0487, C8.2, PTEST.
pub fn predicate_test(pg: &[u8], pn: &[u8]) -> Nzcv
    requires same { length pn.now ≡ length pg.now }
    requires small { length pg.now ≤ 32 }
    ensures { result ≡ flags_of (active_of 1 pg.now) (active_of 1 pn.now) }
{
    result_flags(Size::B, pg, pn)
}
