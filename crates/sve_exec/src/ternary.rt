//! Logical operations on three vectors.
ghost use Rattle.std.specs.Prelude.{◌≡◌, ◌%◌, length};
ghost use Rattle.sve_exec.specs.Ternary.{ternary_of, vector_ternary};

use crate::number::invert;
use crate::operation::{Ternary, WithVectors};
use sm_types::TernaryLogicalOp;
use vector_elements::{Size, change_each};

impl Ternary for TernaryLogicalOp {
    ghost gives = { ternary_of };

    #[inline(always)]
    #[tactic(auto, unfolding(crate::specs::Ternary::ternary_of))]
    fn of_three(self, size: Size, a: u64, n: u64, m: u64) -> u64 {
        match self {
            TernaryLogicalOp::Eor3 => a ^ n ^ m,
            TernaryLogicalOp::Bcax => a ^ (n & invert(size, m)),
            TernaryLogicalOp::Bsl => (a & m) | (n & invert(size, m)),
        }
    }
}

/// The same as `vector_ternary`, for an operation that the caller knows.
#[inline(always)]
#[tactic(auto, unfolding(crate::specs::Ternary::vector_ternary))]
fn known_ternary(op: TernaryLogicalOp, d: &mut [u8], m: &[u8], k: &[u8])
    requires m { length d.old ≡ length m.now }
    requires k { length d.old ≡ length k.now }
    requires whole { length d.old % 8 ≡ 0 }
    ensures { d.new ≡ vector_ternary op d.old m.now k.now }
{
    change_each(&WithVectors { op, n: m, m: k }, Size::D, d);
}

/// Joins the bits of `d` with those of `m` and `k`; with a loop for each operation.
/// Source: DDI 0487, C8.2, EOR3, BCAX, BSL.
pub fn vector_ternary(op: TernaryLogicalOp, d: &mut [u8], m: &[u8], k: &[u8])
    requires m { length d.old ≡ length m.now }
    requires k { length d.old ≡ length k.now }
    requires whole { length d.old % 8 ≡ 0 }
    ensures { d.new ≡ vector_ternary op d.old m.now k.now }
{
    match op {
        TernaryLogicalOp::Eor3 => known_ternary(TernaryLogicalOp::Eor3, d, m, k),
        TernaryLogicalOp::Bcax => known_ternary(TernaryLogicalOp::Bcax, d, m, k),
        TernaryLogicalOp::Bsl => known_ternary(TernaryLogicalOp::Bsl, d, m, k),
    }
}
