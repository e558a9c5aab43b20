//! Logical operations on two vectors.
#![tactic(auto, unfolding(
// The vector, and each of its elements.
crate::specs::Logical::vector_logical, crate::specs::Logical::logical_of, crate::specs::Binary::binary_of))]

ghost use Rattle.std.specs.Prelude.{◌≡◌, ◌%◌, length};
ghost use Rattle.sve_exec.specs.Logical.{vector_logical};

use crate::binary_ops::{And, AndNot, ExclusiveOr, Or};
use crate::lanes::each_by_lanes;
use sm_types::VectorLogicalOp;
use vector_elements::Size;

/// Joins the bits of `d` with those of `m`; with a loop for each operation.
/// Source: DDI 0487, C8.2, AND, ORR, EOR, BIC (vectors, unpredicated).
pub fn vector_logical(op: VectorLogicalOp, d: &mut [u8], m: &[u8])
    requires same { length d.old ≡ length m.now }
    requires whole { length d.old % 8 ≡ 0 }
    ensures { d.new ≡ vector_logical op d.old m.now }
{
    match op {
        VectorLogicalOp::And => each_by_lanes(And, Size::D, d, m),
        VectorLogicalOp::Orr => each_by_lanes(Or, Size::D, d, m),
        VectorLogicalOp::Eor => each_by_lanes(ExclusiveOr, Size::D, d, m),
        VectorLogicalOp::Bic => each_by_lanes(AndNot, Size::D, d, m),
    }
}
