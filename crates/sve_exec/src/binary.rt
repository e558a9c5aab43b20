//! Operations on two vectors under a predicate.
ghost use Rattle.std.specs.Prelude.{◌≡◌, ◌*◌, ◌%◌, ◌≤◌, length};
ghost use Rattle.vector_elements.specs.Numbers.{bytes_in};
ghost use Rattle.sve_exec.specs.Binary.{predicated_binary};

use crate::binary_ops::{
    AbsoluteDifference, And, AndNot, Difference, ExclusiveOr, HighProduct, Maximum, Minimum, Or,
    Product, Quotient, ReverseDifference, ShiftLeft, ShiftRight, SignedAbsoluteDifference,
    SignedHighProduct, SignedMaximum, SignedMinimum, SignedQuotient, SignedShiftRight, Sum,
};
use crate::operation::active_with;
use sm_types::PredicatedBinaryOp;
use vector_elements::Size;

/// Changes the active elements of `d` by those of `m`; the others keep their value. With a loop for each
/// operation and size. Source: DDI 0487, C8.2, ADD to LSL (vectors, predicated).
#[tactic(auto, unfolding(crate::specs::Binary::predicated_binary, crate::specs::Binary::binary_of))]
pub fn predicated_binary(op: PredicatedBinaryOp, size: Size, d: &mut [u8], p: &[u8], m: &[u8])
    requires same { length d.old ≡ length m.now }
    requires whole { length d.old % bytes_in size ≡ 0 }
    requires bits { length d.old ≡ 8 * length p.now }
    requires small { length d.old ≤ 256 }
    ensures { d.new ≡ predicated_binary op size p.now d.old m.now }
{
    match op {
        PredicatedBinaryOp::Add => active_with(Sum, size, d, p, m),
        PredicatedBinaryOp::Sub => active_with(Difference, size, d, p, m),
        PredicatedBinaryOp::Subr => active_with(ReverseDifference, size, d, p, m),
        PredicatedBinaryOp::Smax => active_with(SignedMaximum, size, d, p, m),
        PredicatedBinaryOp::Umax => active_with(Maximum, size, d, p, m),
        PredicatedBinaryOp::Smin => active_with(SignedMinimum, size, d, p, m),
        PredicatedBinaryOp::Umin => active_with(Minimum, size, d, p, m),
        PredicatedBinaryOp::Sabd => active_with(SignedAbsoluteDifference, size, d, p, m),
        PredicatedBinaryOp::Uabd => active_with(AbsoluteDifference, size, d, p, m),
        PredicatedBinaryOp::Mul => active_with(Product, size, d, p, m),
        PredicatedBinaryOp::Smulh => active_with(SignedHighProduct, size, d, p, m),
        PredicatedBinaryOp::Umulh => active_with(HighProduct, size, d, p, m),
        PredicatedBinaryOp::Sdiv => active_with(SignedQuotient, size, d, p, m),
        PredicatedBinaryOp::Udiv => active_with(Quotient, size, d, p, m),
        PredicatedBinaryOp::Orr => active_with(Or, size, d, p, m),
        PredicatedBinaryOp::Eor => active_with(ExclusiveOr, size, d, p, m),
        PredicatedBinaryOp::And => active_with(And, size, d, p, m),
        PredicatedBinaryOp::Bic => active_with(AndNot, size, d, p, m),
        PredicatedBinaryOp::Asr => active_with(SignedShiftRight, size, d, p, m),
        PredicatedBinaryOp::Lsr => active_with(ShiftRight, size, d, p, m),
        PredicatedBinaryOp::Lsl => active_with(ShiftLeft, size, d, p, m),
    }
}
