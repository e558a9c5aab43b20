//! Operations on one vector under a predicate.
ghost use Rattle.std.specs.Prelude.{◌≡◌, ◌*◌, ◌%◌, ◌≤◌, length};
ghost use Rattle.vector_elements.specs.Numbers.{bytes_in};
ghost use Rattle.sve_exec.specs.Unary.{predicated_unary};

use crate::operation::active_of;
use crate::unary_ops::{
    AbsoluteValue, Byte, Halfword, Inversion, IsZero, LeadingSigns, LeadingZeros, Negation, Ones,
    SignExtendedByte, SignExtendedHalfword, SignExtendedWord, Word,
};
use sm_types::PredicatedUnaryOp;
use vector_elements::Size;

/// The active elements of `d` become what the operation gives of those of `n`; the others keep their value.
/// With a loop for each operation and size. Source: DDI 0487, C8.2, ABS to UXTW (predicated).
#[tactic(auto, unfolding(crate::specs::Unary::predicated_unary))]
pub fn predicated_unary(op: PredicatedUnaryOp, size: Size, d: &mut [u8], p: &[u8], n: &[u8])
    requires same { length d.old ≡ length n.now }
    requires whole { length d.old % bytes_in size ≡ 0 }
    requires bits { length d.old ≡ 8 * length p.now }
    requires small { length d.old ≤ 256 }
    ensures { d.new ≡ predicated_unary op size p.now d.old n.now }
{
    match op {
        PredicatedUnaryOp::Abs => active_of(AbsoluteValue, size, d, p, n),
        PredicatedUnaryOp::Neg => active_of(Negation, size, d, p, n),
        PredicatedUnaryOp::Cls => active_of(LeadingSigns, size, d, p, n),
        PredicatedUnaryOp::Clz => active_of(LeadingZeros, size, d, p, n),
        PredicatedUnaryOp::Cnt => active_of(Ones, size, d, p, n),
        PredicatedUnaryOp::Cnot => active_of(IsZero, size, d, p, n),
        PredicatedUnaryOp::Not => active_of(Inversion, size, d, p, n),
        PredicatedUnaryOp::Sxtb => active_of(SignExtendedByte, size, d, p, n),
        PredicatedUnaryOp::Uxtb => active_of(Byte, size, d, p, n),
        PredicatedUnaryOp::Sxth => active_of(SignExtendedHalfword, size, d, p, n),
        PredicatedUnaryOp::Uxth => active_of(Halfword, size, d, p, n),
        PredicatedUnaryOp::Sxtw => active_of(SignExtendedWord, size, d, p, n),
        PredicatedUnaryOp::Uxtw => active_of(Word, size, d, p, n),
    }
}
