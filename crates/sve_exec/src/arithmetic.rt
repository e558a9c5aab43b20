//! Sums and differences of two vectors.
#![tactic(auto, unfolding(
// The vector, and each of its elements.
crate::specs::Arithmetic::vector_arithmetic, crate::specs::Arithmetic::arithmetic_of))]

ghost use Rattle.std.specs.Prelude.{◌≡◌, ◌%◌, length};
ghost use Rattle.vector_elements.specs.Numbers.{bytes_in};
ghost use Rattle.sve_exec.specs.Arithmetic.{vector_arithmetic};

use crate::binary_ops::{
    Difference, SaturatingDifference, SaturatingSum, SignedSaturatingDifference,
    SignedSaturatingSum, Sum,
};
use crate::lanes::{each_by_lanes, each_of_short_by_lanes};
use sm_types::VectorArithmeticOp;
use vector_elements::Size;

/// Adds the elements of `m` to those of `d`, or subtracts them; with a loop for each operation and size.
/// Source: DDI 0487, C8.2, ADD, SUB, SQADD, UQADD, SQSUB, UQSUB (vectors, unpredicated).
pub fn vector_arithmetic(op: VectorArithmeticOp, size: Size, d: &mut [u8], m: &[u8])
    requires same { length d.old ≡ length m.now }
    requires whole { length d.old % bytes_in size ≡ 0 }
    ensures { d.new ≡ vector_arithmetic op size d.old m.now }
{
    match op {
        VectorArithmeticOp::Add => each_by_lanes(Sum, size, d, m),
        VectorArithmeticOp::Sub => each_by_lanes(Difference, size, d, m),
        VectorArithmeticOp::Sqadd => each_of_short_by_lanes(SignedSaturatingSum, size, d, m),
        VectorArithmeticOp::Uqadd => each_by_lanes(SaturatingSum, size, d, m),
        VectorArithmeticOp::Sqsub => each_of_short_by_lanes(SignedSaturatingDifference, size, d, m),
        VectorArithmeticOp::Uqsub => each_by_lanes(SaturatingDifference, size, d, m),
    }
}
