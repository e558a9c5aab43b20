//! Products of two vectors.
ghost use Rattle.std.specs.Prelude.{◌≡◌, ◌%◌, length};
ghost use Rattle.vector_elements.specs.Numbers.{bytes_in};
ghost use Rattle.sve_exec.specs.Multiply.{multiply_of, vector_multiply};

use crate::operation::{Binary, WithVector};
use crate::product::{high_product, product, signed_high_product};
use sm_types::VectorMultiplyOp;
use vector_elements::{Size, change_each};

impl Binary for VectorMultiplyOp {
    ghost gives = { multiply_of };

    #[inline(always)]
    #[tactic(auto, unfolding(crate::specs::Multiply::multiply_of))]
    fn of_two(self, size: Size, a: u64, b: u64) -> u64 {
        match self {
            VectorMultiplyOp::Mul => product(size, a, b),
            VectorMultiplyOp::Smulh => signed_high_product(size, a, b),
            VectorMultiplyOp::Umulh => high_product(size, a, b),
        }
    }
}

/// The same as `vector_multiply`, for an operation that the caller knows.
#[inline(always)]
#[tactic(auto, unfolding(crate::specs::Multiply::vector_multiply))]
fn known_multiply(op: VectorMultiplyOp, size: Size, d: &mut [u8], m: &[u8])
    requires same { length d.old ≡ length m.now }
    requires whole { length d.old % bytes_in size ≡ 0 }
    ensures { d.new ≡ vector_multiply op size d.old m.now }
{
    change_each(&WithVector { op, m }, size, d);
}

/// Multiplies the elements of `d` by those of `m`, and keeps a half of each product; with a loop for each
/// operation and size. Source: DDI 0487, C8.2, MUL (vectors, unpredicated), SMULH, UMULH (unpredicated).
pub fn vector_multiply(op: VectorMultiplyOp, size: Size, d: &mut [u8], m: &[u8])
    requires same { length d.old ≡ length m.now }
    requires whole { length d.old % bytes_in size ≡ 0 }
    ensures { d.new ≡ vector_multiply op size d.old m.now }
{
    match op {
        VectorMultiplyOp::Mul => known_multiply(VectorMultiplyOp::Mul, size, d, m),
        VectorMultiplyOp::Smulh => known_multiply(VectorMultiplyOp::Smulh, size, d, m),
        VectorMultiplyOp::Umulh => known_multiply(VectorMultiplyOp::Umulh, size, d, m),
    }
}
