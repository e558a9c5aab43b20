//! Operations of SVE2 on vectors.
ghost use Rattle.std.specs.Prelude.{◌≡◌, ◌≢◌, ◌<◌};
ghost use Rattle.vector_elements.specs.declared.size.Size.TheVariants.{B};
ghost use Rattle.sve_exec.specs.Multiply.{vector_multiply};
ghost use Rattle.sve_exec.specs.Ternary.{vector_ternary};
ghost use Rattle.sve_exec.specs.Widening.{vector_widening};
ghost use Rattle.sve_table.specs.Ranges.{IsSve2};
ghost use Rattle.sve_vectors.specs.Registers.{vector_at};
ghost use Rattle.sve_vectors.specs.State.{with_registers};
ghost use Rattle.vector_step.specs.Vectors.{after_sve2};

use crate::change::{VectorChange, change_vector};
use crate::size::element_size;
use sm_types::{Sve2, TernaryLogicalOp, VectorMultiplyOp, WideningOp};
use sve_exec::{vector_multiply, vector_ternary, vector_widening};
use sve_vectors::Vectors;
use vector_elements::Size;

/// A half of the product with another vector.
#[derive(Clone, Copy)]
struct Multiplied {
    op: VectorMultiplyOp,
    size: Size,
    m: u8,
}

impl VectorChange for Multiplied {
    ghost can = { λ s. s.m < 32 };

    ghost gives = { λ s r d. vector_multiply s.op s.size d (vector_at r s.m) };

    #[inline(always)]
    fn apply(&self, vectors: &Vectors, d: &mut [u8]) {
        vector_multiply(self.op, self.size, d, vectors.z(self.m));
    }
}

/// A logical operation with two other vectors.
#[derive(Clone, Copy)]
struct Joined {
    op: TernaryLogicalOp,
    m: u8,
    k: u8,
}

impl VectorChange for Joined {
    ghost can = { λ s. (s.m < 32) × (s.k < 32) };

    ghost gives = { λ s r d. vector_ternary s.op d (vector_at r s.m) (vector_at r s.k) };

    #[inline(always)]
    fn apply(&self, vectors: &Vectors, d: &mut [u8]) {
        vector_ternary(self.op, d, vectors.z(self.m), vectors.z(self.k));
    }
}

/// Sums or products of the even or the odd elements of two vectors, of half the size.
#[derive(Clone, Copy)]
struct Widened {
    op: WideningOp,
    top: bool,
    size: Size,
    n: u8,
    m: u8,
}

impl VectorChange for Widened {
    ghost can = { λ s. (s.size ≢ B) × (s.n < 32) × (s.m < 32) };

    ghost gives = { λ s r d. vector_widening s.op s.top s.size d (vector_at r s.n) (vector_at r s.m) };

    #[inline(always)]
    fn apply(&self, vectors: &Vectors, d: &mut [u8]) {
        let n = vectors.z(self.n);
        vector_widening(self.op, self.top, self.size, d, n, vectors.z(self.m));
    }
}

/// Products, logical operations on three vectors, and operations with elements twice as wide.
#[tactic(auto, unfolding(crate::specs::Vectors::after_sve2), using(crate::proofs::Sizes::wider_than_byte))]
#[inline(never)]
pub fn exec_sve2(vectors: &mut Vectors, x: &Sve2)
    requires { IsSve2 x.now }
    ensures { vectors.new ≡ with_registers vectors.old (after_sve2 x.now vectors.old.registers) }
{
    match *x {
        Sve2::Multiply {
            op,
            size,
            zm,
            zn,
            zd,
        } => {
            let size = element_size(size);
            change_vector(vectors, zn, zd, &Multiplied { op, size, m: zm });
        }
        Sve2::Ternary { op, zm, zk, zdn } => {
            change_vector(vectors, zdn, zdn, &Joined { op, m: zm, k: zk });
        }
        Sve2::Widening {
            op,
            top,
            size,
            zm,
            zn,
            zd,
        } => {
            let size = element_size(size);
            let change = Widened {
                op,
                top,
                size,
                n: zn,
                m: zm,
            };
            change_vector(vectors, zd, zd, &change);
        }
    }
}
