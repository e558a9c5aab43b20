//! Operations on vectors.
ghost use Rattle.std.specs.Prelude.{◌≡◌, ◌<◌};
ghost use Rattle.sve_exec.specs.Arithmetic.{vector_arithmetic};
ghost use Rattle.sve_exec.specs.Logical.{vector_logical};
ghost use Rattle.sve_exec.specs.Binary.{predicated_binary};
ghost use Rattle.sve_exec.specs.MultiplyAdd.{multiply_add};
ghost use Rattle.sve_exec.specs.Unary.{predicated_unary};
ghost use Rattle.sve_exec.specs.Shift.{vector_shift};
ghost use Rattle.sve_table.specs.Ranges.{IsVectorArithmetic, IsVectorLogical, IsPredicatedBinary};
ghost use Rattle.sve_table.specs.Ranges.{IsMultiplyAdd, IsPredicatedUnary, IsVectorShift};
ghost use Rattle.sve_vectors.specs.Registers.{vector_at, predicate_at};
ghost use Rattle.sve_vectors.specs.State.{with_registers};
ghost use Rattle.vector_step.specs.Sizes.{element_size};
ghost use Rattle.vector_step.specs.Vectors.{after_arithmetic, after_logical, after_binary};
ghost use Rattle.vector_step.specs.Vectors.{after_multiply_add, after_unary, after_shift};

use crate::change::{VectorChange, change_vector};
use crate::size::element_size;
use sm_types::{
    MultiplyAdd, PredicatedBinary, PredicatedUnary, VectorArithmetic, VectorLogical, VectorShift,
};
use sve_exec::{
    multiply_add, predicated_binary, predicated_unary, vector_arithmetic, vector_logical,
    vector_shift,
};
use sve_vectors::{Vectors, read_p};

impl VectorChange for VectorArithmetic {
    ghost can = { λ s. s.zm < 32 };

    ghost gives = { λ s r d. vector_arithmetic s.op (element_size s.size) d (vector_at r s.zm) };

    #[inline(always)]
    fn apply(&self, vectors: &Vectors, d: &mut [u8]) {
        vector_arithmetic(self.op, element_size(self.size), d, vectors.z(self.zm));
    }
}

/// Sums and differences of two vectors.
#[tactic(auto, unfolding(crate::specs::Vectors::after_arithmetic))]
#[inline(never)]
pub fn exec_arithmetic(vectors: &mut Vectors, x: &VectorArithmetic)
    requires { IsVectorArithmetic x.now }
    ensures { vectors.new ≡ with_registers vectors.old (after_arithmetic x.now vectors.old.registers) }
{
    change_vector(vectors, x.zn, x.zd, x);
}

impl VectorChange for VectorLogical {
    ghost can = { λ s. s.zm < 32 };

    ghost gives = { λ s r d. vector_logical s.op d (vector_at r s.zm) };

    #[inline(always)]
    fn apply(&self, vectors: &Vectors, d: &mut [u8]) {
        vector_logical(self.op, d, vectors.z(self.zm));
    }
}

/// Logical operations on two vectors.
#[tactic(auto, unfolding(crate::specs::Vectors::after_logical))]
#[inline(never)]
pub fn exec_logical(vectors: &mut Vectors, x: &VectorLogical)
    requires { IsVectorLogical x.now }
    ensures { vectors.new ≡ with_registers vectors.old (after_logical x.now vectors.old.registers) }
{
    change_vector(vectors, x.zn, x.zd, x);
}

impl VectorChange for PredicatedBinary {
    ghost can = { λ s. (s.pg < 8) × (s.zm < 32) };

    ghost gives = { λ s r d.
        predicated_binary s.op (element_size s.size) (predicate_at r s.pg) d (vector_at r s.zm) };

    #[inline(always)]
    fn apply(&self, vectors: &Vectors, d: &mut [u8]) {
        let p = read_p(vectors, self.pg);
        predicated_binary(self.op, element_size(self.size), d, p, vectors.z(self.zm));
    }
}

/// Operations on two vectors under a predicate.
#[tactic(auto, unfolding(crate::specs::Vectors::after_binary))]
#[inline(never)]
pub fn exec_binary(vectors: &mut Vectors, x: &PredicatedBinary)
    requires { IsPredicatedBinary x.now }
    ensures { vectors.new ≡ with_registers vectors.old (after_binary x.now vectors.old.registers) }
{
    change_vector(vectors, x.zdn, x.zdn, x);
}

impl VectorChange for MultiplyAdd {
    ghost can = { λ s. (s.pg < 8) × (s.zn < 32) × (s.zm < 32) };

    ghost gives = { λ s r d. multiply_add s.op (element_size s.size) (predicate_at r s.pg) d
        (vector_at r s.zn) (vector_at r s.zm) };

    #[inline(always)]
    fn apply(&self, vectors: &Vectors, d: &mut [u8]) {
        let p = read_p(vectors, self.pg);
        let n = vectors.z(self.zn);
        multiply_add(
            self.op,
            element_size(self.size),
            d,
            p,
            n,
            vectors.z(self.zm),
        );
    }
}

/// Products that are added to a vector under a predicate, or subtracted.
#[tactic(auto, unfolding(crate::specs::Vectors::after_multiply_add))]
#[inline(never)]
pub fn exec_multiply_add(vectors: &mut Vectors, x: &MultiplyAdd)
    requires { IsMultiplyAdd x.now }
    ensures { vectors.new ≡ with_registers vectors.old (after_multiply_add x.now vectors.old.registers) }
{
    change_vector(vectors, x.zda, x.zda, x);
}

impl VectorChange for PredicatedUnary {
    ghost can = { λ s. (s.pg < 8) × (s.zn < 32) };

    ghost gives = { λ s r d.
        predicated_unary s.op (element_size s.size) (predicate_at r s.pg) d (vector_at r s.zn) };

    #[inline(always)]
    fn apply(&self, vectors: &Vectors, d: &mut [u8]) {
        let p = read_p(vectors, self.pg);
        predicated_unary(self.op, element_size(self.size), d, p, vectors.z(self.zn));
    }
}

/// Operations on one vector under a predicate.
#[tactic(auto, unfolding(crate::specs::Vectors::after_unary))]
#[inline(never)]
pub fn exec_unary(vectors: &mut Vectors, x: &PredicatedUnary)
    requires { IsPredicatedUnary x.now }
    ensures { vectors.new ≡ with_registers vectors.old (after_unary x.now vectors.old.registers) }
{
    change_vector(vectors, x.zd, x.zd, x);
}

impl VectorChange for VectorShift {
    ghost can = { λ s. Unit };

    ghost gives = { λ s r d. vector_shift s.op (element_size s.size) s.amount d };

    #[inline(always)]
    fn apply(&self, _vectors: &Vectors, d: &mut [u8]) {
        vector_shift(self.op, element_size(self.size), self.amount, d);
    }
}

/// Shifts of a vector by an immediate.
#[tactic(auto, unfolding(crate::specs::Vectors::after_shift))]
#[inline(never)]
pub fn exec_shift(vectors: &mut Vectors, x: &VectorShift)
    requires { IsVectorShift x.now }
    ensures { vectors.new ≡ with_registers vectors.old (after_shift x.now vectors.old.registers) }
{
    change_vector(vectors, x.zn, x.zd, x);
}
