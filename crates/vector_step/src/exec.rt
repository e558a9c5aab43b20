//! The vector instructions that access neither memory nor ZA.
ghost use Rattle.std.specs.Prelude.{◌≡◌, IsTrue};
ghost use Rattle.sve_table.specs.Ranges.{IsInVectorRow};
ghost use Rattle.sve_vectors.specs.State.{length_of, with_registers};
ghost use Rattle.vector_step.specs.Core.{core_of};
ghost use Rattle.vector_step.specs.Step.{is_vector_computed, vector_step};

use crate::compare::exec_compare;
use crate::copies::exec_copy;
use crate::counts::exec_element_count;
use crate::permute::{exec_permute, exec_reduction};
use crate::predicate::exec_predicate;
use crate::predicate_count::exec_predicate_count;
use crate::sve2::exec_sve2;
use crate::vector::{
    exec_arithmetic, exec_binary, exec_logical, exec_multiply_add, exec_shift, exec_unary,
};
use sm_types::{Insn, Scalars};
use sve_vectors::Vectors;

/// Executes a vector instruction that reads and writes scalar and vector registers alone, with its fields in
/// their ranges: all registers are as it leaves them, but PC, which the caller moves. The lengths and the
/// mode of the vectors are as before.
#[tactic(auto, unfolding(crate::specs::Step::vector_step))]
pub fn exec_vector(scalars: &mut Scalars, vectors: &mut Vectors, insn: &Insn)
    requires computed { IsTrue (is_vector_computed insn.now) }
    requires ranges { IsInVectorRow insn.now }
    ensures scalars { scalars.new ≡
        (vector_step (length_of vectors.old) insn.now (core_of scalars.old vectors.old)).scalars }
    ensures vectors { vectors.new ≡ with_registers vectors.old
        (vector_step (length_of vectors.old) insn.now (core_of scalars.old vectors.old)).registers }
    ensures place { scalars.new.pc ≡ scalars.old.pc }
{
    match insn {
        Insn::VectorArithmetic(x) => exec_arithmetic(vectors, x),
        Insn::VectorLogical(x) => exec_logical(vectors, x),
        Insn::PredicatedBinary(x) => exec_binary(vectors, x),
        Insn::MultiplyAdd(x) => exec_multiply_add(vectors, x),
        Insn::PredicatedUnary(x) => exec_unary(vectors, x),
        Insn::VectorShift(x) => exec_shift(vectors, x),
        Insn::VectorCopy(x) => exec_copy(scalars, vectors, x),
        Insn::VectorPermute(x) => exec_permute(vectors, x),
        Insn::VectorReduction(x) => exec_reduction(scalars, vectors, x),
        Insn::VectorCompare(x) => exec_compare(scalars, vectors, x),
        Insn::Predicate(x) => exec_predicate(scalars, vectors, x),
        Insn::PredicateCount(x) => exec_predicate_count(scalars, vectors, x),
        Insn::ElementCount(x) => exec_element_count(scalars, vectors.length() as u64, x),
        Insn::Sve2(x) => exec_sve2(vectors, x),
        _ => {}
    }
}
