//! Copies to vectors, and operations with an immediate.
ghost use Rattle.std.specs.Prelude.{◌≡◌, ◌<◌, IsTrue};
ghost use Rattle.sve_exec.specs.Copies.{duplicated, index_from, selected};
ghost use Rattle.sve_exec.specs.Copies.{vector_add_immediate, vector_multiply_immediate};
ghost use Rattle.sve_table.specs.Ranges.{IsVectorCopy, IsIndexPart};
ghost use Rattle.vector_step.specs.Copies.{after_copy, copied_active, is_of_immediate, part_value};
ghost use Rattle.sve_vectors.specs.Registers.{vector_at, predicate_at, vector_written};
ghost use Rattle.sve_vectors.specs.State.{with_registers};
ghost use Rattle.vector_step.specs.Sizes.{element_size};

use crate::change::{VectorChange, change_vector};
use crate::size::element_size;
use scalar_exec::{read_x, read_x_or_sp};
use sm_types::{AddImmediateOp, Elem, IndexPart, Scalars, VectorCopy};
use sve_exec::{
    copy_merging, copy_zeroing, duplicate, index, select, signed_immediate, vector_add_immediate,
    vector_multiply_immediate,
};
use sve_vectors::{Vectors, read_p};
use vector_elements::{Size, wrapped};

/// The start or the step of `index`.
#[inline]
#[tactic(auto, unfolding(crate::specs::Copies::part_value))]
fn part_value(part: IndexPart, scalars: &Scalars) -> u64
    requires { IsIndexPart part }
    ensures { result ≡ part_value part scalars.now }
{
    match part {
        IndexPart::Immediate(imm) => wrapped(Size::D, i64::from(imm)),
        IndexPart::Register(r) => read_x(scalars, r),
    }
}

/// A value in each element.
#[derive(Clone, Copy)]
struct Everywhere {
    size: Elem,
    value: u64,
}

impl VectorChange for Everywhere {
    ghost can = { λ s. Unit };

    ghost gives = { λ s r d. duplicated (element_size s.size) s.value d };

    #[inline(always)]
    fn apply(&self, _vectors: &Vectors, d: &mut [u8]) {
        duplicate(element_size(self.size), self.value, d);
    }
}

/// A value in each active element; the others keep theirs where `merging`, and else become zero.
#[derive(Clone, Copy)]
struct WhereActive {
    merging: bool,
    size: Elem,
    value: u64,
    pg: u8,
}

impl VectorChange for WhereActive {
    ghost can = { λ s. s.pg < 16 };

    ghost gives = { λ s r d.
        copied_active s.merging (element_size s.size) s.value (predicate_at r s.pg) d };

    #[inline(always)]
    fn apply(&self, vectors: &Vectors, d: &mut [u8]) {
        let p = read_p(vectors, self.pg);
        if self.merging {
            copy_merging(element_size(self.size), self.value, d, p);
        } else {
            copy_zeroing(element_size(self.size), self.value, d, p);
        }
    }
}

/// A start in the first element, and a step more in each further one.
#[derive(Clone, Copy)]
struct Steps {
    size: Elem,
    start: u64,
    step: u64,
}

impl VectorChange for Steps {
    ghost can = { λ s. Unit };

    ghost gives = { λ s r d. index_from (element_size s.size) s.start s.step d };

    #[inline(always)]
    fn apply(&self, _vectors: &Vectors, d: &mut [u8]) {
        index(element_size(self.size), self.start, self.step, d);
    }
}

/// The sum with an immediate, or a difference.
#[derive(Clone, Copy)]
struct WithImmediate {
    op: AddImmediateOp,
    size: Elem,
    imm: u8,
    shifted: bool,
}

impl VectorChange for WithImmediate {
    ghost can = { λ s. Unit };

    ghost gives = { λ s r d. vector_add_immediate s.op (element_size s.size) s.imm s.shifted d };

    #[inline(always)]
    fn apply(&self, _vectors: &Vectors, d: &mut [u8]) {
        vector_add_immediate(self.op, element_size(self.size), self.imm, self.shifted, d);
    }
}

/// The product with an immediate.
#[derive(Clone, Copy)]
struct TimesImmediate {
    size: Elem,
    imm: i32,
}

impl VectorChange for TimesImmediate {
    ghost can = { λ s. Unit };

    ghost gives = { λ s r d. vector_multiply_immediate (element_size s.size) s.imm d };

    #[inline(always)]
    fn apply(&self, _vectors: &Vectors, d: &mut [u8]) {
        vector_multiply_immediate(element_size(self.size), self.imm, d);
    }
}

/// The active elements of a vector, in place of its own.
#[derive(Clone, Copy)]
struct Selected {
    size: Elem,
    pg: u8,
    n: u8,
}

impl VectorChange for Selected {
    ghost can = { λ s. (s.pg < 16) × (s.n < 32) };

    ghost gives = { λ s r d. selected (element_size s.size) (predicate_at r s.pg) (vector_at r s.n) d };

    #[inline(always)]
    fn apply(&self, vectors: &Vectors, d: &mut [u8]) {
        select(
            element_size(self.size),
            d,
            read_p(vectors, self.pg),
            vectors.z(self.n),
        );
    }
}

/// The same bytes.
#[derive(Clone, Copy)]
struct Unchanged;

impl VectorChange for Unchanged {
    ghost can = { λ s. Unit };

    ghost gives = { λ s r d. d };

    #[inline(always)]
    fn apply(&self, _vectors: &Vectors, _d: &mut [u8]) {}
}

/// Writes a value to each element of a vector.
fn copy_everywhere(vectors: &mut Vectors, size: Elem, value: u64, zd: u8)
    requires { zd < 32 }
    ensures { let r = vectors.old.registers in vectors.new ≡ with_registers vectors.old
        (vector_written r zd (duplicated (element_size size) value (vector_at r zd))) }
{
    change_vector(vectors, zd, zd, &Everywhere { size, value });
}

/// Writes a value to the active elements of a vector; the others keep theirs where `merging`, and else become
/// zero.
fn copy_active(vectors: &mut Vectors, merging: bool, size: Elem, value: u64, pg: u8, zd: u8)
    requires pg { pg < 16 }
    requires zd { zd < 32 }
    ensures { let r = vectors.old.registers in vectors.new ≡ with_registers vectors.old
        (vector_written r zd
        (copied_active merging (element_size size) value (predicate_at r pg) (vector_at r zd))) }
{
    let change = WhereActive {
        merging,
        size,
        value,
        pg,
    };
    change_vector(vectors, zd, zd, &change);
}

/// Adds an immediate to a vector, or takes one from the other.
fn add_immediate(
    vectors: &mut Vectors,
    op: AddImmediateOp,
    size: Elem,
    imm: u8,
    shifted: bool,
    zdn: u8,
)
    requires { zdn < 32 }
    ensures { let r = vectors.old.registers in vectors.new ≡ with_registers vectors.old
        (vector_written r zdn (vector_add_immediate op (element_size size) imm shifted (vector_at r zdn))) }
{
    let change = WithImmediate {
        op,
        size,
        imm,
        shifted,
    };
    change_vector(vectors, zdn, zdn, &change);
}

/// Copies of immediates, and operations with an immediate. They read no scalar register.
#[tactic(auto, unfolding(crate::specs::Copies::after_copy))]
fn exec_immediate(vectors: &mut Vectors, x: &VectorCopy)
    requires immediate { IsTrue (is_of_immediate x.now) }
    requires range { IsVectorCopy x.now }
    ensures { (s : Scalars) → vectors.new ≡ with_registers vectors.old
        (after_copy x.now s vectors.old.registers) }
{
    match *x {
        VectorCopy::Immediate {
            size,
            shifted,
            imm,
            zd,
        } => {
            let value = signed_immediate(element_size(size), imm, shifted);
            copy_everywhere(vectors, size, value, zd);
        }
        VectorCopy::PredicatedImmediate {
            size,
            pg,
            merging,
            shifted,
            imm,
            zd,
        } => {
            let value = signed_immediate(element_size(size), imm, shifted);
            copy_active(vectors, merging, size, value, pg, zd);
        }
        VectorCopy::AddImmediate {
            op,
            size,
            shifted,
            imm,
            zdn,
        } => add_immediate(vectors, op, size, imm, shifted, zdn),
        VectorCopy::MultiplyImmediate { size, imm, zdn } => {
            change_vector(vectors, zdn, zdn, &TimesImmediate { size, imm });
        }
        VectorCopy::Register { .. }
        | VectorCopy::PredicatedRegister { .. }
        | VectorCopy::Index { .. }
        | VectorCopy::Select { .. }
        | VectorCopy::Prefix { .. } => {}
    }
}

/// Copies to vectors, of registers and of immediates, and operations with an immediate.
#[tactic(auto, unfolding(crate::specs::Copies::after_copy))]
#[inline(never)]
pub fn exec_copy(scalars: &Scalars, vectors: &mut Vectors, x: &VectorCopy)
    requires { IsVectorCopy x.now }
    ensures { vectors.new ≡ with_registers vectors.old (after_copy x.now scalars.now vectors.old.registers) }
{
    match *x {
        VectorCopy::Register { size, rn, zd } => {
            copy_everywhere(vectors, size, read_x_or_sp(scalars, rn), zd);
        }
        VectorCopy::PredicatedRegister { size, pg, rn, zd } => {
            copy_active(vectors, true, size, read_x_or_sp(scalars, rn), pg, zd);
        }
        VectorCopy::Index {
            size,
            start,
            step,
            zd,
        } => {
            let start = part_value(start, scalars);
            let step = part_value(step, scalars);
            change_vector(vectors, zd, zd, &Steps { size, start, step });
        }
        VectorCopy::Select {
            size,
            zm,
            pg,
            zn,
            zd,
        } => change_vector(vectors, zm, zd, &Selected { size, pg, n: zn }),
        VectorCopy::Prefix { zn, zd } => change_vector(vectors, zn, zd, &Unchanged),
        VectorCopy::Immediate { .. }
        | VectorCopy::PredicatedImmediate { .. }
        | VectorCopy::AddImmediate { .. }
        | VectorCopy::MultiplyImmediate { .. } => exec_immediate(vectors, x),
    }
}
