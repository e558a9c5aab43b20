//! Permutations and reductions of vectors.
#![tactic(auto, unfolding(crate::specs::Permutes::after_permute),
// Elements that are unpacked are wider than a byte.
using(crate::proofs::Sizes::wider_than_byte))]

ghost use Rattle.std.specs.Prelude.{◌≡◌, ◌≢◌, ◌<◌};
ghost use Rattle.vector_elements.specs.declared.size.Size.TheVariants.{B};
ghost use Rattle.sve_perm.specs.Permute.{interleaved, reversed, table_of, extracted, unpacked};
ghost use Rattle.sve_table.specs.Ranges.{IsVectorPermute, IsVectorReduction};
ghost use Rattle.sve_vectors.specs.State.{length_of, with_registers};
ghost use Rattle.vector_step.specs.Permutes.{after_permute, after_reduction};
ghost use Rattle.vector_step.specs.Core.{core_of};
ghost use Rattle.sve_vectors.specs.Registers.{vector_at};
ghost use Rattle.vector_step.specs.Sizes.{element_size};

use crate::change::{VectorChange, change_vector};
use crate::size::element_size;
use scalar_exec::write_x;
use sm_types::{Elem, InterleaveOp, ReductionOp, Scalars, VectorPermute, VectorReduction};
use sve_perm::{
    extract, interleave, last_element, reduce, reverse, scalar_to_vector, table, unpack,
};
use sve_vectors::{Vectors, read_p, write_z};

/// Elements of two vectors by turns.
#[derive(Clone, Copy)]
struct Interleaved {
    op: InterleaveOp,
    size: Elem,
    zn: u8,
    zm: u8,
}

impl VectorChange for Interleaved {
    ghost can = { λ s. (s.zn < 32) × (s.zm < 32) };

    ghost gives = { λ s r d. interleaved s.op (element_size s.size) (vector_at r s.zn) (vector_at r s.zm) };

    #[inline(always)]
    fn apply(&self, vectors: &Vectors, d: &mut [u8]) {
        let n = vectors.z(self.zn);
        interleave(self.op, element_size(self.size), d, n, vectors.z(self.zm));
    }
}

/// The elements of a vector from the last to the first.
#[derive(Clone, Copy)]
struct Reversed {
    size: Elem,
    zn: u8,
}

impl VectorChange for Reversed {
    ghost can = { λ s. s.zn < 32 };

    ghost gives = { λ s r d. reversed (element_size s.size) (vector_at r s.zn) };

    #[inline(always)]
    fn apply(&self, vectors: &Vectors, d: &mut [u8]) {
        reverse(element_size(self.size), d, vectors.z(self.zn));
    }
}

/// The elements of a vector at the indices in another.
#[derive(Clone, Copy)]
struct LookedUp {
    size: Elem,
    zn: u8,
    zm: u8,
}

impl VectorChange for LookedUp {
    ghost can = { λ s. (s.zn < 32) × (s.zm < 32) };

    ghost gives = { λ s r d. table_of (element_size s.size) (vector_at r s.zn) (vector_at r s.zm) };

    #[inline(always)]
    fn apply(&self, vectors: &Vectors, d: &mut [u8]) {
        let n = vectors.z(self.zn);
        table(element_size(self.size), d, n, vectors.z(self.zm));
    }
}

/// The bytes of two vectors from a place on.
#[derive(Clone, Copy)]
struct Extracted {
    amount: u8,
    zdn: u8,
    zm: u8,
}

impl VectorChange for Extracted {
    ghost can = { λ s. (s.zdn < 32) × (s.zm < 32) };

    ghost gives = { λ s r d. extracted s.amount (vector_at r s.zdn) (vector_at r s.zm) };

    #[inline(always)]
    fn apply(&self, vectors: &Vectors, d: &mut [u8]) {
        let n = vectors.z(self.zdn);
        extract(self.amount, d, n, vectors.z(self.zm));
    }
}

/// The elements of half the size in a half of a vector.
#[derive(Clone, Copy)]
struct Unpacked {
    signed: bool,
    high: bool,
    size: Elem,
    zn: u8,
}

impl VectorChange for Unpacked {
    ghost can = { λ s. (element_size s.size ≢ B) × (s.zn < 32) };

    ghost gives = { λ s r d. unpacked s.signed s.high (element_size s.size) (vector_at r s.zn) };

    #[inline(always)]
    fn apply(&self, vectors: &Vectors, d: &mut [u8]) {
        let n = vectors.z(self.zn);
        unpack(self.signed, self.high, element_size(self.size), d, n);
    }
}

/// Moves the elements of vectors.
#[inline(never)]
pub fn exec_permute(vectors: &mut Vectors, x: &VectorPermute)
    requires { IsVectorPermute x.now }
    ensures { vectors.new ≡ with_registers vectors.old (after_permute x.now vectors.old.registers) }
{
    match *x {
        VectorPermute::Interleave {
            op,
            size,
            zm,
            zn,
            zd,
        } => change_vector(vectors, zd, zd, &Interleaved { op, size, zn, zm }),
        VectorPermute::Reverse { size, zn, zd } => {
            change_vector(vectors, zd, zd, &Reversed { size, zn });
        }
        VectorPermute::Table { size, zm, zn, zd } => {
            change_vector(vectors, zd, zd, &LookedUp { size, zn, zm });
        }
        VectorPermute::Extract { amount, zm, zdn } => {
            change_vector(vectors, zdn, zdn, &Extracted { amount, zdn, zm });
        }
        VectorPermute::Unpack {
            signed,
            high,
            size,
            zn,
            zd,
        } => {
            let change = Unpacked {
                signed,
                high,
                size,
                zn,
            };
            change_vector(vectors, zd, zd, &change);
        }
    }
}

/// Writes the last active element to a general register, or a reduction to a vector.
#[tactic(auto, unfolding(crate::specs::Permutes::after_reduction), using(crate::proofs::Sizes::is_length))]
#[inline(never)]
pub fn exec_reduction(scalars: &mut Scalars, vectors: &mut Vectors, x: &VectorReduction)
    requires { IsVectorReduction x.now }
    ensures scalars { scalars.new ≡
        (after_reduction (length_of vectors.old) x.now (core_of scalars.old vectors.old)).scalars }
    ensures vectors { vectors.new ≡ with_registers vectors.old
        (after_reduction (length_of vectors.old) x.now (core_of scalars.old vectors.old)).registers }
    ensures place { scalars.new.pc ≡ scalars.old.pc }
{
    match *x {
        VectorReduction::Last {
            active,
            size,
            pg,
            zn,
            rd,
        } => {
            let p = read_p(vectors, pg);
            let value = last_element(active, element_size(size), p, vectors.z(zn));
            write_x(scalars, rd, value);
        }
        VectorReduction::Reduce {
            op,
            size,
            pg,
            zn,
            vd,
        } => {
            let p = read_p(vectors, pg);
            let value = reduce(op, element_size(size), p, vectors.z(zn));
            let mut room = [0u8; 256];
            let length = vectors.length();
            let d = &mut room[..length];
            scalar_to_vector(value, d);
            write_z(vectors, vd, d);
        }
    }
}
