//! Vectors that are changed in a copy, whatever registers are read meanwhile.
ghost use Rattle.std.specs.Prelude.{◌≡◌, ℕ, ◌<◌, ◌≤◌, List, length};
ghost use Rattle.sve_vectors.specs.Registers.{VectorRegisters, vector_at, vector_written};
ghost use Rattle.sve_vectors.specs.State.{length_of, with_registers};
ghost use Rattle.vector_step.specs.Sizes.{IsVectorLength};

use std::simd::prelude::*;
use sve_vectors::Vectors;

/// What an instruction makes of a vector.
pub trait VectorChange {
    /// Whether the registers that it reads exist, and its elements are numbers.
    ghost can: { Self → Type 0 };

    /// The bytes that it makes, by the registers and by the vector that it changes.
    ghost gives: { Self → VectorRegisters → List ℕ → List ℕ };

    /// Changes the bytes of a vector, which are a copy: the registers are as before.
    fn apply(&self, vectors: &Vectors, d: &mut [u8])
        requires can { can self.now }
        requires long { length d.old ≡ length_of vectors.now }
        requires vector { IsVectorLength (length d.old) }
        ensures { d.new ≡ gives self.now vectors.now.registers d.old };
}

/// The same as `change_vector`, by a copy that is written back.
#[cold]
#[inline(never)]
#[tactic(auto, using(sve_vectors::proofs::Whole::vector_whole, crate::proofs::Sizes::is_length))]
fn change_in_room<C: VectorChange>(vectors: &mut Vectors, n: u8, d: u8, change: &C)
    requires n { n < 32 }
    requires d { d < 32 }
    requires can { C.can change.now }
    ensures { vectors.new ≡ with_registers vectors.old (vector_written vectors.old.registers d
        (C.gives change.now vectors.old.registers (vector_at vectors.old.registers n))) }
{
    let mut room = [0u8; 256];
    let length = vectors.length();
    let bytes = &mut room[..length];
    bytes.copy_from_slice(vectors.z(n));
    change.apply(vectors, bytes);
    vectors.z_mut(d).copy_from_slice(bytes);
}

/// The same as `change_vector`, in a row that is made the register's.
#[inline(always)]
#[tactic(auto, using(crate::proofs::Sizes::is_length))]
fn change_in_row<C: VectorChange>(vectors: &mut Vectors, n: u8, d: u8, change: &C, mut row: Vec<u8>)
    requires n { n < 32 }
    requires d { d < 32 }
    requires can { C.can change.now }
    requires room { length_of vectors.old ≤ length row.items }
    ensures { vectors.new ≡ with_registers vectors.old (vector_written vectors.old.registers d
        (C.gives change.now vectors.old.registers (vector_at vectors.old.registers n))) }
{
    let length = vectors.length();
    let front = row.slice_mut(..length);
    front.copy_from_slice(vectors.z(n));
    change.apply(vectors, front);
    vectors.put_z(d, row);
}

/// The same as `change_vector`, where vectors have 16 bytes, which are copied as one.
#[inline(always)]
#[tactic(auto, using(sve_vectors::proofs::Whole::vector_whole, crate::proofs::Sizes::is_length))]
fn change_sixteen<C: VectorChange>(vectors: &mut Vectors, n: u8, d: u8, change: &C)
    requires n { n < 32 }
    requires d { d < 32 }
    requires can { C.can change.now }
    requires sixteen { length_of vectors.old ≡ 16 }
    ensures { vectors.new ≡ with_registers vectors.old (vector_written vectors.old.registers d
        (C.gives change.now vectors.old.registers (vector_at vectors.old.registers n))) }
{
    let mut room = u8x16::from_slice(vectors.z(n)).to_array();
    change.apply(vectors, room.as_mut_slice());
    u8x16::from_array(room).copy_to_slice(vectors.z_mut(d));
}

/// Changes a copy of vector `n`, and makes it vector `d`. The registers that the change reads may be `d` too.
#[inline(always)]
pub fn change_vector<C: VectorChange>(vectors: &mut Vectors, n: u8, d: u8, change: &C)
    requires n { n < 32 }
    requires d { d < 32 }
    requires can { C.can change.now }
    ensures { vectors.new ≡ with_registers vectors.old (vector_written vectors.old.registers d
        (C.gives change.now vectors.old.registers (vector_at vectors.old.registers n))) }
{
    if vectors.length() == 16 {
        change_sixteen(vectors, n, d, change);
        return;
    }
    match vectors.take_spare() {
        Some(row) => {
            if vectors.length() <= row.len() {
                change_in_row(vectors, n, d, change, row);
            } else {
                change_in_room(vectors, n, d, change);
            }
        }
        None => change_in_room(vectors, n, d, change),
    }
}
