//! Registers that are read and written as a whole.
ghost use Rattle.std.specs.Prelude.{◌≡◌, ◌*◌, ◌<◌, ◌≤◌, length};
ghost use Rattle.sve_vectors.specs.Predicates.{truths_of};
ghost use Rattle.sve_vectors.specs.Registers.{predicate_at};
ghost use Rattle.sve_vectors.specs.State.{length_of, with_vector, with_predicate, with_ffr};

use crate::laws::truths_tell_bytes;
use crate::vectors::Vectors;

/// The bytes of a predicate.
#[inline]
pub fn read_p(vectors: &Vectors, n: u8) -> &[u8]
    requires { n < 16 }
    ensures value { result.now ≡ predicate_at vectors.now.registers n }
    ensures long { length_of vectors.now ≡ 8 * length result.now }
    ensures small { length result.now ≤ 32 }
    ensures some { 2 ≤ length result.now }
{
    let _length = vectors.length();
    let p = vectors.p(n);
    truths_tell_bytes(p);
    p
}

/// Writes the bytes of a vector.
#[inline]
#[tactic(auto, using(crate::proofs::Whole::vector_whole))]
pub fn write_z(vectors: &mut Vectors, n: u8, bytes: &[u8])
    requires n { n < 32 }
    requires long { length bytes.now ≡ length_of vectors.old }
    ensures { vectors.new ≡ with_vector vectors.old n bytes.now }
{
    vectors.z_mut(n).copy_from_slice(bytes);
}

/// Writes the bytes of a predicate.
#[inline]
#[tactic(auto, using(crate::proofs::Whole::predicate_whole))]
pub fn write_p(vectors: &mut Vectors, n: u8, bytes: &[u8])
    requires n { n < 16 }
    requires long { length_of vectors.old ≡ 8 * length bytes.now }
    ensures { vectors.new ≡ with_predicate vectors.old n (truths_of bytes.now) }
{
    vectors.p_mut(n).copy_from_slice(bytes);
}

/// Writes the bytes of FFR.
#[inline]
#[tactic(auto, using(crate::proofs::Whole::ffr_whole))]
pub fn write_ffr(vectors: &mut Vectors, bytes: &[u8])
    requires long { length_of vectors.old ≡ 8 * length bytes.now }
    ensures { vectors.new ≡ with_ffr vectors.old (truths_of bytes.now) }
{
    vectors.ffr_mut().copy_from_slice(bytes);
}
