//! The bytes of vectors, predicates, FFR and ZA, one register after the other.
ghost use Rattle.std.specs.Prelude.{◌≡◌, ◌*◌, ◌/◌, true, if◌then◌else◌, length, IfOk};
ghost use Rattle.std.specs.List.{concat, flat_map};
ghost use Rattle.sve_vectors.specs.Lengths.{vector_bytes};
ghost use Rattle.sve_vectors.specs.Predicates.{predicate_bytes};
ghost use Rattle.sve_vectors.specs.State.{length_of};

use sm_types::Bytes;
use std::alloc::{AllocError, Global};
use sve_vectors::{Vectors, truths_tell_bytes};
use za_array::Za;

/// Z0 to Z31.
pub fn read_vectors(alloc: Global, vectors: &Vectors) -> Result<Bytes, AllocError>
    ensures value { IfOk result (λ bytes. bytes.items ≡ concat vectors.now.registers.vectors) }
    ensures size { IfOk result (λ bytes. length bytes.items ≡ 32 * length_of vectors.now) }
{
    let _length = vectors.length();
    let mut bytes = Vec::new(alloc);
    for n in 0..32 {
        bytes.extend_from_slice(vectors.z(n))?;
    }
    Ok(bytes)
}

/// P0 to P15.
pub fn read_predicates(alloc: Global, vectors: &Vectors) -> Result<Bytes, AllocError>
    ensures value { IfOk result (λ bytes.
        bytes.items ≡ flat_map predicate_bytes vectors.now.registers.predicates) }
    ensures size { IfOk result (λ bytes. length bytes.items ≡ 16 * (length_of vectors.now / 8)) }
{
    let _length = vectors.length();
    let mut bytes = Vec::new(alloc);
    for n in 0..16 {
        let predicate = vectors.p(n);
        truths_tell_bytes(predicate);
        bytes.extend_from_slice(predicate)?;
    }
    Ok(bytes)
}

/// FFR.
pub fn read_first_fault(alloc: Global, vectors: &Vectors) -> Result<Bytes, AllocError>
    ensures value { IfOk result (λ bytes. predicate_bytes vectors.now.registers.ffr ≡ bytes.items) }
    ensures size { IfOk result (λ bytes. length bytes.items ≡ length_of vectors.now / 8) }
{
    let ffr = vectors.ffr();
    truths_tell_bytes(ffr);
    Vec::from_slice(alloc, ffr)
}

/// The vectors of ZA.
fn read_rows(alloc: Global, za: &Za) -> Result<Bytes, AllocError>
    ensures value { IfOk result (λ bytes. bytes.items ≡ concat za.now.vectors) }
    ensures size { IfOk result (λ bytes.
        length bytes.items ≡ vector_bytes za.now.svl * vector_bytes za.now.svl) }
{
    let mut bytes = Vec::new(alloc);
    for n in 0..za.size() {
        bytes.extend_from_slice(za.vector(n))?;
    }
    Ok(bytes)
}

/// The vectors of ZA where it is on; else none.
pub fn read_array(alloc: Global, za: &Za, on: bool) -> Result<Bytes, AllocError>
    ensures value { IfOk result (λ bytes. on ≡ true → concat za.now.vectors ≡ bytes.items) }
    ensures size { IfOk result (λ bytes. length bytes.items
        ≡ (if on then vector_bytes za.now.svl * vector_bytes za.now.svl else 0)) }
{
    if on {
        read_rows(alloc, za)
    } else {
        Ok(Vec::new(alloc))
    }
}
