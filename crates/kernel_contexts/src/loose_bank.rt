//! The vectors, predicates, FFR and ZA of a state in plain fields.
ghost use Rattle.std.specs.Prelude.{◌≡◌, ◌<◌, ◌≤◌, ◌+◌, ◌*◌, ◌/◌, length, IfOk};
ghost use Rattle.sve_vectors.specs.Lengths.{vector_bytes};
ghost use Rattle.sve_vectors.specs.State.{length_of};
ghost use Rattle.std.specs.List.{flat_map};
ghost use Rattle.sve_vectors.specs.Predicates.{predicate_bytes};
ghost use Rattle.za_array.specs.Array.{zero_array, with_array_vector};
ghost use Rattle.kernel_contexts.specs.LooseState.{IsLooseState, loose_length, is_streaming};
ghost use Rattle.signal_frames.specs.Reading.{with_vectors, with_predicates};
ghost use Rattle.kernel_contexts.specs.LooseParts.{piece, pieces, truths_in, with_array};
ghost use Rattle.kernel_contexts.specs.LooseParts.{HasRegisters, HasArray, IsBankOf};
ghost use Rattle.machine_step.specs.System.{bit_at};

use crate::loose_state::LooseState;
use mem_access::Bank;
use sm_types::{Config, Memory};
use std::alloc::Global;
use sve_vectors::{Vectors, truths_tell_bytes, write_ffr, write_p, write_z};
use za_array::Za;

/// Piece `n` of bytes, of `size` bytes.
fn piece(bytes: &[u8], size: usize, n: usize) -> &[u8]
    requires { n * size + size ≤ length bytes.now }
    ensures value { result.now ≡ piece size bytes.now n }
    ensures long { length result.now ≡ size }
{
    let start = n * size;
    &bytes[start..start + size]
}

/// Writes Z0 to Z31.
fn put_vectors(vectors: &mut Vectors, bytes: &[u8])
    requires { length bytes.now ≡ 32 * length_of vectors.old }
    ensures { vectors.new ≡ with_vectors vectors.old (pieces (length_of vectors.old) bytes.now 32) }
{
    let size = vectors.length();
    for n in 0..32 {
        write_z(vectors, n, piece(bytes, size, usize::from(n)));
    }
}

/// Writes P0 to P15.
fn put_predicates(vectors: &mut Vectors, bytes: &[u8])
    requires { length bytes.now ≡ 16 * (length_of vectors.old / 8) }
    ensures value { vectors.new
        ≡ with_predicates vectors.old (truths_in (length_of vectors.old / 8) bytes.now 16) }
    ensures told { flat_map predicate_bytes (truths_in (length_of vectors.old / 8) bytes.now 16) ≡ bytes.now }
{
    let length = vectors.length();
    let size = length / 8;
    for n in 0..16 {
        write_p(vectors, n, piece(bytes, size, usize::from(n)));
    }
}

/// Writes vector `n` of ZA.
#[tactic(auto, using(za_array::proofs::Whole::array_whole))]
fn write_row(za: &mut Za, n: usize, bytes: &[u8])
    requires n { n < vector_bytes za.old.svl }
    requires long { length bytes.now ≡ vector_bytes za.old.svl }
    ensures { za.new ≡ with_array_vector za.old n bytes.now }
{
    za.vector_mut(n).copy_from_slice(bytes);
}

/// Writes the vectors of ZA.
fn put_array(za: &mut Za, bytes: &[u8])
    requires { length bytes.now ≡ vector_bytes za.old.svl * vector_bytes za.old.svl }
    ensures { za.new
        ≡ with_array za.old (pieces (vector_bytes za.old.svl) bytes.now (vector_bytes za.old.svl)) }
{
    let size = za.size();
    for n in 0..size {
        write_row(za, n, piece(bytes, size, n));
    }
}

/// A bit of a value.
pub(crate) fn bit(value: u64, place: u32) -> bool
    requires { place < 64 }
    ensures { result ≡ bit_at value place }
{
    (value >> place) % 2 == 1
}

/// Writes the vectors, predicates and FFR of the fields, in their mode.
fn put_registers(vectors: &mut Vectors, state: &LooseState, config: &Config)
    requires fields { IsLooseState config.now state.now }
    requires vl { vectors.old.vl ≡ config.now.vl }
    requires svl { vectors.old.svl ≡ config.now.svl }
    ensures vl { vectors.new.vl ≡ config.now.vl }
    ensures svl { vectors.new.svl ≡ config.now.svl }
    ensures mode { vectors.new.streaming ≡ is_streaming state.now }
    ensures registers { HasRegisters (loose_length config.now state.now) state.now vectors.new.registers }
{
    vectors.set_streaming(bit(state.svcr, 0));
    put_vectors(vectors, state.z.as_slice());
    put_predicates(vectors, state.p.as_slice());
    let _length = vectors.length();
    let ffr = state.ffr.as_slice();
    truths_tell_bytes(ffr);
    write_ffr(vectors, ffr);
    let _registers = vectors.length();
}

/// Writes the vectors of ZA of the fields, where it is on, to an array of zeros.
fn put_array_of(za: &mut Za, state: &LooseState, config: &Config)
    requires fields { IsLooseState config.now state.now }
    requires zero { za.old ≡ zero_array config.now.svl }
    ensures svl { za.new.svl ≡ config.now.svl }
    ensures array { HasArray state.now za.new }
{
    if bit(state.svcr, 1) {
        put_array(za, state.za.as_slice());
    }
}

/// The vectors, predicates, FFR and ZA of the fields. `Memory` is want of memory.
pub(crate) fn bank_of(alloc: Global, state: &LooseState, config: &Config) -> Result<Bank, Memory>
    requires { IsLooseState config.now state.now }
    ensures { IfOk result (IsBankOf config.now state.now) }
{
    let mut bank = Bank::new(alloc, config.vl, config.svl)?;
    put_registers(&mut bank.vectors, state, config);
    put_array_of(&mut bank.za, state, config);
    let _size = bank.za.size();
    Ok(bank)
}
