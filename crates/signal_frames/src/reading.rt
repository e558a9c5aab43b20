//! What follows the head of a frame, read back by the offsets from its start.
ghost use Rattle.std.specs.Prelude.{◌≡◌, ℕ, ◌+◌, ◌*◌, ◌/◌, ◌-◌, ◌≤◌, List, length, map, Some, ◌==◌, false};
ghost use Rattle.std.specs.List.{range_with_len, list_all};
ghost use Rattle.paged_memory.specs.Memory.{bytes_with};
ghost use Rattle.sve_vectors.specs.Lengths.{vector_bytes, current_bytes};
ghost use Rattle.za_array.specs.Array.{zero_array};
ghost use Rattle.signal_frames.specs.Layout.{body_size};
ghost use Rattle.sve_vectors.specs.State.{length_of, with_ffr};
ghost use Rattle.signal_frames.specs.Saved.{saved_vector, saved_predicate, saved_ffr, saved_array_vector};
ghost use Rattle.signal_frames.specs.Saved.{saved_registers, saved_array, is_zero_past};
ghost use Rattle.signal_frames.specs.Reading.{StandsAt, KeepsLengths, with_vectors, with_predicates};

use paged_memory::Pages;
use sve_vectors::Vectors;
use za_array::Za;

/// Reads bytes that can be read.
fn fetch(pages: &Pages, address: u64, into: &mut [u8])
    ensures { (bytes : List ℕ) → bytes_with 4 pages.now.memory address (length into.old) ≡ Some bytes
        → into.new ≡ bytes }
{
    // all of the frame was found to be readable before
    let _ = pages.read(address, into);
}

/// Reads Z0 to Z31.
fn read_vectors(pages: &Pages, start: u64, vectors: &mut Vectors)
    ensures same { KeepsLengths vectors.old vectors.new }
    ensures value { (body : List ℕ) → StandsAt pages.now.memory start body
        → 32 * length_of vectors.old ≤ length body → vectors.new ≡ with_vectors vectors.old
        (map (saved_vector (length_of vectors.old) body) (range_with_len 0 32)) }
{
    let length = vectors.length() as u64;
    for n in 0..32 {
        let offset = u64::from(n) * length;
        fetch(pages, start.wrapping_add(offset), vectors.z_mut(n));
    }
}

/// Reads P0 to P15.
fn read_predicates(pages: &Pages, start: u64, vectors: &mut Vectors)
    ensures same { KeepsLengths vectors.old vectors.new }
    ensures value { (body : List ℕ) → StandsAt pages.now.memory start body
        → 34 * length_of vectors.old ≤ length body → vectors.new ≡ with_predicates vectors.old
        (map (saved_predicate (length_of vectors.old) body) (range_with_len 0 16)) }
{
    let length = vectors.length() as u64;
    for n in 0..16 {
        let offset = 32 * length + u64::from(n) * (length / 8);
        fetch(pages, start.wrapping_add(offset), vectors.p_mut(n));
    }
}

/// Reads FFR.
fn read_ffr(pages: &Pages, start: u64, vectors: &mut Vectors)
    ensures same { KeepsLengths vectors.old vectors.new }
    ensures value { (body : List ℕ) → StandsAt pages.now.memory start body
        → 34 * length_of vectors.old + 32 ≤ length body
        → vectors.new ≡ with_ffr vectors.old (saved_ffr (length_of vectors.old) body) }
{
    let offset = 34 * vectors.length() as u64;
    fetch(pages, start.wrapping_add(offset), vectors.ffr_mut());
}

/// Reads the vectors of ZA from a frame whose other vectors have `vector_size` bytes.
fn read_array(pages: &Pages, start: u64, vector_size: u64, za: &mut Za)
    requires { vector_size ≤ 256 }
    ensures same { za.new.svl ≡ za.old.svl }
    ensures value { (body : List ℕ) → StandsAt pages.now.memory start body
        → 34 * vector_size + 32 + vector_bytes za.old.svl * vector_bytes za.old.svl ≤ length body
        → za.new ≡ record za.old {
          vectors = map (saved_array_vector vector_size (vector_bytes za.old.svl) body)
              (range_with_len 0 (vector_bytes za.old.svl));
        } }
{
    let size = za.size();
    for n in 0..size {
        let offset = 34 * vector_size + 32 + (n * size) as u64;
        fetch(pages, start.wrapping_add(offset), za.vector_mut(n));
    }
}

/// Reads the vectors, predicates and FFR of a frame in Streaming SVE mode, or outside of it.
pub(crate) fn read_registers(pages: &Pages, start: u64, streaming: bool, vectors: &mut Vectors)
    ensures mode { vectors.new.streaming ≡ streaming }
    ensures vl { vectors.new.vl ≡ vectors.old.vl }
    ensures svl { vectors.new.svl ≡ vectors.old.svl }
    ensures value { (body : List ℕ) → StandsAt pages.now.memory start body
        → 34 * current_bytes vectors.old.vl vectors.old.svl streaming + 32 ≤ length body
        → vectors.new.registers
        ≡ saved_registers (current_bytes vectors.old.vl vectors.old.svl streaming) body }
{
    vectors.set_streaming(streaming);
    read_vectors(pages, start, vectors);
    read_predicates(pages, start, vectors);
    read_ffr(pages, start, vectors);
}

/// Reads ZA from a frame whose other vectors have `vector_size` bytes, or sets it to zero where it is off.
pub(crate) fn restore_array(pages: &Pages, start: u64, vector_size: u64, za_on: bool, za: &mut Za)
    requires { vector_size ≤ 256 }
    ensures same { za.new.svl ≡ za.old.svl }
    ensures off { za_on ≡ false → za.new ≡ zero_array za.old.svl }
    ensures value { (body : List ℕ) → StandsAt pages.now.memory start body
        → body_size vector_size (vector_bytes za.old.svl) za_on ≤ length body
        → za.new.vectors ≡ saved_array vector_size (vector_bytes za.old.svl) za_on body }
{
    if za_on {
        read_array(pages, start, vector_size, za);
    } else {
        za.clear();
    }
}

/// Tells whether all bytes are zero.
fn are_zero(bytes: &[u8]) -> bool
    ensures { result ≡ list_all (λ b. b == 0) bytes.now }
{
    bytes.iter().all(|byte| *byte == 0)
}

/// Tells whether the bytes of FFR's field past FFR are zero, in a frame whose vectors have `vector_size`
/// bytes.
#[tactic(auto, unfolding(crate::specs::Saved::is_zero_past))]
pub(crate) fn is_zero_past(pages: &Pages, start: u64, vector_size: u64) -> bool
    requires { vector_size ≤ 256 }
    ensures { (body : List ℕ) → StandsAt pages.now.memory start body → 34 * vector_size + 32 ≤ length body
        → result ≡ is_zero_past vector_size body }
{
    let ffr = vector_size / 8;
    let mut room = [0; 32];
    let rest = &mut room[ffr as usize..];
    fetch(pages, start.wrapping_add(34 * vector_size + ffr), rest);
    are_zero(rest)
}
