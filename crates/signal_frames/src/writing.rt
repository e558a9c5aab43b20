//! The parts of a frame, written one after the other.
ghost use Rattle.std.specs.Prelude.{◌≡◌, ◌*◌, ◌≤◌, length};
ghost use Rattle.std.specs.List.{concat};
ghost use Rattle.signal_frames.specs.Layout.{words_bytes, doublewords_bytes, vectors_bytes, predicates_bytes};
ghost use Rattle.signal_frames.specs.Layout.{ffr_bytes};
ghost use Rattle.signal_frames.specs.Writing.{PutsPart};
ghost use Rattle.sve_vectors.specs.State.{length_of};

use byteorder::{ByteOrder, LittleEndian};
use paged_memory::Pages;
use sve_vectors::{Vectors, truths_tell_bytes};
use za_array::Za;

/// Writes bytes that may be written and whose pages are owned, and gives the address past them.
fn put(pages: &mut Pages, address: u64, bytes: &[u8]) -> u64
    ensures { PutsPart pages.old pages.new address result bytes.now }
{
    // the whole frame was found to be ready before, so that each part of it is written
    let _ = pages.write(address, bytes);
    address.wrapping_add(bytes.len() as u64)
}

/// Writes numbers of 4 bytes each.
pub(crate) fn put_words(pages: &mut Pages, address: u64, numbers: &[u32]) -> u64
    requires { length numbers.now ≤ 2 }
    ensures { PutsPart pages.old pages.new address result (words_bytes numbers.now) }
{
    let mut room = [0; 8];
    let bytes = &mut room[..4 * numbers.len()];
    LittleEndian::write_u32_into(numbers, bytes);
    put(pages, address, bytes)
}

/// Writes numbers of 8 bytes each.
pub(crate) fn put_doublewords(pages: &mut Pages, address: u64, numbers: &[u64]) -> u64
    requires { length numbers.now ≤ 31 }
    ensures { PutsPart pages.old pages.new address result (doublewords_bytes numbers.now) }
{
    let mut room = [0; 248];
    let bytes = &mut room[..8 * numbers.len()];
    LittleEndian::write_u64_into(numbers, bytes);
    put(pages, address, bytes)
}

/// Writes Z0 to Z31.
pub(crate) fn put_vectors(pages: &mut Pages, address: u64, vectors: &Vectors) -> u64
    ensures { PutsPart pages.old pages.new address result (vectors_bytes vectors.now.registers) }
{
    let _length = vectors.length();
    let mut next = address;
    for n in 0..32 {
        next = put(pages, next, vectors.z(n));
    }
    next
}

/// Writes P0 to P15.
pub(crate) fn put_predicates(pages: &mut Pages, address: u64, vectors: &Vectors) -> u64
    ensures { PutsPart pages.old pages.new address result (predicates_bytes vectors.now.registers) }
{
    let _length = vectors.length();
    let mut next = address;
    for n in 0..16 {
        let bytes = vectors.p(n);
        truths_tell_bytes(bytes);
        next = put(pages, next, bytes);
    }
    next
}

/// Writes FFR, and zeros up to 32 bytes.
pub(crate) fn put_ffr(pages: &mut Pages, address: u64, vectors: &Vectors) -> u64
    ensures { PutsPart pages.old pages.new address result
        (ffr_bytes (length_of vectors.now) vectors.now.registers) }
{
    let length = vectors.length() / 8;
    let ffr = vectors.ffr();
    truths_tell_bytes(ffr);
    let mut bytes = [0; 32];
    bytes[..length].copy_from_slice(ffr);
    put(pages, address, &bytes)
}

/// Writes the vectors of ZA.
pub(crate) fn put_array(pages: &mut Pages, address: u64, za: &Za) -> u64
    ensures { PutsPart pages.old pages.new address result (concat za.now.vectors) }
{
    let mut next = address;
    for n in 0..za.size() {
        next = put(pages, next, za.vector(n));
    }
    next
}
