//! Loads and stores of a slice of a tile.
ghost use Rattle.std.specs.Prelude.{◌≡◌, ◌≢◌, ◌*◌, ◌<◌, length, false, true, None, Err};
ghost use Rattle.std.specs.List.{find};
ghost use Rattle.sve_table.specs.Ranges.{IsTileAccess};
ghost use Rattle.sve_vectors.specs.Lengths.{vector_bytes};
ghost use Rattle.sve_vectors.specs.State.{length_of};
ghost use Rattle.paged_memory.specs.PageTable.{KeepsOwned, Owns};
ghost use Rattle.mem_access.specs.Checks.{lacks};
ghost use Rattle.mem_access.specs.Transfer.{Transfers, HasRoom, raised_by};
ghost use Rattle.sve_vectors.specs.Registers.{predicate_at};
ghost use Rattle.tile_ops.specs.Slices.{IsSliceOf, with_slice};
ghost use Rattle.za_access.specs.Contents.{contents_of};
ghost use Rattle.tile_ops.specs.Named.{element_size};
ghost use Rattle.za_access.specs.Slices.{first_address, loaded_slice};
ghost use Rattle.za_access.specs.Slices.{slice_access, slice_fault, after_slice, active_addresses};
ghost use Rattle.za_access.specs.Slices.{slice_writes};

use crate::elements::SliceElements;
use mem_access::AccessStop;
use paged_memory::Pages;
use scalar_exec::{read_x, read_x_or_sp};
use sm_types::{Scalars, TileAccess};
use sve_access::load_fault;
use sve_vectors::{Vectors, read_p};
use tile_ops::{SliceAt, element_size, read_slice, slice_of, write_slice};
use za_array::Za;

/// The address of element 0.
#[inline]
fn first_address(insn: &TileAccess, s: &Scalars) -> u64
    requires rm { insn.now.rm < 32 }
    requires rn { insn.now.rn < 32 }
    ensures { result ≡ first_address insn.now s.now }
{
    let bytes = element_size(insn.slice.size) as u64;
    read_x_or_sp(s, insn.rn).wrapping_add(read_x(s, insn.rm).wrapping_mul(bytes))
}

/// Loads a slice, whose active elements can be read; the others become zero.
#[inline]
fn load_to(slice: SliceAt, elements: &SliceElements, za: &mut Za, pages: &Pages)
    requires slice { IsSliceOf (vector_bytes za.old.svl) slice }
    requires size { slice.bytes ≡ element_size elements.now.size }
    requires bits { vector_bytes za.old.svl ≡ 8 * length elements.now.pg.now }
    requires readable { find (lacks 4 pages.now.memory)
        (active_addresses elements.now.start (element_size elements.now.size) elements.now.pg.now) ≡ None }
    ensures { za.new ≡ record za.old {
      vectors = with_slice slice
          (loaded_slice elements.now.start slice.bytes elements.now.pg.now pages.now.memory) za.old.vectors;
    } }
{
    let mut buffer = [0; 256];
    let bytes = &mut buffer[..za.size()];
    elements.load(bytes, pages);
    write_slice(za, slice, bytes);
}

/// Loads a slice, if no check fails.
#[tactic(auto, unfolding(
// The access of a slice.
crate::specs::Slices::slice_access,
// The array and the memory after it.
crate::specs::Slices::slice_array_after, crate::specs::Slices::slice_stored),
// Where its bytes can be read.
using(sve_access::proofs::Faults::can_read))]
fn load_slice(
    insn: &TileAccess,
    s: &Scalars,
    pg: &[u8],
    za: &mut Za,
    pages: &Pages,
) -> Result<(), AccessStop>
    requires insn { IsTileAccess insn.now }
    requires load { insn.now.store ≡ false }
    requires bits { vector_bytes za.old.svl ≡ 8 * length pg.now }
    ensures made { Transfers (slice_fault insn.now s.now pg.now pages.now.memory)
        (after_slice insn.now s.now pg.now (vector_bytes za.old.svl) za.old.vectors pages.now.memory)
        (contents_of za.old pages.now) (contents_of za.new pages.now) result }
    ensures room { result ≢ Err AccessStop.Memory }
    ensures svl { za.new.svl ≡ za.old.svl }
{
    let slice = slice_of(&insn.slice, s, za.size());
    let elements = SliceElements {
        start: first_address(insn, s),
        size: insn.slice.size,
        pg,
    };
    match load_fault(&elements, insn.rn, s, pages) {
        Some(exception) => Err(AccessStop::Raise(exception)),
        None => {
            load_to(slice, &elements, za, pages);
            Ok(())
        }
    }
}

/// Stores the active elements of a slice, if no check fails.
#[tactic(auto, unfolding(
// The access of a slice.
crate::specs::Slices::slice_access,
// The array and the memory after it.
crate::specs::Slices::slice_array_after, crate::specs::Slices::slice_stored))]
fn store_slice(
    insn: &TileAccess,
    s: &Scalars,
    pg: &[u8],
    za: &Za,
    pages: &mut Pages,
) -> Result<(), AccessStop>
    requires insn { IsTileAccess insn.now }
    requires store { insn.now.store ≡ true }
    requires bits { vector_bytes za.now.svl ≡ 8 * length pg.now }
    ensures made { Transfers (slice_fault insn.now s.now pg.now pages.old.memory)
        (after_slice insn.now s.now pg.now (vector_bytes za.now.svl) za.now.vectors pages.old.memory)
        (contents_of za.now pages.old) (contents_of za.now pages.new) result }
    ensures room { HasRoom (slice_access insn.now s.now pg.now) pages.old → result ≢ Err AccessStop.Memory }
    ensures owned { Owns raised_by (slice_writes insn.now s.now pg.now (vector_bytes za.now.svl)
        za.now.vectors) pages.old pages.new result }
{
    let elements = SliceElements {
        start: first_address(insn, s),
        size: insn.slice.size,
        pg,
    };
    let mut buffer = [0; 256];
    let bytes = &mut buffer[..za.size()];
    read_slice(za, slice_of(&insn.slice, s, za.size()), bytes);
    elements.store(insn.rn, bytes, s, pages)
}

/// The loads and stores of a slice of a tile: makes all checks of the access, and then the access, which
/// makes the pages that it writes owned, and no others. Any answer but Ok leaves ZA and pages as they were,
/// but that more pages may be owned after `Memory`, which comes only where a store writes a page that is not
/// owned. Inactive elements are neither checked nor stored, and are loaded as zeros. That PSTATE.SM and
/// PSTATE.ZA are 1 is for the caller to ask; PC stays.
/// Source: DDI 0487, C9.2, LD1B to LD1Q, ST1B to ST1Q (scalar plus scalar, tile slice).
pub fn transfer_slice(
    insn: &TileAccess,
    scalars: &Scalars,
    vectors: &Vectors,
    za: &mut Za,
    pages: &mut Pages,
) -> Result<(), AccessStop>
    requires insn { IsTileAccess insn.now }
    requires streaming { length_of vectors.now ≡ vector_bytes za.old.svl }
    ensures made { let pg = predicate_at vectors.now.registers insn.now.pg in
        Transfers (slice_fault insn.now scalars.now pg pages.old.memory)
        (after_slice insn.now scalars.now pg (vector_bytes za.old.svl) za.old.vectors pages.old.memory)
        (contents_of za.old pages.old) (contents_of za.new pages.new) result }
    ensures room { HasRoom (slice_access insn.now scalars.now
        (predicate_at vectors.now.registers insn.now.pg)) pages.old
        → result ≢ Err AccessStop.Memory }
    ensures owned { Owns raised_by (slice_writes insn.now scalars.now
        (predicate_at vectors.now.registers insn.now.pg) (vector_bytes za.old.svl) za.old.vectors)
        pages.old pages.new result }
    ensures kept { KeepsOwned pages.old pages.new }
    ensures svl { za.new.svl ≡ za.old.svl }
{
    let pg = read_p(vectors, insn.pg);
    if insn.store {
        store_slice(insn, scalars, pg, za, pages)
    } else {
        load_slice(insn, scalars, pg, za, pages)
    }
}
