//! Loads and stores of a vector of the array.
ghost use Rattle.std.specs.Prelude.{◌≡◌, ◌≢◌, ◌<◌, ◌≤◌, false, true, None, Err};
ghost use Rattle.sm_types.specs.declared.matrix.ArrayAccess.TheVariants as form;
ghost use Rattle.sve_table.specs.Ranges.{IsArrayAccess};
ghost use Rattle.sve_vectors.specs.Lengths.{vector_bytes};
ghost use Rattle.paged_memory.specs.Memory.{first_without, run_of};
ghost use Rattle.paged_memory.specs.PageTable.{KeepsOwned, Owns};
ghost use Rattle.mem_access.specs.Transfer.{Transfers, HasRoom, raised_by};
ghost use Rattle.sve_access.specs.After.{read_bytes};
ghost use Rattle.za_array.specs.Array.{with_array_vector};
ghost use Rattle.za_access.specs.Vectors.{vector_address, vector_access, vector_fault, after_vector};
ghost use Rattle.za_access.specs.Vectors.{vector_writes};
ghost use Rattle.za_access.specs.Contents.{contents_of};

use mem_access::AccessStop;
use paged_memory::Pages;
use scalar_exec::{read_x, read_x_or_sp};
use sm_types::Scalars;
use sve_access::{Run, load_fault, read_run, store_run};
use tile_ops::slice_number;
use za_array::Za;

/// The bytes in memory of a vector of `size` bytes.
#[inline]
fn vector_run(s: &Scalars, offset: u8, rn: u8, size: usize) -> Run
    requires rn { rn < 32 }
    requires small { size ≤ 256 }
    ensures address { result.address ≡ vector_address offset rn s.now size }
    ensures size { result.size ≡ size }
{
    Run {
        address: read_x_or_sp(s, rn).wrapping_add(u64::from(offset) * size as u64),
        size: size as u64,
    }
}

/// Loads a vector of the array, whose bytes can be read.
#[inline]
#[tactic(auto, using(za_array::proofs::Whole::array_whole))]
fn read_vector(pages: &Pages, address: u64, za: &mut Za, n: usize)
    requires n { n < vector_bytes za.old.svl }
    requires readable { first_without 4 pages.now.memory address (vector_bytes za.old.svl) ≡ None }
    ensures { za.new ≡
        with_array_vector za.old n (read_bytes pages.now.memory (run_of address (vector_bytes za.old.svl))) }
{
    read_run(pages, address, za.vector_mut(n));
}

/// Loads a vector of the array, if no check fails.
#[inline]
#[tactic(auto, unfolding(
// The access of a vector of the array.
crate::specs::Vectors::vector_access,
// The array and the memory after it.
crate::specs::Vectors::array_after, crate::specs::Vectors::stored),
// Where its bytes can be read.
using(sve_access::proofs::Faults::can_read_run))]
fn load_vector(
    rv: u8,
    offset: u8,
    rn: u8,
    s: &Scalars,
    za: &mut Za,
    pages: &Pages,
) -> Result<(), AccessStop>
    requires { IsArrayAccess (form.Transfer false rv offset rn) }
    ensures made { Transfers (vector_fault false offset rn s.now (vector_bytes za.old.svl) pages.now.memory)
        (after_vector false rv offset rn s.now (vector_bytes za.old.svl) za.old.vectors pages.now.memory)
        (contents_of za.old pages.now) (contents_of za.new pages.now) result }
    ensures room { result ≢ Err AccessStop.Memory }
    ensures svl { za.new.svl ≡ za.old.svl }
{
    let size = za.size();
    let run = vector_run(s, offset, rn, size);
    match load_fault(&run, rn, s, pages) {
        Some(exception) => Err(AccessStop::Raise(exception)),
        None => {
            read_vector(
                pages,
                run.address,
                za,
                slice_number(read_x(s, rv), offset, size),
            );
            Ok(())
        }
    }
}

/// Stores a vector of the array, if no check fails.
#[inline]
#[tactic(auto, unfolding(
// The access of a vector of the array.
crate::specs::Vectors::vector_access,
// The array and the memory after it.
crate::specs::Vectors::array_after, crate::specs::Vectors::stored))]
fn store_vector(
    rv: u8,
    offset: u8,
    rn: u8,
    s: &Scalars,
    za: &Za,
    pages: &mut Pages,
) -> Result<(), AccessStop>
    requires { IsArrayAccess (form.Transfer true rv offset rn) }
    ensures made { Transfers (vector_fault true offset rn s.now (vector_bytes za.now.svl) pages.old.memory)
        (after_vector true rv offset rn s.now (vector_bytes za.now.svl) za.now.vectors pages.old.memory)
        (contents_of za.now pages.old) (contents_of za.now pages.new) result }
    ensures room { HasRoom (vector_access true offset rn s.now (vector_bytes za.now.svl)) pages.old
        → result ≢ Err AccessStop.Memory }
    ensures owned { Owns raised_by (vector_writes true rv offset rn s.now (vector_bytes za.now.svl)
        za.now.vectors) pages.old pages.new result }
{
    let size = za.size();
    let run = vector_run(s, offset, rn, size);
    store_run(
        &run,
        rn,
        za.vector(slice_number(read_x(s, rv), offset, size)),
        s,
        pages,
    )
}

/// LDR and STR of a vector of the array, whose fields are those of `ArrayAccess::Transfer`: makes all checks
/// of the access, and then the access, which makes the pages that it writes owned, and no others. Any answer
/// but Ok leaves ZA and pages as they were, but that more pages may be owned after `Memory`, which comes only
/// where a store writes a page that is not owned. That PSTATE.ZA is 1 is for the caller to ask; PC stays.
/// Source: DDI 0487, C9.2, LDR (array vector), STR (array vector).
pub fn transfer_array_vector(
    store: bool,
    rv: u8,
    offset: u8,
    rn: u8,
    scalars: &Scalars,
    za: &mut Za,
    pages: &mut Pages,
) -> Result<(), AccessStop>
    requires { IsArrayAccess (form.Transfer store rv offset rn) }
    ensures made { Transfers
        (vector_fault store offset rn scalars.now (vector_bytes za.old.svl) pages.old.memory)
        (after_vector store rv offset rn scalars.now (vector_bytes za.old.svl)
        za.old.vectors pages.old.memory)
        (contents_of za.old pages.old) (contents_of za.new pages.new) result }
    ensures room { HasRoom (vector_access store offset rn scalars.now (vector_bytes za.old.svl)) pages.old
        → result ≢ Err AccessStop.Memory }
    ensures owned { Owns raised_by (vector_writes store rv offset rn scalars.now (vector_bytes za.old.svl)
        za.old.vectors) pages.old pages.new result }
    ensures kept { KeepsOwned pages.old pages.new }
    ensures svl { za.new.svl ≡ za.old.svl }
{
    if store {
        store_vector(rv, offset, rn, scalars, za, pages)
    } else {
        load_vector(rv, offset, rn, scalars, za, pages)
    }
}
