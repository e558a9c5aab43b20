//! Writes to pages, of which each that is shared gets a copy of its own first.
ghost use Rattle.std.specs.Prelude.{◌≡◌, ◌+◌, ◌/◌, ◌%◌, ◌<◌, ◌≤◌, length, slice_get, IsSome, OnOk, OnErr};
ghost use Rattle.std.specs.Prelude.{IsTrue, is_ok, false};
ghost use Rattle.std.specs.FinMap.{get};
ghost use Rattle.std.specs.FinSet.{contains};
ghost use Rattle.std.specs.FinSet as set;
ghost use Rattle.paged_memory.specs.Memory.{run_of, set_bytes};
ghost use Rattle.paged_memory.specs.PageTable.{AreOwned, IsOwned, OwnsAlso, KeepsOwned, KeepsShared};
ghost use Rattle.paged_memory.specs.Parts.{AreMapped};
ghost use Rattle.paged_memory.specs.Writes.{Writes, WritesNear};
ghost use Rattle.paged_memory.specs.Pages.{page_at, mem_of, perm_of, own_numbers, memory_of, table_of};
ghost use Rattle.paged_memory.specs.Pages.{IsFine};

use crate::hints::Hints;
use crate::page::{Page, find, first_lacking, search};
use crate::pages::{Abort, WriteStop};
use sm_types::Access;
use std::alloc::AllocError;

/// Gives the page at that place, which is that of the number, a copy of its own where it is shared.
/// `Err` is want of memory, and leaves all as it was.
#[inline(always)]
fn own_at(pages: &mut Vec<Page>, i: usize, number: u64) -> Result<(), AllocError>
    requires fine { IsFine pages.old.items }
    requires place { i < length pages.old.items }
    requires page { page_at pages.old.items number ≡ slice_get pages.old.items i }
    ensures fine { IsFine pages.new.items }
    ensures memory { memory_of pages.new.items ≡ memory_of pages.old.items }
    ensures count { length pages.new.items ≡ length pages.old.items }
    ensures page { page_at pages.new.items number ≡ slice_get pages.new.items i }
    ensures ok { OnOk result (own_numbers pages.new.items ≡ set.insert (own_numbers pages.old.items) number) }
    ensures err { OnErr result (own_numbers pages.new.items ≡ own_numbers pages.old.items) }
    ensures room { OnErr result (contains (own_numbers pages.old.items) number ≡ false) }
{
    let alloc = *pages.allocator();
    let page = &mut pages[i];
    page.bytes.make_own(alloc)
}

/// Sets a run of bytes within the page at that place, which is that of the address and owned.
#[inline(always)]
fn set_at(pages: &mut Vec<Page>, i: usize, address: u64, bytes: &[u8])
    requires fine { IsFine pages.old.items }
    requires place { i < length pages.old.items }
    requires page { page_at pages.old.items (address / 4096) ≡ slice_get pages.old.items i }
    requires owned { IsOwned (table_of pages.old.items) (address / 4096) }
    requires fits { address % 4096 + length bytes.now ≤ 4096 }
    ensures fine { IsFine pages.new.items }
    ensures bytes { mem_of pages.new.items ≡ set_bytes (mem_of pages.old.items) address bytes.now }
    ensures flags { perm_of pages.new.items ≡ perm_of pages.old.items }
    ensures owned { own_numbers pages.new.items ≡ own_numbers pages.old.items }
{
    let page = &mut pages[i];
    page.bytes.set((address % 4096) as usize, bytes);
}

/// Sets a run of bytes within one page, which is owned.
fn put_run(pages: &mut Vec<Page>, address: u64, bytes: &[u8])
    requires fine { IsFine pages.old.items }
    requires fits { address % 4096 + length bytes.now ≤ 4096 }
    requires there { IsSome (get (perm_of pages.old.items) (address / 4096)) }
    requires owned { IsOwned (table_of pages.old.items) (address / 4096) }
    ensures fine { IsFine pages.new.items }
    ensures bytes { mem_of pages.new.items ≡ set_bytes (mem_of pages.old.items) address bytes.now }
    ensures flags { perm_of pages.new.items ≡ perm_of pages.old.items }
    ensures owned { own_numbers pages.new.items ≡ own_numbers pages.old.items }
{
    match search(pages.as_slice(), address / 4096) {
        Some(i) => set_at(pages, i, address, bytes),
        None => unreachable!(),
    }
}

/// Sets bytes from an address on, run by run, in pages that are owned; addresses go round at 2^64.
pub fn put_bytes(pages: &mut Vec<Page>, address: u64, bytes: &[u8])
    requires fine { IsFine pages.old.items }
    requires there { AreMapped (memory_of pages.old.items) address (length bytes.now) }
    requires owned { AreOwned (table_of pages.old.items) address (length bytes.now) }
    ensures fine { IsFine pages.new.items }
    ensures bytes { mem_of pages.new.items ≡ set_bytes (mem_of pages.old.items) address bytes.now }
    ensures flags { perm_of pages.new.items ≡ perm_of pages.old.items }
    ensures owned { own_numbers pages.new.items ≡ own_numbers pages.old.items }
{
    let mut done = 0;
    while done < bytes.len() {
        let at = address.wrapping_add(done as u64);
        let room = (4096 - at % 4096) as usize;
        let count = room.min(bytes.len() - done);
        put_run(pages, at, &bytes[done..done + count]);
        done += count;
    }
}

/// Makes the page of some bytes owned, where they lie within one; `Err` is want of memory.
fn own_within(
    pages: &mut Vec<Page>,
    hints: &Hints,
    address: u64,
    count: u64,
) -> Result<(), AllocError>
    requires fine { IsFine pages.old.items }
    requires some { 0 < count }
    requires fits { address % 4096 + count ≤ 4096 }
    ensures fine { IsFine pages.new.items }
    ensures memory { memory_of pages.new.items ≡ memory_of pages.old.items }
    ensures ok { OnOk result (OwnsAlso (table_of pages.old.items) (table_of pages.new.items)
        (run_of address count)) }
    ensures room { AreOwned (table_of pages.old.items) address count → IsTrue (is_ok result) }
    ensures kept { KeepsOwned (table_of pages.old.items) (table_of pages.new.items) }
{
    match find(pages.as_slice(), hints, address / 4096) {
        Some(i) => own_at(pages, i, address / 4096),
        None => Ok(()),
    }
}

/// Makes the pages of so many bytes from an address on owned, and no others; after `Err`, which is want of
/// memory, some of them may be.
pub fn own_run(
    pages: &mut Vec<Page>,
    hints: &Hints,
    address: u64,
    length: u64,
) -> Result<(), AllocError>
    requires fine { IsFine pages.old.items }
    ensures fine { IsFine pages.new.items }
    ensures memory { memory_of pages.new.items ≡ memory_of pages.old.items }
    ensures ok { OnOk result (OwnsAlso (table_of pages.old.items) (table_of pages.new.items)
        (run_of address length)) }
    ensures room { AreOwned (table_of pages.old.items) address length → IsTrue (is_ok result) }
    ensures kept { KeepsOwned (table_of pages.old.items) (table_of pages.new.items) }
{
    let mut done = 0;
    while done < length {
        let at = address.wrapping_add(done);
        let count = (4096 - at % 4096).min(length - done);
        own_within(pages, hints, at, count)?;
        done += count;
    }
    Ok(())
}

/// Writes bytes that lie within one page.
#[inline(always)]
fn write_within(
    pages: &mut Vec<Page>,
    hints: &Hints,
    address: u64,
    bytes: &[u8],
) -> Result<(), WriteStop>
    requires fine { IsFine pages.old.items }
    requires fits { address % 4096 + length bytes.now ≤ 4096 }
    ensures fine { IsFine pages.new.items }
    ensures writes { Writes address bytes.now (table_of pages.old.items) (table_of pages.new.items) result }
{
    if bytes.is_empty() {
        return Ok(());
    }
    let stop = WriteStop::Abort(Abort {
        address,
        access: Access::Write,
    });
    match find(pages.as_slice(), hints, address / 4096) {
        Some(i) => {
            if pages[i].flags & 2 != 2 {
                return Err(stop);
            }
            own_at(pages, i, address / 4096)?;
            set_at(pages, i, address, bytes);
            Ok(())
        }
        None => Err(stop),
    }
}

/// Writes bytes that lie within the page that is hinted at, where it may be written and is owned, and tells whether
/// it does.
#[inline(always)]
pub fn write_near(pages: &mut Vec<Page>, hints: &Hints, address: u64, bytes: &[u8]) -> bool
    requires fine { IsFine pages.old.items }
    requires some { 0 < length bytes.now }
    requires few { length bytes.now ≤ 4096 }
    ensures fine { IsFine pages.new.items }
    ensures near { WritesNear address bytes.now (table_of pages.old.items) (table_of pages.new.items) result }
    ensures shared { KeepsShared (table_of pages.old.items) (table_of pages.new.items) }
{
    let number = address / 4096;
    let i = hints.place(number);
    if (address % 4096) as usize + bytes.len() > 4096 || i >= pages.len() {
        return false;
    }
    let page = &pages[i];
    if page.number != number || page.flags & 2 != 2 || !page.bytes.is_own() {
        return false;
    }
    set_at(pages, i, address, bytes);
    true
}

/// Writes bytes that may lie in several pages.
#[inline(never)]
fn write_across(
    pages: &mut Vec<Page>,
    hints: &Hints,
    address: u64,
    bytes: &[u8],
) -> Result<(), WriteStop>
    requires fine { IsFine pages.old.items }
    ensures fine { IsFine pages.new.items }
    ensures writes { Writes address bytes.now (table_of pages.old.items) (table_of pages.new.items) result }
{
    let count = bytes.len() as u64;
    if let Some(address) = first_lacking(pages.as_slice(), hints, address, count, 2) {
        return Err(WriteStop::Abort(Abort {
            address,
            access: Access::Write,
        }));
    }
    own_run(pages, hints, address, count)?;
    put_bytes(pages, address, bytes);
    Ok(())
}

/// Writes bytes from an address on, as `Pages::write` says.
#[inline(always)]
pub fn write_bytes(
    pages: &mut Vec<Page>,
    hints: &Hints,
    address: u64,
    bytes: &[u8],
) -> Result<(), WriteStop>
    requires fine { IsFine pages.old.items }
    ensures fine { IsFine pages.new.items }
    ensures writes { Writes address bytes.now (table_of pages.old.items) (table_of pages.new.items) result }
{
    if bytes.len() <= (4096 - address % 4096) as usize {
        write_within(pages, hints, address, bytes)
    } else {
        write_across(pages, hints, address, bytes)
    }
}
