//! The pages of a guest thread.
ghost use Rattle.std.specs.Prelude.{◌≡◌, ◌≢◌, ℕ, ◌+◌, ◌*◌, ◌/◌, ◌%◌, ◌^◌, ◌<◌, ◌≤◌, ◌↔◌, length, slice_get};
ghost use Rattle.std.specs.Prelude.{IsSome, IfSome, IfNone, IfOk, IfErr, OnOk, OnErr, Some, None, IsTrue};
ghost use Rattle.std.specs.Prelude.{is_ok, map, count_by, All, Err, false};
ghost use Rattle.std.specs.FinMap.{get, entries, len};
ghost use Rattle.std.specs.FinSet as set;
ghost use Rattle.paged_memory.specs.Memory.{IsWhole, with_stack, with_zero_pages, no_memory, bytes_from};
ghost use Rattle.paged_memory.specs.Memory.{byte_with, bytes_with, first_without, run_of, word_at, set_bytes};
ghost use Rattle.paged_memory.specs.PageTable.{AreOwned, OwnsAlso, Owns, KeepsOwned, KeepsShared};
ghost use Rattle.paged_memory.specs.PageTable.{shared_pages, owned_count};
ghost use Rattle.paged_memory.specs.PageList.{IsPageList, HasPage, image_entry};
ghost use Rattle.paged_memory.specs.Accesses.{need_of, stopped_at, IsOfWrite};
ghost use Rattle.paged_memory.specs.Pages.{perm_of, memory_of, IsFine, AreHeld};
ghost use Rattle.paged_memory.specs.Code.{IsHeld};
ghost use Rattle.paged_memory.specs.Writes.{WritesNear};

use crate::code::Code;
use crate::hints::Hints;
use crate::image::Image;
use crate::page::{Page, add_page, find, first_lacking, run, run_near};
use crate::page_bytes::PageBytes;
use crate::page_list::{PageList, pages_of_list};
use crate::writes::{own_run, write_bytes, write_near};
use sm_types::{Access, Memory};
use std::alloc::{AllocError, Global};
use std::marker::Model;

/// The pages of a thread.
#[derive(Drop)]
pub struct Pages {
    pages: Vec<Page>,
    hints: Hints,
}

impl Model for Pages {
    ghost use Rattle.paged_memory.specs.PageTable.{PageTable, page_table_code};

    ghost Value = { PageTable };

    ghost coded = { page_table_code };

    ghost use Rattle.std.specs.Prelude.{◌≤◌, length};
    ghost use Rattle.paged_memory.specs.Pages.{table_of, IsFine};

    ghost view = { λ p. table_of p.pages.items };

    ghost invariant = { λ p. IsFine p.pages.items × (length p.pages.items ≤ 4096) };
}

/// The first byte of an access that may not be accessed so.
#[derive(Clone, Copy, Debug, PartialEq, Eq)]
pub struct Abort {
    pub address: u64,
    pub access: Access,
}

/// Why a write is not made; nothing has changed, but that more pages may be owned after `Memory`.
#[derive(Clone, Copy, Debug, PartialEq, Eq)]
pub enum WriteStop {
    /// A byte may not be written.
    Abort(Abort),
    /// There was no memory for a page that was not owned.
    Memory,
}

impl From<AllocError> for WriteStop {
    ghost use Rattle.std.specs.Prelude.{◌≡◌};
    ghost use Rattle.paged_memory.specs.declared.pages.WriteStop.TheVariants as stop;

    ghost from_gives = { λ _ given. given ≡ stop.Memory };

    fn from(_: AllocError) -> WriteStop {
        WriteStop::Memory
    }
}

/// A page as it is shown: its address in bytes, a multiple of 4096, its flags and its 4096 bytes.
#[derive(Clone, Copy)]
pub struct PageView<'a> {
    pub address: u64,
    pub flags: u8,
    pub bytes: &'a [u8],
}

/// The permission that an access needs.
fn need_of(access: Access) -> u8
    ensures { result ≡ need_of access }
{
    match access {
        Access::Read => 4,
        Access::Write => 2,
    }
}

impl Pages {
    /// The pages of an image, and the stack, all of them shared. `Memory` is want of memory.
    pub fn from_image(alloc: Global, image: &Image) -> Result<Pages, Memory>
        ensures ok { IfOk result (λ p. p.memory ≡ with_stack image.now.memory) }
        ensures few { IfOk result (λ p. len p.memory.perm ≤ 4096) }
        ensures whole { IfOk result (λ p. IsWhole p.memory) }
        ensures shared { IfOk result (λ p. owned_count p ≡ 0) }
    {
        started_from(alloc, image).map_err(|_| Memory)
    }

    /// Exactly the pages of a list. `Memory` is want of memory.
    pub fn from_pages(alloc: Global, list: &PageList) -> Result<Pages, Memory>
        requires { IsPageList list.now.items }
        ensures pages { IfOk result (λ p. entries p.memory.perm ≡ map image_entry list.now.items) }
        ensures bytes { IfOk result (λ p. All (HasPage p.memory) list.now.items) }
        ensures whole { IfOk result (λ p. IsWhole p.memory) }
    {
        listed(alloc, list).map_err(|_| Memory)
    }

    /// Reads the bytes from an address on; addresses go round at 2^64. After `Err`, `into` may hold anything.
    pub fn read(&self, address: u64, into: &mut [u8]) -> Result<(), Abort>
        ensures ok { OnOk result (bytes_with 4 self.now.memory address (length into.old) ≡ Some into.new) }
        ensures abort { IfErr result (λ e. first_without 4 self.now.memory address (length into.old)
            ≡ Some e.address) }
        ensures access { IfErr result (λ e. e.access ≡ Access.Read) }
        ensures refused { OnErr result (bytes_with 4 self.now.memory address (length into.old) ≡ None) }
    {
        match copy_out(self.pages.as_slice(), &self.hints, address, 4, into) {
            None => Ok(()),
            Some(address) => Err(Abort {
                address,
                access: Access::Read,
            }),
        }
    }

    /// Some bytes from an address on that lie in one page; `None` exactly where that page cannot be read.
    #[inline(always)]
    pub fn bytes_within(&self, address: u64, count: usize) -> Option<&[u8]>
        requires some { 0 < count }
        requires within { address % 4096 + count ≤ 4096 }
        ensures there { IfSome result (λ bytes. bytes_with 4 self.now.memory address count ≡ Some bytes.now) }
        ensures count { IfSome result (λ bytes. length bytes.now ≡ count) }
        ensures gone { IfNone result (first_without 4 self.now.memory address count ≡ Some address) }
    {
        run(self.pages.as_slice(), &self.hints, address, count, 4)
    }

    /// The word of the four bytes from an address on; `None` exactly where one of them is in no executable
    /// page.
    #[inline(always)]
    pub fn fetch(&self, pc: u64) -> Option<u32>
        ensures { result ≡ word_at self.now.memory pc }
    {
        if pc % 4096 <= 4092 {
            match run(self.pages.as_slice(), &self.hints, pc, 4, 1) {
                Some(bytes) => Some(u32::from_le_bytes([bytes[0], bytes[1], bytes[2], bytes[3]])),
                None => None,
            }
        } else {
            self.fetch_across(pc)
        }
    }

    /// The same where the page is the one that is hinted at for the address; `None` tells nothing, and another way
    /// is to be taken.
    #[inline(always)]
    pub fn bytes_near(&self, address: u64, count: usize) -> Option<&[u8]>
        requires { count ≤ 4096 }
        ensures there { IfSome result (λ bytes. bytes_with 4 self.now.memory address count ≡ Some bytes.now) }
        ensures count { IfSome result (λ bytes. length bytes.now ≡ count) }
    {
        run_near(self.pages.as_slice(), &self.hints, address, count, 4)
    }

    /// The 4096 bytes of the page of that address; `None` exactly where it cannot be executed.
    #[inline(always)]
    pub fn code(&self, base: u64) -> Option<&[u8]>
        requires { base % 4096 ≡ 0 }
        ensures there { IfSome result (λ bytes. bytes_with 1 self.now.memory base 4096 ≡ Some bytes.now) }
        ensures count { IfSome result (λ bytes. length bytes.now ≡ 4096) }
        ensures gone { IfNone result (byte_with 1 self.now.memory base ≡ None) }
    {
        run(self.pages.as_slice(), &self.hints, base, 4096, 1)
    }

    /// The bytes of the page of that address, held while the pages change, where it can be executed and is not
    /// owned. `None` tells nothing.
    #[inline(always)]
    pub fn hold_code(&self, base: u64) -> Option<Code>
        requires { base % 4096 ≡ 0 }
        ensures { IfSome result (λ code. IsHeld code base self.now) }
    {
        let pages = self.pages.as_slice();
        let i = find(pages, &self.hints, base / 4096)?;
        let page = &pages[i];
        if page.flags & 1 != 1 {
            return None;
        }
        match page.bytes.held() {
            Some(bytes) => Some(Code { bytes }),
            None => None,
        }
    }

    /// The word of four bytes that may lie in two pages.
    #[inline(never)]
    fn fetch_across(&self, pc: u64) -> Option<u32>
        ensures { result ≡ word_at self.now.memory pc }
    {
        let mut word = [0; 4];
        match copy_out(self.pages.as_slice(), &self.hints, pc, 1, &mut word) {
            None => Some(u32::from_le_bytes(word)),
            Some(_) => None,
        }
    }

    /// Tells whether all of so many bytes from an address on may be accessed so, and which is the first that
    /// may not.
    pub fn check(&self, address: u64, length: u64, access: Access) -> Result<(), Abort>
        ensures ok { OnOk result (first_without (need_of access) self.now.memory address length ≡ None) }
        ensures abort { IfErr result (λ e. first_without (need_of access) self.now.memory address length
            ≡ Some e.address) }
        ensures access { IfErr result (λ e. e.access ≡ access) }
    {
        match first_lacking(
            self.pages.as_slice(),
            &self.hints,
            address,
            length,
            need_of(access),
        ) {
            None => Ok(()),
            Some(address) => Err(Abort { address, access }),
        }
    }

    /// How many pages are owned, each of which has a copy of its own.
    pub fn own_pages(&self) -> usize
        ensures value { result ≡ owned_count self.now }
        ensures few { result ≤ len self.now.memory.perm }
    {
        own_count(self.pages.as_slice())
    }

    /// Makes the pages of so many bytes from an address on owned, and no others; after `Err` some of them may
    /// be.
    pub fn own(&mut self, address: u64, length: u64) -> Result<(), Memory>
        ensures ok { OnOk result (OwnsAlso self.old self.new (run_of address length)) }
        ensures memory { self.new.memory ≡ self.old.memory }
        ensures room { AreOwned self.old address length → IsTrue (is_ok result) }
        ensures kept { KeepsOwned self.old self.new }
        ensures count { OnOk result (owned_count self.new
            ≡ owned_count self.old + set.len (shared_pages self.old (run_of address length))) }
    {
        own_run(&mut self.pages, &self.hints, address, length).map_err(|_| Memory)
    }

    /// Writes bytes from an address on, and makes their pages owned, and no others; addresses go round at
    /// 2^64. `Abort` comes where one of them may not be written, and leaves all as it was; `Memory` where
    /// there is no memory for a page that is not owned: nothing is written, but more pages may be owned.
    #[inline(always)]
    pub fn write(&mut self, address: u64, bytes: &[u8]) -> Result<(), WriteStop>
        ensures ok { OnOk result (self.new.memory
            ≡ record self.old.memory { mem = set_bytes self.old.memory.mem address bytes.now }) }
        ensures allowed { OnOk result (first_without 2 self.old.memory address (length bytes.now) ≡ None) }
        ensures abort { IfErr result (λ e. first_without 2 self.old.memory address (length bytes.now)
            ≡ stopped_at e) }
        ensures access { IfErr result IsOfWrite }
        ensures err { OnErr result (self.new.memory ≡ self.old.memory) }
        ensures room { AreOwned self.old address (length bytes.now) → result ≢ Err WriteStop.Memory }
        ensures owned { Owns stopped_at (run_of address (length bytes.now)) self.old self.new result }
        ensures whole { IsWhole self.new.memory }
        ensures count { OnOk result (owned_count self.new
            ≡ owned_count self.old + set.len (shared_pages self.old (run_of address (length bytes.now)))) }
    {
        write_bytes(&mut self.pages, &self.hints, address, bytes)
    }

    /// Writes bytes that lie within the page that is hinted at for the address, where it may be written and is
    /// owned, and tells whether it does; no page that is not owned changes. `false` tells nothing, and another way
    /// is to be taken.
    #[inline(always)]
    pub fn write_near(&mut self, address: u64, bytes: &[u8]) -> bool
        requires some { 0 < length bytes.now }
        requires few { length bytes.now ≤ 4096 }
        ensures near { WritesNear address bytes.now self.old self.new result }
        ensures shared { KeepsShared self.old self.new }
    {
        write_near(&mut self.pages, &self.hints, address, bytes)
    }

    /// How many pages there are.
    pub fn page_count(&self) -> usize
        ensures value { result ≡ len self.now.memory.perm }
        ensures few { result ≤ 4096 }
        ensures whole { IsWhole self.now.memory }
    {
        self.pages.len()
    }

    /// The page at that place in the order of addresses, counted from 0; `None` exactly past the last page.
    pub fn page(&self, index: usize) -> Option<PageView<'_>>
        ensures there { IsSome result ↔ (index < len self.now.memory.perm) }
        ensures entry { IfSome result (λ v. slice_get (entries self.now.memory.perm) index
            ≡ Some (v.address / 4096, v.flags)) }
        ensures aligned { IfSome result (λ v. v.address % 4096 ≡ 0) }
        ensures whole { IfSome result (λ v. length v.bytes.now ≡ 4096) }
        ensures bytes { IfSome result (λ v. v.bytes.now ≡ bytes_from self.now.memory.mem v.address 4096) }
    {
        if index < self.pages.len() {
            let page = &self.pages[index];
            Some(PageView {
                address: page.number * 4096,
                flags: page.flags,
                bytes: page.bytes.as_slice(),
            })
        } else {
            None
        }
    }
}

/// Copies bytes out, run by run, or names the first that lacks the permission.
fn copy_out(pages: &[Page], hints: &Hints, address: u64, need: u8, into: &mut [u8]) -> Option<u64>
    requires { IsFine pages.now }
    ensures ok { IfNone result (bytes_with need (memory_of pages.now) address (length into.old)
        ≡ Some into.new) }
    ensures stops { IfSome result (λ _. bytes_with need (memory_of pages.now) address
        (length into.old) ≡ None) }
    ensures first { IfSome result (λ a. first_without need (memory_of pages.now) address (length into.old)
        ≡ Some a) }
{
    let mut done = 0;
    while done < into.len() {
        let at = address.wrapping_add(done as u64);
        let room = (4096 - at % 4096) as usize;
        let count = room.min(into.len() - done);
        match run(pages, hints, at, count, need) {
            Some(bytes) => into[done..done + count].copy_from_slice(bytes),
            None => return Some(at),
        }
        done += count;
    }
    None
}

/// The pages of an image, and those of the stack.
fn started_from(alloc: Global, image: &Image) -> Result<Pages, AllocError>
    ensures ok { IfOk result (λ p. p.memory ≡ with_stack image.now.memory) }
    ensures few { IfOk result (λ p. len p.memory.perm ≤ 4096) }
    ensures whole { IfOk result (λ p. IsWhole p.memory) }
    ensures shared { IfOk result (λ p. owned_count p ≡ 0) }
{
    let mut pages = image.share_pages(alloc)?;
    add_stack(alloc, &mut pages)?;
    let hints = Hints::of(alloc, pages.as_slice())?;
    Ok(Pages { pages, hints })
}

/// How many of the pages have bytes of their own.
fn own_count(pages: &[Page]) -> usize
    ensures { result ≡ count_by (λ p. p.bytes.own) pages.now }
{
    pages.iter().filter(|page| page.bytes.is_own()).count()
}

/// Adds the pages of the stack, which share one page of zeros.
fn add_stack(alloc: Global, pages: &mut Vec<Page>) -> Result<(), AllocError>
    requires fine { IsFine pages.old.items }
    requires free { (n : ℕ) → 0x7DFFFFFC0 ≤ n → n < 0x7E0000000 → get (perm_of pages.old.items) n ≡ None }
    requires shared { AreHeld false pages.old.items }
    ensures fine { IsFine pages.new.items }
    ensures memory { OnOk result (memory_of pages.new.items ≡ with_stack (memory_of pages.old.items)) }
    ensures count { OnOk result (length pages.new.items ≡ length pages.old.items + 64) }
    ensures shared { OnOk result (AreHeld false pages.new.items) }
{
    let zeros = PageBytes::shared_of(alloc, vec![in alloc; 0u8; 4096]?)?;
    for n in 0..64 {
        let page = Page {
            number: 0x7DFFFFFC0 + n,
            flags: 6,
            bytes: zeros.share(alloc)?,
        };
        add_page(pages, page)?;
    }
    Ok(())
}

/// The pages of a list.
fn listed(alloc: Global, list: &PageList) -> Result<Pages, AllocError>
    requires { IsPageList list.now.items }
    ensures pages { IfOk result (λ p. entries p.memory.perm ≡ map image_entry list.now.items) }
    ensures bytes { IfOk result (λ p. All (HasPage p.memory) list.now.items) }
    ensures whole { IfOk result (λ p. IsWhole p.memory) }
{
    let pages = pages_of_list(alloc, list)?;
    let hints = Hints::of(alloc, pages.as_slice())?;
    Ok(Pages { pages, hints })
}
