//! The image of a program.
ghost use Rattle.std.specs.Prelude.{◌==◌, cond, All, ◌≡◌, ℕ, ◌+◌, ◌-◌, ◌*◌, ◌/◌, ◌%◌, ◌^◌, ◌<◌, ◌≤◌, length};
ghost use Rattle.std.specs.Prelude.{map, IfOk, OnOk, IsSome, Some, None, true, false};
ghost use Rattle.std.specs.FinMap.{get};
ghost use Rattle.paged_memory.specs.Memory.{IsWhole};
ghost use Rattle.paged_memory.specs.Image.{IsMemoryOf, IsImage, extent_of, union, part_flags, image_flags};
ghost use Rattle.paged_memory.specs.Parts.{ArePlaced, IsZero};
ghost use Rattle.paged_memory.specs.Pages.{perm_of, memory_of, IsFine, AreHeld};

use crate::page::{Page, add_page, search, share_pages};
use crate::page_bytes::PageBytes;
use crate::writes::put_bytes;
use sm_types::Memory;
use std::alloc::{AllocError, Global};
use std::marker::Model;
use std::sync::Arc;

/// Bytes at an address, with zeros after them up to a size. Flags are a sum of execute 1, write 2 and read 4.
#[derive(Clone, Copy)]
pub struct Part<'a> {
    pub address: u64,
    pub size: u64,
    pub flags: u8,
    pub bytes: &'a [u8],
}

/// A program: its memory, its entry, and its code words with their addresses. The bytes of its pages and the
/// code words are shared by its copies and by the threads that start from it.
#[derive(Drop)]
pub struct Image {
    pages: Vec<Page>,
    entry: u64,
    code: Arc<Vec<(u64, u32)>>,
}

impl Model for Image {
    ghost use Rattle.paged_memory.specs.Image.{Program, program_code, IsImage};

    ghost Value = { Program };

    ghost coded = { program_code };

    ghost use Rattle.std.specs.Arc.{arc_value};
    ghost use Rattle.paged_memory.specs.Pages.{memory_of, program_of, IsFine};

    ghost view = { λ i. program_of i.pages.items i.entry (arc_value i.code).items };

    ghost invariant = { λ i. IsFine i.pages.items × IsImage (program_of i.pages.items i.entry
        (arc_value i.code).items) };
}

impl Image {
    /// The image of parts, which may lie in any order. `Memory` is want of memory.
    pub fn new(
        alloc: Global,
        parts: &[Part<'_>],
        entry: u64,
        code: &[(u64, u32)],
    ) -> Result<Image, Memory>
        requires { ArePlaced (map extent_of parts.now) }
        ensures memory { IfOk result (λ i. IsMemoryOf (map extent_of parts.now) i.memory) }
        ensures entry { IfOk result (λ i. i.entry ≡ entry) }
        ensures code { IfOk result (λ i. i.code ≡ code.now) }
        ensures whole { IfOk result (λ i. IsWhole i.memory) }
    {
        made_of(alloc, parts, entry, code).map_err(|_| Memory)
    }

    /// The same image again, by a table of the same pages. `Memory` is want of memory.
    pub fn copy(&self, alloc: Global) -> Result<Image, Memory>
        ensures { IfOk result (λ i. i ≡ self.now) }
    {
        self.shared_again(alloc).map_err(|_| Memory)
    }

    /// The same image again.
    fn shared_again(&self, alloc: Global) -> Result<Image, AllocError>
        ensures { IfOk result (λ i. i ≡ self.now) }
    {
        Ok(Image {
            pages: share_pages(alloc, self.pages.as_slice())?,
            entry: self.entry,
            code: Arc::try_clone(&self.code)?,
        })
    }

    /// The address of the first instruction.
    pub fn entry(&self) -> u64
        ensures { result ≡ self.now.entry }
    {
        self.entry
    }

    /// The code words, each with its address.
    pub fn code(&self) -> &[(u64, u32)]
        ensures { result.now ≡ self.now.code }
    {
        self.code.as_slice()
    }

    /// The pages, whose bytes are shared.
    pub(crate) fn share_pages(&self, alloc: Global) -> Result<Vec<Page>, AllocError>
        ensures fine { IfOk result (λ pages. IsFine pages.items) }
        ensures memory { IfOk result (λ pages. memory_of pages.items ≡ self.now.memory) }
        ensures shared { IfOk result (λ pages. AreHeld false pages.items) }
        ensures kept { IsImage self.now }
    {
        share_pages(alloc, self.pages.as_slice())
    }
}

/// The image of parts.
fn made_of(
    alloc: Global,
    parts: &[Part<'_>],
    entry: u64,
    code: &[(u64, u32)],
) -> Result<Image, AllocError>
    requires { ArePlaced (map extent_of parts.now) }
    ensures memory { IfOk result (λ i. IsMemoryOf (map extent_of parts.now) i.memory) }
    ensures entry { IfOk result (λ i. i.entry ≡ entry) }
    ensures code { IfOk result (λ i. i.code ≡ code.now) }
    ensures whole { IfOk result (λ i. IsWhole i.memory) }
{
    let pages = pages_of(alloc, parts)?;
    let code = Arc::new(alloc, Vec::from_slice(alloc, code)?)?;
    Ok(Image { pages, entry, code })
}

/// The pages of parts.
fn pages_of(alloc: Global, parts: &[Part<'_>]) -> Result<Vec<Page>, AllocError>
    requires { ArePlaced (map extent_of parts.now) }
    ensures fine { IfOk result (λ pages. IsFine pages.items) }
    ensures memory { IfOk result (λ pages. IsMemoryOf (map extent_of parts.now) (memory_of pages.items)) }
{
    let mut pages = touched_pages(alloc, parts)?;
    put_parts(&mut pages, parts);
    share_bytes(alloc, &mut pages)?;
    Ok(pages)
}

/// Lets other pages share the bytes of each of these.
fn share_bytes(alloc: Global, pages: &mut Vec<Page>) -> Result<(), AllocError>
    requires { IsFine pages.old.items }
    ensures fine { OnOk result (IsFine pages.new.items) }
    ensures memory { OnOk result (memory_of pages.new.items ≡ memory_of pages.old.items) }
{
    for i in 0..pages.len() {
        let page = &mut pages[i];
        page.bytes.make_shared(alloc)?;
    }
    Ok(())
}

/// The pages that parts touch, of zeros.
fn touched_pages(alloc: Global, parts: &[Part<'_>]) -> Result<Vec<Page>, AllocError>
    requires low { All (λ e. 0 < e.size → e.address + e.size ≤ 2 ^ 62) (map extent_of parts.now) }
    requires sums { All (λ e. e.flags < 8) (map extent_of parts.now) }
    ensures fine { IfOk result (λ pages. IsFine pages.items) }
    ensures zero { IfOk result (λ pages. IsZero (memory_of pages.items)) }
    ensures flags { IfOk result (λ pages. (n : ℕ) → get (perm_of pages.items) n
        ≡ image_flags (map extent_of parts.now) n) }
    ensures own { IfOk result (λ pages. AreHeld true pages.items) }
{
    let mut pages = Vec::new(alloc);
    let mut left = parts.len();
    while left > 0 {
        left -= 1;
        touch_part(alloc, &mut pages, &parts[left])?;
    }
    Ok(pages)
}

/// Touches the pages of a part.
fn touch_part(alloc: Global, pages: &mut Vec<Page>, part: &Part<'_>) -> Result<(), AllocError>
    requires fine { IsFine pages.old.items }
    requires zero { IsZero (memory_of pages.old.items) }
    requires low { 0 < part.now.size → part.now.address + part.now.size ≤ 2 ^ 62 }
    requires sum { part.now.flags < 8 }
    requires own { AreHeld true pages.old.items }
    ensures fine { OnOk result (IsFine pages.new.items) }
    ensures zero { OnOk result (IsZero (memory_of pages.new.items)) }
    ensures flags { OnOk result ((n : ℕ) → get (perm_of pages.new.items) n
        ≡ union (part_flags (extent_of part.now) n) (get (perm_of pages.old.items) n)) }
    ensures own { OnOk result (AreHeld true pages.new.items) }
{
    if part.size > 0 {
        let last = (part.address + part.size - 1) / 4096;
        for n in part.address / 4096..last + 1 {
            touch(alloc, pages, n, part.flags)?;
        }
    }
    Ok(())
}

/// Adds flags to the page of a number, which is made of zeros where there is none.
fn touch(alloc: Global, pages: &mut Vec<Page>, number: u64, flags: u8) -> Result<(), AllocError>
    requires fine { IsFine pages.old.items }
    requires zero { IsZero (memory_of pages.old.items) }
    requires low { number < 2 ^ 52 }
    requires sum { flags < 8 }
    requires own { AreHeld true pages.old.items }
    ensures fine { OnOk result (IsFine pages.new.items) }
    ensures zero { OnOk result (IsZero (memory_of pages.new.items)) }
    ensures flags { OnOk result ((n : ℕ) → get (perm_of pages.new.items) n
        ≡ cond (number == n) (union (Some flags) (get (perm_of pages.old.items) n))
        (get (perm_of pages.old.items) n)) }
    ensures own { OnOk result (AreHeld true pages.new.items) }
{
    match search(pages.as_slice(), number) {
        Some(i) => {
            let page = &mut pages[i];
            page.flags = flags | page.flags;
        }
        None => {
            let bytes = vec![in alloc; 0u8; 4096]?;
            let page = Page {
                number,
                flags,
                bytes: PageBytes::own_of(bytes),
            };
            add_page(pages, page)?;
        }
    }
    Ok(())
}

/// Sets the bytes of parts, in pages of zeros that are there.
fn put_parts(pages: &mut Vec<Page>, parts: &[Part<'_>])
    requires fine { IsFine pages.old.items }
    requires zero { IsZero (memory_of pages.old.items) }
    requires flags { (n : ℕ) → get (perm_of pages.old.items) n ≡ image_flags (map extent_of parts.now) n }
    requires parts { ArePlaced (map extent_of parts.now) }
    requires own { AreHeld true pages.old.items }
    ensures fine { IsFine pages.new.items }
    ensures memory { IsMemoryOf (map extent_of parts.now) (memory_of pages.new.items) }
{
    let mut left = parts.len();
    while left > 0 {
        left -= 1;
        let part = &parts[left];
        put_bytes(pages, part.address, part.bytes);
    }
}
