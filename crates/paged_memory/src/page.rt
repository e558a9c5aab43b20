//! Pages, and lists of them in the order of their numbers.
ghost use Rattle.std.specs.Prelude.{◌≡◌, ℕ, ◌+◌, ◌*◌, ◌/◌, ◌%◌, ◌^◌, ◌<◌, ◌≤◌, length};
ghost use Rattle.std.specs.Prelude.{get_or, slice_get, MatchOption, IfSome, IfNone, IfOk};
ghost use Rattle.std.specs.Prelude.{OnOk, Some, None, Bool, false};
ghost use Rattle.std.specs.FinMap.{get};
ghost use Rattle.paged_memory.specs.declared.page.Page.{Page};
ghost use Rattle.paged_memory.specs.Memory.{with_page, byte_with, bytes_with, first_without};
ghost use Rattle.paged_memory.specs.Pages.{page_at, perm_of, memory_of, IsFine, AreHeld};

use crate::hints::Hints;
use crate::page_bytes::PageBytes;
use std::alloc::{AllocError, Global};

/// A page of 4096 bytes: its number is its address over 4096, its flags are a sum of execute 1, write 2 and
/// read 4.
#[derive(Drop)]
pub struct Page {
    pub number: u64,
    pub flags: u8,
    pub bytes: PageBytes,
}

/// How many of the pages have a number below that one.
pub fn count_below(pages: &[Page], number: u64) -> usize
    requires { IsFine pages.now }
    ensures bound { result ≤ length pages.now }
    ensures below { (k : ℕ) (d : Page) → k < result → (get_or pages.now k d).number < number }
    ensures rest { (k : ℕ) (d : Page) → result ≤ k → k < length pages.now
        → number ≤ (get_or pages.now k d).number }
{
    let mut low = 0;
    let mut high = pages.len();
    while low < high {
        let middle = low + (high - low) / 2;
        if pages[middle].number < number {
            low = middle + 1;
        } else {
            high = middle;
        }
    }
    low
}

/// The place of the page of that number: the one that is hinted at, or the one that a search finds.
#[inline(always)]
pub fn find(pages: &[Page], hints: &Hints, number: u64) -> Option<usize>
    requires { IsFine pages.now }
    ensures { MatchOption result (page_at pages.now number ≡ None)
        (λ i. (i < length pages.now) × (page_at pages.now number ≡ slice_get pages.now i)) }
{
    let i = hints.place(number);
    if i < pages.len() && pages[i].number == number {
        Some(i)
    } else {
        search(pages, number)
    }
}

/// The place of the page of that number, by binary search.
#[inline(never)]
pub fn search(pages: &[Page], number: u64) -> Option<usize>
    requires { IsFine pages.now }
    ensures { MatchOption result (page_at pages.now number ≡ None)
        (λ i. (i < length pages.now) × (page_at pages.now number ≡ slice_get pages.now i)) }
{
    let i = count_below(pages, number);
    if i < pages.len() && pages[i].number == number {
        Some(i)
    } else {
        None
    }
}

/// The bytes from an address on that lie in one page, if there is such a page and it has the permission.
#[inline(always)]
pub fn run<'a>(
    pages: &'a [Page],
    hints: &Hints,
    address: u64,
    count: usize,
    need: u8,
) -> Option<&'a [u8]>
    requires fine { IsFine pages.now }
    requires fits { address % 4096 + count ≤ 4096 }
    ensures there { IfSome result (λ bytes. bytes_with need (memory_of pages.now) address count
        ≡ Some bytes.now) }
    ensures count { IfSome result (λ bytes. length bytes.now ≡ count) }
    ensures gone { IfNone result (byte_with need (memory_of pages.now) address ≡ None) }
{
    match find(pages, hints, address / 4096) {
        Some(i) => {
            let page = &pages[i];
            let start = (address % 4096) as usize;
            if page.flags & need == need {
                Some(&page.bytes.as_slice()[start..start + count])
            } else {
                None
            }
        }
        None => None,
    }
}

/// The same where the page is the one that is hinted at; `None` tells nothing, and another way is to be taken.
#[inline(always)]
pub fn run_near<'a>(
    pages: &'a [Page],
    hints: &Hints,
    address: u64,
    count: usize,
    need: u8,
) -> Option<&'a [u8]>
    requires fine { IsFine pages.now }
    requires few { count ≤ 4096 }
    ensures there { IfSome result (λ bytes. bytes_with need (memory_of pages.now) address count
        ≡ Some bytes.now) }
    ensures count { IfSome result (λ bytes. length bytes.now ≡ count) }
{
    let number = address / 4096;
    let start = (address % 4096) as usize;
    let i = hints.place(number);
    if start + count > 4096 || i >= pages.len() {
        return None;
    }
    let page = &pages[i];
    if page.number != number || page.flags & need != need {
        return None;
    }
    Some(&page.bytes.as_slice()[start..start + count])
}

/// Adds a page at its place.
pub fn add_page(pages: &mut Vec<Page>, page: Page) -> Result<(), AllocError>
    requires fine { IsFine pages.old.items }
    requires whole { length page.bytes.items ≡ 4096 }
    requires flags { page.flags < 8 }
    requires low { page.number < 2 ^ 52 }
    requires missing { get (perm_of pages.old.items) page.number ≡ None }
    ensures fine { IsFine pages.new.items }
    ensures memory { OnOk result (memory_of pages.new.items
        ≡ with_page (memory_of pages.old.items) page.number page.flags page.bytes.items) }
    ensures count { OnOk result (length pages.new.items ≡ length pages.old.items + 1) }
    ensures held { (own : Bool) → page.bytes.own ≡ own → AreHeld own pages.old.items
        → OnOk result (AreHeld own pages.new.items) }
{
    let i = count_below(pages.as_slice(), page.number);
    pages.insert(i, page)?;
    Ok(())
}

/// The same pages for another thread or image, with their bytes shared.
pub fn share_pages(alloc: Global, pages: &[Page]) -> Result<Vec<Page>, AllocError>
    requires { IsFine pages.now }
    ensures fine { IfOk result (λ copies. IsFine copies.items) }
    ensures memory { IfOk result (λ copies. memory_of copies.items ≡ memory_of pages.now) }
    ensures count { IfOk result (λ copies. length copies.items ≡ length pages.now) }
    ensures shared { IfOk result (λ copies. AreHeld false copies.items) }
{
    let mut copies = Vec::new(alloc);
    for page in pages {
        let copy = Page {
            number: page.number,
            flags: page.flags,
            bytes: page.bytes.share(alloc)?,
        };
        add_page(&mut copies, copy)?;
    }
    Ok(copies)
}

/// The first of the addresses from one on that lacks the permission, page by page.
pub fn first_lacking(
    pages: &[Page],
    hints: &Hints,
    address: u64,
    length: u64,
    need: u8,
) -> Option<u64>
    requires { IsFine pages.now }
    ensures { result ≡ first_without need (memory_of pages.now) address length }
{
    let mut done = 0;
    while done < length {
        let at = address.wrapping_add(done);
        let count = (4096 - at % 4096).min(length - done);
        match run(pages, hints, at, count as usize, need) {
            Some(_) => done += count,
            None => return Some(at),
        }
    }
    None
}
