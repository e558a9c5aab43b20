//! The permissions of the pages of a thread.
ghost use Rattle.std.specs.Prelude.{◌≡◌, ◌↔◌, ℕ, IsTrue, IfOk};
ghost use Rattle.std.specs.FinMap.{FinMap, get, entries};
ghost use Rattle.std.specs.Ordering.{nat_cmp};
ghost use Rattle.paged_memory.specs.Memory.{AddressSpace, IsWhole};
ghost use Rattle.lazy_saving.specs.Dormant.{HasSamePages};

use paged_memory::Pages;
use sm_types::Memory;
use std::alloc::Global;

/// The numbers of all pages, in their order, with their permissions. `Memory` is want of memory.
pub fn permissions(alloc: Global, pages: &Pages) -> Result<Vec<(u64, u8)>, Memory>
    ensures pages { IfOk result (λ list. list.items ≡ entries pages.now.memory.perm) }
    ensures whole { IfOk result (λ list. IsWhole pages.now.memory) }
{
    let count = pages.page_count();
    let mut list = Vec::new(alloc);
    'pages: for index in 0..count {
        match pages.page(index) {
            Some(page) => list
                .push((page.address / 4096, page.flags))
                .map_err(|_| Memory)?,
            None => unreachable!(),
        }
    }
    Ok(list)
}

/// The permission of a page; `None` exactly where the list has none of its number.
fn permission_of(list: &[(u64, u8)], number: u64) -> Option<u8>
    ensures { (map : FinMap nat_cmp ℕ) → entries map ≡ list.now → result ≡ get map number }
{
    let mut index = 0;
    'pages: while index < list.len() {
        if list[index].0 == number {
            return Some(list[index].1);
        }
        index += 1;
    }
    None
}

/// Whether the pages of so many bytes from an address on have the same permissions in both lists; addresses go
/// round at 2^64.
pub fn have_same_pages(old: &[(u64, u8)], new: &[(u64, u8)], address: u64, count: u64) -> bool
    ensures { (before after : AddressSpace) → entries before.perm ≡ old.now → entries after.perm ≡ new.now
        → (IsTrue result ↔ HasSamePages before after address count) }
{
    let mut done = 0;
    'pages: while done < count {
        let place = address.wrapping_add(done);
        let number = place / 4096;
        if permission_of(old, number) != permission_of(new, number) {
            return false;
        }
        let step = 4096 - place % 4096;
        if step >= count - done {
            return true;
        }
        done += step;
    }
    true
}
