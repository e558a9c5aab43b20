//! Pages that are listed with their addresses, as a file of a thread's state has them.
ghost use Rattle.std.specs.Prelude.{◌≡◌, length, map, IfOk};
ghost use Rattle.paged_memory.specs.Pages.{IsFine};
ghost use Rattle.paged_memory.specs.PageList.{IsPageList, page_made};

use crate::page::Page;
use crate::page_bytes::PageBytes;
use sm_types::Bytes;
use std::alloc::{AllocError, Global};

/// A page: its address in bytes, a multiple of 4096, its flags, a sum of execute 1, write 2 and read 4, and
/// its 4096 bytes.
#[derive(Drop)]
pub struct PageImage {
    pub address: u64,
    pub flags: u8,
    pub bytes: Bytes,
}

/// A list of pages.
pub type PageList = Vec<PageImage>;

/// The pages of a list, with bytes of their own.
pub fn pages_of_list(alloc: Global, list: &PageList) -> Result<Vec<Page>, AllocError>
    requires { IsPageList list.now.items }
    ensures fine { IfOk result (λ pages. IsFine pages.items) }
    ensures pages { IfOk result (λ pages. pages.items ≡ map page_made list.now.items) }
{
    let mut pages = Vec::new(alloc);
    for page in list {
        let bytes = Vec::from_slice(alloc, page.bytes.as_slice())?;
        pages.push(Page {
            number: page.address / 4096,
            flags: page.flags,
            bytes: PageBytes::own_of(bytes),
        })?;
    }
    Ok(pages)
}
