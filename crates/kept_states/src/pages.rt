//! The pages of kept states, whose bytes they share.
ghost use Rattle.std.specs.Prelude.{◌≡◌, ◌≢◌, None, IfOk, IfSome, IfNone};
ghost use Rattle.std.specs.FinMap.{get};
ghost use Rattle.std.specs.Arc.{arc_value};
ghost use Rattle.paged_memory.specs.PageList.{IsPageList};
ghost use Rattle.kept_states.specs.Pages.{bytes_of, ArePages, HasShared};
ghost use Rattle.kept_states.specs.Listed.{AreSame};

use paged_memory::{PageImage, PageList, PageView, Pages};
use sm_types::SHARED_PAGE;
use std::alloc::{AllocError, Global};
use std::sync::Arc;

/// A page: its address in bytes, a multiple of 4096, its flags, a sum of execute 1, write 2 and read 4, and its
/// 4096 bytes.
#[derive(Drop)]
pub struct SharedPage {
    pub address: u64,
    pub flags: u8,
    pub bytes: Arc<Vec<u8>>,
}

/// The bytes of the page at that place: those that were kept before, where they are the same, or a copy.
fn share_bytes(
    alloc: Global,
    bytes: &[u8],
    before: &[SharedPage],
    place: usize,
) -> Result<Arc<Vec<u8>>, AllocError>
    ensures { IfOk result (λ it. (arc_value it).items ≡ bytes.now) }
{
    if place < before.len() {
        let kept = &before[place].bytes;
        if kept.as_slice() == bytes {
            return Ok(Arc::try_clone(kept)?);
        }
    }
    Ok(Arc::new(alloc, Vec::from_slice(alloc, bytes)?)?)
}

/// The page at that place.
fn share_page(
    alloc: Global,
    page: &PageView<'_>,
    before: &[SharedPage],
    place: usize,
) -> Result<SharedPage, AllocError>
    ensures address { IfOk result (λ it. it.address ≡ page.now.address) }
    ensures flags { IfOk result (λ it. it.flags ≡ page.now.flags) }
    ensures bytes { IfOk result (λ it. bytes_of it ≡ page.now.bytes.now) }
{
    Ok(SharedPage {
        address: page.address,
        flags: page.flags,
        bytes: share_bytes(alloc, page.bytes, before, place)?,
    })
}

/// The pages of a thread, which share the bytes with those kept before where they have not changed. `None`
/// comes only where one of them stands in the shared region.
pub fn share_pages(
    alloc: Global,
    pages: &Pages,
    before: &[SharedPage],
) -> Result<Option<Vec<SharedPage>>, AllocError>
    ensures pages { IfOk result (λ found. IfSome found (λ list. ArePages list.items)) }
    ensures memory { IfOk result (λ found. IfSome found (λ list. HasShared pages.now.memory list.items)) }
    ensures private { IfOk result (λ found. IfNone found (get pages.now.memory.perm 0x7F0000000 ≢ None)) }
{
    let mut list = Vec::new(alloc);
    for place in 0..pages.page_count() {
        match pages.page(place) {
            None => unreachable!(),
            Some(page) => {
                if page.address == SHARED_PAGE {
                    return Ok(None);
                }
                list.push(share_page(alloc, &page, before, place)?)?;
            }
        }
    }
    Ok(Some(list))
}

/// The same pages as a list, each with a copy of its bytes.
pub fn list_pages(alloc: Global, pages: &[SharedPage]) -> Result<PageList, AllocError>
    requires { ArePages pages.now }
    ensures list { IfOk result (λ list. IsPageList list.items) }
    ensures same { IfOk result (λ list. AreSame list.items pages.now) }
{
    let mut list = Vec::new(alloc);
    for page in pages {
        list.push(PageImage {
            address: page.address,
            flags: page.flags,
            bytes: Vec::from_slice(alloc, page.bytes.as_slice())?,
        })?;
    }
    Ok(list)
}
