//! Bytes and words of memory, whatever their permission.
ghost use Rattle.std.specs.Prelude.{◌≡◌, ◌↔◌, ◌≤◌, IsTrue, length};
ghost use Rattle.paged_memory.specs.Memory.{byte_with};
ghost use Rattle.abi_checker.specs.Marks.{word_in, AreWords};

use paged_memory::Pages;

/// The byte at an address, whatever its permission; `None` exactly where no page has it.
fn byte_in(pages: &Pages, address: u64) -> Option<u8>
    ensures { result ≡ byte_with 0 pages.now.memory address }
{
    let count = pages.page_count();
    'pages: for index in 0..count {
        match pages.page(index) {
            Some(page) => {
                if page.address / 4096 == address / 4096 {
                    return Some(page.bytes[(address % 4096) as usize]);
                }
            }
            None => unreachable!(),
        }
    }
    None
}

/// The word of the four bytes at an address, by their pages.
#[inline(never)]
fn word_by_bytes(pages: &Pages, address: u64) -> Option<u32>
    ensures { result ≡ word_in pages.now.memory address }
{
    let bytes = [
        byte_in(pages, address)?,
        byte_in(pages, address.wrapping_add(1))?,
        byte_in(pages, address.wrapping_add(2))?,
        byte_in(pages, address.wrapping_add(3))?,
    ];
    Some(u32::from_le_bytes(bytes))
}

/// The word of the four bytes at an address, whatever their permission; `None` exactly where no page has one
/// of them.
#[inline(always)]
pub fn word_in(pages: &Pages, address: u64) -> Option<u32>
    ensures { result ≡ word_in pages.now.memory address }
{
    match pages.fetch(address) {
        Some(word) => Some(word),
        None => word_by_bytes(pages, address),
    }
}

/// Whether these words are in memory from an address on.
pub fn are_words(pages: &Pages, address: u64, words: &[u32]) -> bool
    requires { length words.now ≤ 20 }
    ensures { IsTrue result ↔ AreWords pages.now.memory address words.now }
{
    let mut index = 0;
    'words: while index < words.len() {
        if word_in(pages, address.wrapping_add(4 * index as u64)) != Some(words[index]) {
            return false;
        }
        index += 1;
    }
    true
}
