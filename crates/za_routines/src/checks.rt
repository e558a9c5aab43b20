//! Runs of bytes: whether they are private, whether they can be accessed, and whether two have a byte in
//! common.
ghost use Rattle.std.specs.Prelude.{◌≡◌, ◌+◌, ◌≤◌, ◌^◌, ◌↔◌, None, IsTrue};
ghost use Rattle.paged_memory.specs.Memory.{first_without};
ghost use Rattle.paged_memory.specs.Accesses.{need_of};
ghost use Rattle.mem_access.specs.Runs.{first_shared};
ghost use Rattle.lazy_saving.specs.Block.{AreApart};

use paged_memory::Pages;
use sm_types::Access;

/// The first byte of the shared words.
const SHARED: u64 = 0x7f00_0000_0000;
/// The first byte past them.
const SHARED_END: u64 = 0x7f00_0000_1000;

/// Whether none of so many bytes from an address on, which do not pass 2^64, is shared.
pub fn is_private(address: u64, count: u64) -> bool
    requires { address + count ≤ 2 ^ 64 }
    ensures { IsTrue result ↔ (first_shared address count ≡ None) }
{
    if count == 0 || address >= SHARED_END {
        return true;
    }
    address < SHARED && count <= SHARED - address
}

/// Whether so many bytes from an address on can be accessed so.
pub fn can_access(pages: &Pages, address: u64, count: u64, access: Access) -> bool
    ensures { IsTrue result ↔ (first_without (need_of access) pages.now.memory address count ≡ None) }
{
    pages.check(address, count, access).is_ok()
}

/// Whether no byte of the one run is one of the other; addresses go round at 2^64.
pub fn are_apart(a: u64, n: u64, b: u64, k: u64) -> bool
    ensures { IsTrue result ↔ AreApart a n b k }
{
    if n == 0 || k == 0 {
        return true;
    }
    b.wrapping_sub(a) >= n && a.wrapping_sub(b) >= k
}
