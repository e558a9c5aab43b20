//! The checks of an access that look at no page.
ghost use Rattle.std.specs.Prelude.{◌≡◌, ◌≤◌};
ghost use Rattle.mem_access.specs.Runs.{first_shared, place_fault};

use crate::access::MemoryAccess;
use sm_types::{Exception, Scalars};

/// The first byte of the shared words.
pub const SHARED: u64 = 0x7f00_0000_0000;
/// The first byte past them.
pub const SHARED_END: u64 = 0x7f00_0000_1000;

/// The first of so many bytes from an address on that is shared.
#[inline(always)]
pub fn first_shared(address: u64, size: u64) -> Option<u64>
    requires some { 1 ≤ size }
    requires short { size ≤ 4096 }
    ensures { result ≡ first_shared address size }
{
    if address < SHARED {
        if size > SHARED - address {
            Some(SHARED)
        } else {
            None
        }
    } else if address < SHARED_END {
        Some(address)
    } else {
        None
    }
}

/// The first of the checks that look at no page.
#[inline(always)]
pub fn place_fault(access: &MemoryAccess, s: &Scalars) -> Option<Exception>
    requires some { 1 ≤ access.now.size }
    requires short { access.now.size ≤ 4096 }
    ensures { result ≡ place_fault access.now s.now }
{
    if access.on_sp && s.sp % 16 != 0 {
        return Some(Exception::SpAlign);
    }
    if access.aligned && access.address % access.size != 0 {
        return Some(Exception::Align(access.address));
    }
    match first_shared(access.address, access.size) {
        Some(address) => Some(Exception::Shared(address)),
        None => None,
    }
}
