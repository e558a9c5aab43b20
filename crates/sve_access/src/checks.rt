//! The checks of an access, in their order.
ghost use Rattle.std.specs.Prelude.{◌≡◌, ◌==◌, None, true, false, ℕ, Bool, List};
ghost use Rattle.std.specs.Option.{option_or};
ghost use Rattle.paged_memory.specs.Accesses.{need_of};
ghost use Rattle.mem_access.specs.Checks.{is_shared, lacks, access_fault, sp_fault, shared_fault};
ghost use Rattle.mem_access.specs.Checks.{read_fault, write_fault};
ghost use Rattle.sve_access.specs.After.{at_base};

use crate::places::{Bytes, Check, first_of};
use mem_access::first_shared;
use paged_memory::Pages;
use sm_types::{Access, Exception, Scalars};

/// That a byte is not of the shared words.
#[derive(Clone, Copy)]
struct Unshared;

impl Check for Unshared {
    ghost fails = { λ s a. is_shared a };

    #[inline]
    fn first(&self, address: u64, size: u64) -> Option<u64> {
        first_shared(address, size)
    }
}

/// That a byte may be read, or written.
#[derive(Clone, Copy)]
struct Permitted<'a> {
    pages: &'a Pages,
    access: Access,
}

impl<'a> Check for Permitted<'a> {
    ghost fails = { λ s a. lacks (need_of s.access) s.pages.now.memory a };

    #[inline]
    fn first(&self, address: u64, size: u64) -> Option<u64> {
        match self.pages.check(address, size, self.access) {
            Ok(()) => None,
            Err(abort) => Some(abort.address),
        }
    }
}

/// That SP is a multiple of 16, where it is the base.
#[inline]
pub fn sp_fault(rn: u8, s: &Scalars) -> Option<Exception>
    ensures { (writes : Bool) (bytes : List ℕ) → result ≡ sp_fault (at_base rn writes bytes) s.now }
{
    if rn == 31 && s.sp % 16 != 0 {
        Some(Exception::SpAlign)
    } else {
        None
    }
}

/// That no byte is of the shared words.
#[inline]
fn shared_fault<B: Bytes>(bytes: &B) -> Option<Exception>
    requires { B.can bytes.now }
    ensures { (rn : ℕ) (writes : Bool) → result ≡ shared_fault (at_base rn writes (B.addresses bytes.now)) }
{
    match bytes.first_failing(&Unshared) {
        Some(address) => Some(Exception::Shared(address)),
        None => None,
    }
}

/// That each byte may be read.
#[inline]
fn read_fault<B: Bytes>(bytes: &B, pages: &Pages) -> Option<Exception>
    requires { B.can bytes.now }
    ensures { (rn : ℕ) → result ≡ read_fault (at_base rn false (B.addresses bytes.now)) pages.now.memory }
{
    let access = Access::Read;
    match bytes.first_failing(&Permitted { pages, access }) {
        Some(address) => Some(Exception::Data { address, access }),
        None => None,
    }
}

/// That each byte may be written.
#[inline]
fn write_fault<B: Bytes>(bytes: &B, pages: &Pages) -> Option<Exception>
    requires { B.can bytes.now }
    ensures { (rn : ℕ) → result ≡ write_fault (at_base rn true (B.addresses bytes.now)) pages.now.memory }
{
    let access = Access::Write;
    match bytes.first_failing(&Permitted { pages, access }) {
        Some(address) => Some(Exception::Data { address, access }),
        None => None,
    }
}

/// The exception of the first check that fails, of an access that reads some bytes from base register `rn`
/// on.
#[inline]
pub fn load_fault<B: Bytes>(bytes: &B, rn: u8, s: &Scalars, pages: &Pages) -> Option<Exception>
    requires { B.can bytes.now }
    ensures { result ≡ access_fault None (at_base rn false (B.addresses bytes.now)) s.now pages.now.memory }
{
    first_of(
        sp_fault(rn, s),
        first_of(shared_fault(bytes), read_fault(bytes, pages)),
    )
}

/// The exception of the first check that fails of those that look at no page.
#[inline]
pub fn place_fault<B: Bytes>(bytes: &B, rn: u8, s: &Scalars) -> Option<Exception>
    requires { B.can bytes.now }
    ensures { (writes : Bool) → result
        ≡ option_or (sp_fault (at_base rn writes (B.addresses bytes.now)) s.now)
        (shared_fault (at_base rn writes (B.addresses bytes.now))) }
{
    first_of(sp_fault(rn, s), shared_fault(bytes))
}

/// The same as `load_fault`, of an access that writes the bytes.
#[inline]
pub fn store_fault<B: Bytes>(bytes: &B, rn: u8, s: &Scalars, pages: &Pages) -> Option<Exception>
    requires { B.can bytes.now }
    ensures { result ≡ access_fault None (at_base rn true (B.addresses bytes.now)) s.now pages.now.memory }
{
    first_of(
        sp_fault(rn, s),
        first_of(shared_fault(bytes), write_fault(bytes, pages)),
    )
}
