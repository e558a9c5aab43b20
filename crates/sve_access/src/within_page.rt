//! Loads whose bytes lie in one page, and of which no check fails: mostly a load is one.
ghost use Rattle.std.specs.Prelude.{◌≡◌, ◌*◌, ◌/◌, ◌≤◌, false, Some, None, IfSome, length};
ghost use Rattle.std.specs.List.{find};
ghost use Rattle.paged_memory.specs.Memory.{bytes_with, run_of};
ghost use Rattle.mem_access.specs.Checks.{access_fault, is_shared};
ghost use Rattle.vector_elements.specs.Active.{AreActive};
ghost use Rattle.vector_elements.specs.Numbers.{bytes_in};
ghost use Rattle.sve_access.specs.After.{at_base};
ghost use Rattle.sve_access.specs.Elements.{element_addresses};

use crate::checks::sp_fault;
use crate::elements::Elements;
use crate::places::Run;
use mem_access::first_shared;
use paged_memory::Pages;
use sm_types::Scalars;
use vector_elements::are_active;

/// Consecutive bytes, where they lie in one page, none of them is shared and each can be read.
#[inline(always)]
fn readable_bytes(pages: &Pages, address: u64, size: u64) -> Option<&[u8]>
    requires some { 1 ≤ size }
    requires short { size ≤ 4096 }
    ensures there { IfSome result (λ bytes. bytes_with 4 pages.now.memory address size ≡ Some bytes.now) }
    ensures count { IfSome result (λ bytes. length bytes.now ≡ size) }
    ensures private { IfSome result (λ bytes. find is_shared (run_of address size) ≡ None) }
{
    if address % 4096 + size > 4096 {
        return None;
    }
    match first_shared(address, size) {
        Some(_) => None,
        None => pages.bytes_within(address, size as usize),
    }
}

/// The bytes of a load of all elements, where all are active, no check fails and the bytes lie in one page.
#[inline(always)]
pub fn whole_elements<'a>(
    elements: &Elements,
    rn: u8,
    s: &Scalars,
    pages: &'a Pages,
) -> Option<&'a [u8]>
    requires few { length elements.now.pg.now ≤ 32 }
    requires some { 2 ≤ length elements.now.pg.now }
    ensures active { IfSome result (λ bytes. AreActive elements.now.element elements.now.pg.now) }
    ensures there { IfSome result (λ bytes.
        bytes_with 4 pages.now.memory elements.now.start (length bytes.now) ≡ Some bytes.now) }
    ensures count { IfSome result (λ bytes. length bytes.now
        ≡ 8 * length elements.now.pg.now / bytes_in elements.now.element * bytes_in elements.now.memory) }
    ensures allowed { IfSome result (λ bytes. let x = elements.now in
        access_fault None (at_base rn false (element_addresses x.start x.memory x.element x.pg.now))
        s.now pages.now.memory ≡ None) }
{
    if !are_active(elements.pg, elements.element) {
        return None;
    }
    match sp_fault(rn, s) {
        Some(_) => None,
        None => readable_bytes(pages, elements.start, elements.size()),
    }
}

/// The bytes of a load of consecutive bytes, where no check fails and they lie in one page.
#[inline(always)]
pub fn whole_run<'a>(run: &Run, rn: u8, s: &Scalars, pages: &'a Pages) -> Option<&'a [u8]>
    requires some { 1 ≤ run.now.size }
    requires short { run.now.size ≤ 4096 }
    ensures there { IfSome result (λ bytes. bytes_with 4 pages.now.memory run.now.address run.now.size
        ≡ Some bytes.now) }
    ensures count { IfSome result (λ bytes. length bytes.now ≡ run.now.size) }
    ensures allowed { IfSome result (λ bytes. access_fault None
        (at_base rn false (run_of run.now.address run.now.size)) s.now pages.now.memory ≡ None) }
{
    match sp_fault(rn, s) {
        Some(_) => None,
        None => readable_bytes(pages, run.address, run.size),
    }
}
