//! How many pages the loads touch.
ghost use Rattle.std.specs.Prelude.{◌≡◌, ◌+◌, ◌^◌, ◌≤◌, All, nat_lt};
ghost use Rattle.std.specs.List.Sorted.{IsNonDecreasingBy};
ghost use Rattle.sm_types.specs.Checks.{fault_when};
ghost use Rattle.elf_headers.specs.Fault.{Tells};
ghost use Rattle.elf_headers.specs.Spans.{pages_below, IsLow};

use crate::fault::LoadFault;
use crate::spans::Span;
use sm_types::{PAGE_LIMIT, PAGE_SIZE};

/// The pages of the stack.
const STACK_PAGES: u64 = 64;

/// How many pages the spans touch, which are in order of address.
fn count_pages(spans: &[Span]) -> u64
    requires sorted { IsNonDecreasingBy (λ s. s.address) spans.now }
    requires low { All IsLow spans.now }
    ensures count { result ≡ pages_below spans.now (2 ^ 35) }
    ensures few { result ≤ 2 ^ 35 }
{
    let mut count = 0;
    let mut next = 0;
    for span in spans {
        let first = span.address / u64::from(PAGE_SIZE);
        let past = (span.end - 1) / u64::from(PAGE_SIZE) + 1;
        count += past.saturating_sub(first.max(next));
        next = next.max(past);
    }
    count
}

/// Checks that the spans, which are in order of address, and the stack have no more pages than a guest
/// thread may have.
pub fn check_pages(spans: &[Span]) -> Result<(), LoadFault>
    requires sorted { IsNonDecreasingBy (λ s. s.address) spans.now }
    requires low { All IsLow spans.now }
    ensures { Tells result (fault_when (nat_lt PAGE_LIMIT (pages_below spans.now (2 ^ 35) + 64))
        (LoadFault.TooManyPages (pages_below spans.now (2 ^ 35) + 64))) }
{
    let pages = count_pages(spans) + STACK_PAGES;
    if pages > u64::from(PAGE_LIMIT) {
        return Err(LoadFault::TooManyPages(pages));
    }
    Ok(())
}
