//! The first two loads that have an address in common.
ghost use Rattle.std.specs.Prelude.{◌≡◌, true, None, ℕ, ◌+◌, ◌≤◌, ◌<◌, length, get_or};
ghost use Rattle.std.specs.List.Sorted.{IsNonDecreasingBy, IsPermutation};
ghost use Rattle.elf_headers.specs.Below.{first_below};
ghost use Rattle.elf_headers.specs.Fault.{Tells};
ghost use Rattle.elf_headers.specs.Header.{program_header_count, HasTable};
ghost use Rattle.elf_headers.specs.Segments.{segments_fault};
ghost use Rattle.elf_headers.specs.Loads.{overlap_at, overlap_fault};
ghost use Rattle.elf_headers.specs.Spans.{spans_of, IsClearBelow};
ghost use Rattle.elf_headers.specs.declared.spans.Span.{Span};

use crate::fault::LoadFault;
use crate::segments::{count_program_headers, read_program_header};
use crate::spans::Span;

/// Tells whether a span has an address in common with one before it, where these end at `top`, or with the
/// next.
fn is_overlapping(spans: &[Span], i: usize, top: u64) -> bool
    requires { i < length spans.now }
    ensures before { (d : Span) → (get_or spans.now i d).address < top → result ≡ true }
    ensures after { (d : Span) → i + 1 < length spans.now
        → (get_or spans.now (i + 1) d).address < (get_or spans.now i d).end → result ≡ true }
{
    spans[i].address < top || i + 1 < spans.len() && spans[i + 1].address < spans[i].end
}

/// A number, `count` at most, below which no load has an address in common with another.
fn least_overlapping(spans: &[Span], count: u16) -> u16
    requires { IsNonDecreasingBy (λ s. s.address) spans.now }
    ensures clear { IsClearBelow spans.now result }
    ensures within { result ≤ count }
{
    let mut least = count;
    let mut top = 0;
    for (i, span) in spans.iter().enumerate() {
        if is_overlapping(spans, i, top) {
            least = least.min(span.header);
        }
        top = top.max(span.end);
    }
    least
}

/// Checks that two program headers, the first of the lower number, are not loads with an address in common.
#[tactic(auto, unfolding(crate::specs::Loads::overlap_at))]
fn check_pair(file: &[u8], i: u16, j: u16) -> Result<(), LoadFault>
    requires table { HasTable file.now }
    requires accepted { segments_fault file.now ≡ None }
    requires order { i < j }
    requires below { j < program_header_count file.now }
    ensures { Tells result (overlap_at file.now i j) }
{
    let one = read_program_header(file, i);
    let other = read_program_header(file, j);
    if one.is_load() && other.is_load() && one.shares(&other) {
        return Err(LoadFault::Overlap(i, j));
    }
    Ok(())
}

/// Checks that a program header is no load with an address in common with a load of a higher number.
fn check_pairs_of(file: &[u8], i: u16) -> Result<(), LoadFault>
    requires table { HasTable file.now }
    requires accepted { segments_fault file.now ≡ None }
    requires below { i < program_header_count file.now }
    ensures { Tells result (first_below (overlap_at file.now i) (program_header_count file.now)) }
{
    let count = count_program_headers(file);
    for j in i + 1..count {
        check_pair(file, i, j)?;
    }
    Ok(())
}

/// Checks that no two loads have an address in common. The spans are those of the loads, in order of address.
#[tactic(auto, unfolding(crate::specs::Loads::overlap_fault))]
pub fn check_overlap(file: &[u8], spans: &[Span]) -> Result<(), LoadFault>
    requires table { HasTable file.now }
    requires accepted { segments_fault file.now ≡ None }
    requires all { IsPermutation (spans_of file.now) spans.now }
    requires sorted { IsNonDecreasingBy (λ s. s.address) spans.now }
    ensures { Tells result (overlap_fault file.now) }
{
    let count = count_program_headers(file);
    for i in least_overlapping(spans, count)..count {
        check_pairs_of(file, i)?;
    }
    Ok(())
}
