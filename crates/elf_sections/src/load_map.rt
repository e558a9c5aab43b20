//! Which addresses the loads have.
ghost use Rattle.std.specs.Prelude.{◌≡◌, ◌+◌, ◌≤◌, ◌<◌, ℕ, length, get_or, slice_index, IfOk, IfSome, IfNone};
ghost use Rattle.std.specs.Prelude.{true, false};
ghost use Rattle.std.specs.List.Sorted.{IsPermutation};
ghost use Rattle.elf_headers.specs.declared.program_header.ProgramHeader.{ProgramHeader};
ghost use Rattle.elf_headers.specs.Loads.{has_address};
ghost use Rattle.elf_headers.specs.Below.{all_below};
ghost use Rattle.elf_sections.specs.LoadMap.{AreLoads, AreInOrder, IsEnd, IsLoadMap, has_load};

use elf_headers::ProgramHeader;
use std::alloc::{AllocError, Global};

/// Loads in order of address, each with the address up to which they have all from its first on.
#[derive(Drop)]
pub struct LoadMap {
    pub loads: Vec<ProgramHeader>,
    pub ends: Vec<u64>,
}

/// The loads in order of address.
pub fn sort_loads(alloc: Global, loads: &[ProgramHeader]) -> Result<Vec<ProgramHeader>, AllocError>
    requires { AreLoads loads.now }
    ensures order { IfOk result (λ sorted. AreInOrder sorted.items) }
    ensures same { IfOk result (λ sorted. IsPermutation loads.now sorted.items) }
{
    let mut sorted = Vec::from_slice(alloc, loads)?;
    sorted.sort_by_key(|s| s.address)?;
    Ok(sorted)
}

/// The number of the load that has the address, of loads in order.
pub fn find_load(loads: &[ProgramHeader], a: u64) -> Option<usize>
    requires { AreInOrder loads.now }
    ensures within { IfSome result (λ i. i < length loads.now) }
    ensures found { IfSome result (λ i. (d : ProgramHeader) → has_address (get_or loads.now i d) a ≡ true) }
    ensures none { IfNone result (has_load loads.now a ≡ false) }
{
    let past = loads.partition_point(|s| s.address <= a);
    if past > 0 && a < loads[past - 1].address + loads[past - 1].memory_size {
        Some(past - 1)
    } else {
        None
    }
}

/// The address up to which the loads have all from the first of load `i` on, where `ends` has that of the
/// next.
fn end_from(loads: &[ProgramHeader], ends: &[u64], i: usize) -> u64
    requires order { AreInOrder loads.now }
    requires number { i < length loads.now }
    requires count { length ends.now ≡ length loads.now }
    requires next { (d : ProgramHeader) → i + 1 < length loads.now
        → IsEnd loads.now (get_or loads.now (i + 1) d) (slice_index ends.now (i + 1)) }
    ensures { (d : ProgramHeader) → IsEnd loads.now (get_or loads.now i d) result }
{
    let end = loads[i].address + loads[i].memory_size;
    if i + 1 < loads.len() && loads[i + 1].address <= end {
        ends[i + 1]
    } else {
        end
    }
}

/// The loads' ends.
fn ends_of(alloc: Global, loads: &[ProgramHeader]) -> Result<Vec<u64>, AllocError>
    requires { AreInOrder loads.now }
    ensures count { IfOk result (λ ends. length ends.items ≡ length loads.now) }
    ensures ends { IfOk result (λ ends. (k : ℕ) (d : ProgramHeader) → k < length loads.now
        → IsEnd loads.now (get_or loads.now k d) (slice_index ends.items k)) }
{
    let mut ends = vec![in alloc; 0; loads.len()]?;
    let mut left = loads.len();
    while left > 0 {
        left -= 1;
        ends[left] = end_from(loads, ends.as_slice(), left);
    }
    Ok(ends)
}

impl LoadMap {
    /// The load map of loads.
    pub fn new(alloc: Global, loads: &[ProgramHeader]) -> Result<LoadMap, AllocError>
        requires { AreLoads loads.now }
        ensures load_map { IfOk result (λ load_map. IsLoadMap load_map) }
        ensures same { IfOk result (λ load_map. IsPermutation loads.now load_map.loads.items) }
    {
        let loads = sort_loads(alloc, loads)?;
        let ends = ends_of(alloc, loads.as_slice())?;
        Ok(LoadMap { loads, ends })
    }

    /// Tells whether the loads have each of so many addresses from one on.
    pub fn has_all(&self, address: u64, size: u64) -> bool
        requires { IsLoadMap self.now }
        ensures { result ≡ all_below (λ k. has_load self.now.loads.items (address + k)) size }
    {
        size == 0
            || match find_load(self.loads.as_slice(), address) {
                Some(i) => size <= self.ends[i] - address,
                None => false,
            }
    }
}
