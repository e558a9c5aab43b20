//! The code words of a program file.
ghost use Rattle.std.specs.Prelude.{◌≡◌, ◌≢◌, ◌+◌, ◌*◌, ◌≤◌, ◌<◌, ◌^◌, ℕ, length, IfOk, IfErr, OnOk, None};
ghost use Rattle.std.specs.Prelude.{Some, true, max};
ghost use Rattle.std.specs.List.Sorted.{IsNonDecreasingBy, IsPermutation};
ghost use Rattle.elf_headers.specs.Below.{first_below, answers_below};
ghost use Rattle.elf_headers.specs.Loads.{loads_of, AreSound};
ghost use Rattle.elf_sections.specs.LoadMap.{AreLoads, AreLoadsOf};
ghost use Rattle.elf_sections.specs.Sections.{section_count, section_fault, sections_fault, HasSectionTable};
ghost use Rattle.elf_sections.specs.Code.{is_code_word, code_word, code_words};
ghost use Rattle.elf_sections.specs.WordRanges.{is_in_ranges, AreWordRanges};

use crate::checks::check_sections;
use crate::load_map::LoadMap;
use crate::loaded_words::{near_load, word_at};
use crate::mapping_symbols::{gather_mapping_symbols, sort_mapping_symbols};
use crate::section::{check_section_table, has_section_table};
use crate::word_ranges::{WordRange, gather_ranges};
use elf_headers::{LoadFault, ProgramHeader};
use std::alloc::{AllocError, Global};

/// The ranges of the words that sections make code, in order of their first words.
fn sort_ranges(alloc: Global, file: &[u8]) -> Result<Vec<WordRange>, AllocError>
    requires table { HasSectionTable file.now }
    requires checked { first_below (section_fault file.now) (section_count file.now) ≡ None }
    requires loads { AreLoads (loads_of file.now) }
    ensures words { IfOk result (λ ranges. (n : ℕ) → is_in_ranges ranges.items n
        ≡ is_code_word file.now (4 * n)) }
    ensures low { IfOk result (λ ranges. AreWordRanges ranges.items) }
    ensures order { IfOk result (λ ranges. IsNonDecreasingBy (λ s. s.start) ranges.items) }
{
    let mut symbols = gather_mapping_symbols(alloc, file)?;
    sort_mapping_symbols(&mut symbols)?;
    let mut ranges = gather_ranges(alloc, file, symbols.as_slice())?;
    ranges.sort_by_key(|s| s.start)?;
    Ok(ranges)
}

/// Adds the code words from number `start` on up to number `end`, all of which are code.
fn list_words(
    file: &[u8],
    loads: &[ProgramHeader],
    start: u64,
    end: u64,
    code: &mut Vec<(u64, u32)>,
) -> Result<(), AllocError>
    requires loads { AreLoadsOf file.now loads.now }
    requires low { end ≤ 2 ^ 45 }
    requires words { (n : ℕ) → start ≤ n → n < end → is_code_word file.now (4 * n) ≡ true }
    requires before { code.old.items ≡ answers_below (code_word file.now) start }
    ensures { OnOk result (code.new.items ≡ answers_below (code_word file.now) (max start end)) }
{
    let mut near = 0;
    for n in start..end {
        let address = 4 * n;
        near = near_load(loads, near, address);
        code.push((address, word_at(file, loads, near, address)))?;
    }
    Ok(())
}

/// The code words with their addresses.
fn list_code(
    alloc: Global,
    file: &[u8],
    loads: &[ProgramHeader],
    ranges: &[WordRange],
) -> Result<Vec<(u64, u32)>, AllocError>
    requires loads { AreLoadsOf file.now loads.now }
    requires words { (n : ℕ) → is_in_ranges ranges.now n ≡ is_code_word file.now (4 * n) }
    requires low { AreWordRanges ranges.now }
    requires order { IsNonDecreasingBy (λ s. s.start) ranges.now }
    ensures { IfOk result (λ code. code.items ≡ answers_below (code_word file.now) (2 ^ 45)) }
{
    let mut code = Vec::new(alloc);
    let mut next = 0;
    for range in ranges {
        list_words(file, loads, range.start.max(next), range.end, &mut code)?;
        next = next.max(range.end);
    }
    Ok(code)
}

/// The code words with their addresses, where all sections pass their checks.
fn code_of(
    alloc: Global,
    file: &[u8],
    loads: &[ProgramHeader],
) -> Result<Vec<(u64, u32)>, AllocError>
    requires table { HasSectionTable file.now }
    requires checked { first_below (section_fault file.now) (section_count file.now) ≡ None }
    requires loads { AreLoadsOf file.now loads.now }
    ensures { IfOk result (λ code. code.items ≡ answers_below (code_word file.now) (2 ^ 45)) }
{
    let ranges = sort_ranges(alloc, file)?;
    list_code(alloc, file, loads, ranges.as_slice())
}

/// The code words of a program file with their addresses, in order of address, or the fault of the first
/// check on its section table that fails, or `Memory` where it is out of memory. `loads` are the file's
/// loads.
pub fn read_code(
    alloc: Global,
    file: &[u8],
    loads: &[ProgramHeader],
) -> Result<Vec<(u64, u32)>, LoadFault>
    requires header { 64 ≤ length file.now }
    requires loads { loads.now ≡ loads_of file.now }
    requires sound { AreSound file.now loads.now }
    ensures accepted { IfOk result (λ code. sections_fault file.now ≡ None) }
    ensures code { IfOk result (λ code. code.items ≡ code_words file.now) }
    ensures refused { IfErr result (λ fault. fault ≢ LoadFault.Memory → sections_fault file.now
        ≡ Some fault) }
{
    if !has_section_table(file) {
        return Ok(Vec::new(alloc));
    }
    check_section_table(file)?;
    let load_map = LoadMap::new(alloc, loads)?;
    check_sections(file, &load_map)?;
    let code = code_of(alloc, file, load_map.loads.as_slice())?;
    Ok(code)
}
