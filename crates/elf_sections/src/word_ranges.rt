//! The words that sections and their mapping symbols make code, as ranges of consecutive words.
ghost use Rattle.std.specs.Prelude.{◌≡◌, ◌+◌, ◌*◌, ◌≤◌, ◌<◌, ◌^◌, ◌&&◌, ◌||◌, ℕ, All, IfOk, OnOk, length};
ghost use Rattle.std.specs.Prelude.{get_or, nat_le, nat_lt, true, None};
ghost use Rattle.std.specs.List.Sorted.{IsNonDecreasingBy};
ghost use Rattle.elf_headers.specs.Below.{any_below, first_below};
ghost use Rattle.elf_headers.specs.Loads.{loads_of};
ghost use Rattle.elf_sections.specs.declared.mapping_symbols.MappingSymbol.{MappingSymbol};
ghost use Rattle.elf_sections.specs.LoadMap.{AreLoads};
ghost use Rattle.elf_sections.specs.Sections.{section_count, section_fault, HasSectionTable};
ghost use Rattle.elf_sections.specs.MappingSymbols.{mapping_symbols_of, is_code_at};
ghost use Rattle.elf_sections.specs.SymbolOrder.{last_symbol, AreSymbolsInOrder, SayTheSame};
ghost use Rattle.elf_sections.specs.Code.{has_word, is_code_in, is_code_word};
ghost use Rattle.elf_sections.specs.WordRanges.{has_number, is_in_ranges, AreWordRanges};

use crate::mapping_symbols::MappingSymbol;
use crate::section::{SectionHeader, count_sections, read_section};
use std::alloc::{AllocError, Global};

/// The words from number `start` on up to number `end`; word number `n` stands at address `4 * n`.
#[derive(Clone, Copy, Drop)]
pub struct WordRange {
    pub start: u64,
    pub end: u64,
}

/// The words that lie wholly in the section.
fn words_of(s: &SectionHeader) -> WordRange
    requires { s.now.address + s.now.size ≤ 2 ^ 47 }
    ensures words { (n : ℕ) → has_number result n ≡ has_word s.now (4 * n) }
    ensures low { result.end ≤ 2 ^ 45 }
{
    WordRange {
        start: s.address.div_ceil(4),
        end: (s.address + s.size) / 4,
    }
}

/// Adds the words from `start` on up to `end`, where they are code.
fn push_code(
    code: bool,
    start: u64,
    end: u64,
    ranges: &mut Vec<WordRange>,
) -> Result<(), AllocError>
    requires end { end ≤ 2 ^ 45 }
    requires before { AreWordRanges ranges.old.items }
    ensures words { OnOk result ((n : ℕ) → is_in_ranges ranges.new.items n
        ≡ (is_in_ranges ranges.old.items n || (code && nat_le start n && nat_lt n end))) }
    ensures low { OnOk result (AreWordRanges ranges.new.items) }
{
    if code && start < end {
        ranges.push(WordRange { start, end })?;
    }
    Ok(())
}

/// Adds those of a section's words that its own mapping symbols make code.
fn add_code(
    words: WordRange,
    number: u32,
    own: &[MappingSymbol],
    ranges: &mut Vec<WordRange>,
) -> Result<(), AllocError>
    requires section { All (λ m. m.section ≡ number) own.now }
    requires order { IsNonDecreasingBy (λ m. m.value) own.now }
    requires end { words.end ≤ 2 ^ 45 }
    requires before { AreWordRanges ranges.old.items }
    ensures words { OnOk result ((n : ℕ) → is_in_ranges ranges.new.items n
        ≡ (is_in_ranges ranges.old.items n || (has_number words n && is_code_at own.now number (4 * n)))) }
    ensures low { OnOk result (AreWordRanges ranges.new.items) }
{
    let mut start = words.start;
    let mut code = true;
    for symbol in own {
        let next = symbol.value.div_ceil(4);
        push_code(code, start, next.min(words.end), ranges)?;
        start = start.max(next);
        code = symbol.content.is_code();
    }
    push_code(code, start, words.end, ranges)
}

/// How many of the mapping symbols, in order of section, are of sections below number `i`.
fn symbols_below_section(symbols: &[MappingSymbol], i: u64) -> usize
    requires { IsNonDecreasingBy (λ m. m.section) symbols.now }
    ensures within { result ≤ length symbols.now }
    ensures below { (k : ℕ) (d : MappingSymbol) → k < result → (get_or symbols.now k d).section < i }
    ensures above { (k : ℕ) (d : MappingSymbol) → result ≤ k → k < length symbols.now
        → i ≤ (get_or symbols.now k d).section }
{
    symbols.partition_point(|m| u64::from(m.section) < i)
}

/// The mapping symbols of section number `i`, of mapping symbols in order.
fn symbols_of_section(symbols: &[MappingSymbol], i: u32) -> &[MappingSymbol]
    requires { AreSymbolsInOrder symbols.now }
    ensures section { All (λ m. m.section ≡ i) result.now }
    ensures order { IsNonDecreasingBy (λ m. m.value) result.now }
    ensures same { (value : ℕ) → last_symbol i value result.now ≡ last_symbol i value symbols.now }
{
    let number = u64::from(i);
    let rest = &symbols[symbols_below_section(symbols, number)..];
    &rest[..symbols_below_section(rest, number + 1)]
}

/// Adds the words that section number `i` makes code.
fn add_section(
    file: &[u8],
    i: u32,
    symbols: &[MappingSymbol],
    ranges: &mut Vec<WordRange>,
) -> Result<(), AllocError>
    requires table { HasSectionTable file.now }
    requires number { i < section_count file.now }
    requires checked { section_fault file.now i ≡ None }
    requires loads { AreLoads (loads_of file.now) }
    requires order { AreSymbolsInOrder symbols.now }
    requires same { SayTheSame symbols.now (mapping_symbols_of file.now) }
    requires before { AreWordRanges ranges.old.items }
    ensures words { OnOk result ((n : ℕ) → is_in_ranges ranges.new.items n
        ≡ (is_in_ranges ranges.old.items n || is_code_in file.now (4 * n) i)) }
    ensures low { OnOk result (AreWordRanges ranges.new.items) }
{
    let s = read_section(file, i);
    if !s.is_code() || s.size == 0 {
        return Ok(());
    }
    add_code(words_of(&s), i, symbols_of_section(symbols, i), ranges)
}

/// The words that sections make code.
pub fn gather_ranges(
    alloc: Global,
    file: &[u8],
    symbols: &[MappingSymbol],
) -> Result<Vec<WordRange>, AllocError>
    requires table { HasSectionTable file.now }
    requires checked { first_below (section_fault file.now) (section_count file.now) ≡ None }
    requires loads { AreLoads (loads_of file.now) }
    requires order { AreSymbolsInOrder symbols.now }
    requires same { SayTheSame symbols.now (mapping_symbols_of file.now) }
    ensures words { IfOk result (λ ranges. (n : ℕ) → is_in_ranges ranges.items n
        ≡ is_code_word file.now (4 * n)) }
    ensures low { IfOk result (λ ranges. AreWordRanges ranges.items) }
{
    let mut ranges = Vec::new(alloc);
    for i in 0..count_sections(file) {
        add_section(file, i, symbols, &mut ranges)?;
    }
    Ok(ranges)
}
