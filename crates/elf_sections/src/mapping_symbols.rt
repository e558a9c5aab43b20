//! Mapping symbols.
ghost use Rattle.std.specs.Prelude.{◌≡◌, ◌==◌, ◌+◌, ◌*◌, ◌≤◌, ◌<◌, ◌++◌, ℕ, length, true, None, IfOk, OnOk};
ghost use Rattle.sm_types.specs.Objects.{name_says};
ghost use Rattle.elf_headers.specs.Below.{first_below, answers};
ghost use Rattle.elf_headers.specs.Header.{number_at};
ghost use Rattle.elf_sections.specs.Sections.{section_count, section_fault, is_in_file, ends_inside};
ghost use Rattle.elf_sections.specs.Sections.{is_good_table, HasSectionTable};
ghost use Rattle.elf_sections.specs.MappingSymbols.{name_in, mapping_symbol_at, table_mapping_symbols};
ghost use Rattle.elf_sections.specs.MappingSymbols.{mapping_symbols_below, mapping_symbols_of};
ghost use Rattle.elf_sections.specs.MappingSymbols.{HasEnd};
ghost use Rattle.elf_sections.specs.SymbolOrder.{AreSymbolsInOrder, SayTheSame};
ghost use Rattle.elf_sections.specs.FirstBytes.{is_mapping_name};

use crate::elf::SYMBOL_SIZE;
use crate::section::{SectionHeader, count_sections, read_section, repeats_before};
use elf_headers::{u8_at, u16_at, u32_at, u64_at};
use sm_types::Content;
use std::alloc::{AllocError, Global};

/// A mapping symbol: its content begins at its value, in the section of that number.
#[derive(Clone, Copy, Drop)]
pub struct MappingSymbol {
    pub section: u16,
    pub value: u64,
    pub content: Content,
}

/// Tells whether the name at an offset is `$` and the letter, or these followed by `.` and a suffix.
#[tactic(auto, unfolding(crate::specs::FirstBytes::is_mapping_name))]
fn names_mapping(file: &[u8], offset: usize, letter: u8) -> bool
    requires letter { 0 < letter }
    requires ends { HasEnd file.now offset }
    ensures { result ≡ is_mapping_name file.now offset letter }
{
    u8_at(file, offset) == b'$'
        && u8_at(file, offset + 1) == letter
        && (u8_at(file, offset + 2) == 0 || u8_at(file, offset + 2) == b'.')
}

/// What the name at an offset says of the bytes from its symbol's address on.
#[tactic(auto, using(crate::proofs::MappingNames::name_says_at))]
fn name_says(file: &[u8], offset: usize) -> Option<Content>
    requires ends { HasEnd file.now offset }
    ensures { result ≡ name_says (name_in file.now offset) }
{
    if names_mapping(file, offset, b'x') {
        Some(Content::Code)
    } else if names_mapping(file, offset, b'd') {
        Some(Content::Data)
    } else {
        None
    }
}

/// The symbol at an offset, where it is a mapping symbol.
#[tactic(auto, unfolding(crate::specs::MappingSymbols::mapping_symbol_at))]
fn read_mapping_symbol(file: &[u8], strings: &SectionHeader, offset: usize) -> Option<MappingSymbol>
    requires inside { offset + 24 ≤ length file.now }
    requires strings { is_in_file file.now strings.now ≡ true }
    requires ends { ends_inside file.now strings.now (number_at file.now offset 4) ≡ true }
    ensures { result ≡ mapping_symbol_at file.now strings.now offset }
{
    let name = strings.offset as usize + u32_at(file, offset) as usize;
    match name_says(file, name) {
        Some(content) => Some(MappingSymbol {
            section: u16_at(file, offset + 6),
            value: u64_at(file, offset + 8),
            content,
        }),
        None => None,
    }
}

/// Adds the mapping symbol, if there is one.
fn push_symbol(
    symbol: Option<MappingSymbol>,
    symbols: &mut Vec<MappingSymbol>,
) -> Result<(), AllocError>
    ensures { OnOk result (symbols.new.items ≡ symbols.old.items ++ answers symbol) }
{
    match symbol {
        Some(symbol) => symbols.push(symbol)?,
        None => {}
    }
    Ok(())
}

/// Adds the mapping symbols of a symbol table.
#[tactic(auto, unfolding(crate::specs::MappingSymbols::table_mapping_symbols))]
fn add_mapping_symbols(
    file: &[u8],
    s: &SectionHeader,
    symbols: &mut Vec<MappingSymbol>,
) -> Result<(), AllocError>
    requires table { HasSectionTable file.now }
    requires good { is_good_table file.now s.now ≡ true }
    ensures { OnOk result (symbols.new.items ≡ symbols.old.items ++ table_mapping_symbols file.now s.now) }
{
    let strings = read_section(file, s.link);
    for k in 0..s.size / SYMBOL_SIZE {
        push_symbol(
            read_mapping_symbol(file, &strings, (s.offset + SYMBOL_SIZE * k) as usize),
            symbols,
        )?;
    }
    Ok(())
}

/// Adds the mapping symbols of section number `i`, where it is a symbol table that is not the same as the
/// section before it.
fn add_section(file: &[u8], i: u32, symbols: &mut Vec<MappingSymbol>) -> Result<(), AllocError>
    requires table { HasSectionTable file.now }
    requires number { i < section_count file.now }
    requires checked { section_fault file.now i ≡ None }
    requires before { SayTheSame symbols.old.items (mapping_symbols_below file.now i) }
    ensures { OnOk result (SayTheSame symbols.new.items (mapping_symbols_below file.now (i + 1))) }
{
    let s = read_section(file, i);
    if !s.is_symbol_table() || repeats_before(file, i) {
        return Ok(());
    }
    add_mapping_symbols(file, &s, symbols)
}

/// The mapping symbols of all symbol tables, in the order of the tables; of equal tables in a row the first
/// alone is read.
pub fn gather_mapping_symbols(alloc: Global, file: &[u8]) -> Result<Vec<MappingSymbol>, AllocError>
    requires table { HasSectionTable file.now }
    requires checked { first_below (section_fault file.now) (section_count file.now) ≡ None }
    ensures { IfOk result (λ symbols. SayTheSame symbols.items (mapping_symbols_of file.now)) }
{
    let mut symbols = Vec::new(alloc);
    for i in 0..count_sections(file) {
        add_section(file, i, &mut symbols)?;
    }
    Ok(symbols)
}

/// Puts the mapping symbols in order of section and value; equal ones keep their order.
pub fn sort_mapping_symbols(symbols: &mut Vec<MappingSymbol>) -> Result<(), AllocError>
    ensures order { OnOk result (AreSymbolsInOrder symbols.new.items) }
    ensures same { OnOk result (SayTheSame symbols.new.items symbols.old.items) }
{
    symbols.sort_by_key(|m| (m.section, m.value))?;
    Ok(())
}
