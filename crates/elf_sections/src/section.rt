//! The section table, its headers, and the checks on it and on each section.
ghost use Rattle.std.specs.Prelude.{◌≡◌, ◌+◌, ◌*◌, ◌≤◌, ◌<◌, length, OnOk, true};
ghost use Rattle.elf_headers.specs.Fault.{Tells};
ghost use Rattle.elf_sections.specs.Sections.{section_header, section_of, section_header_offset};
ghost use Rattle.elf_sections.specs.Sections.{section_count};
ghost use Rattle.elf_sections.specs.Sections.{section_headers_offset, section_table_fault, is_symbol_table};
ghost use Rattle.elf_sections.specs.Sections.{is_code_section, has_sections, HasSectionTable};
ghost use Rattle.elf_sections.specs.Repeats.{is_same_table, repeats_table};

use crate::elf::{
    E_SHENTSIZE, E_SHNUM, E_SHOFF, SECTION_HEADER_SIZE, SHF_EXECINSTR, SHT_PROGBITS, SHT_SYMTAB,
};
use elf_headers::{LoadFault, u16_at, u32_at, u64_at};

/// A section header of the file.
#[derive(Clone, Copy, Debug)]
pub struct SectionHeader {
    pub kind: u32,
    pub flags: u64,
    /// Where its bytes go in memory.
    pub address: u64,
    /// Where its bytes begin in the file.
    pub offset: u64,
    /// Its size in bytes.
    pub size: u64,
    /// The number of the section that it names; a symbol table names its string table.
    pub link: u32,
    /// The size of one of its entries in bytes.
    pub entry_size: u64,
}

impl SectionHeader {
    /// Tells whether the section is a symbol table.
    pub(crate) fn is_symbol_table(&self) -> bool
        ensures { result ≡ is_symbol_table self.now }
    {
        self.kind == SHT_SYMTAB
    }

    /// Tells whether both name the same bytes, with the same size of an entry and the same link.
    fn is_same_table(&self, other: &SectionHeader) -> bool
        ensures { result ≡ is_same_table self.now other.now }
    {
        self.offset == other.offset
            && self.size == other.size
            && self.link == other.link
            && self.entry_size == other.entry_size
    }

    /// Tells whether the section has code.
    pub(crate) fn is_code(&self) -> bool
        ensures { result ≡ is_code_section self.now }
    {
        self.kind == SHT_PROGBITS && self.flags / SHF_EXECINSTR % 2 == 1
    }
}

/// Tells whether the file has a section table.
pub fn has_section_table(file: &[u8]) -> bool
    requires { 64 ≤ length file.now }
    ensures { result ≡ has_sections file.now }
{
    u64_at(file, E_SHOFF) != 0
}

/// How many section headers the file has.
pub fn count_sections(file: &[u8]) -> u32
    requires { HasSectionTable file.now }
    ensures { result ≡ section_count file.now }
{
    u32::from(u16_at(file, E_SHNUM))
}

/// The offset of a section header in the file.
pub fn section_header_offset(file: &[u8], index: u32) -> u64
    requires table { HasSectionTable file.now }
    requires number { index < section_count file.now }
    ensures offset { result ≡ section_header_offset file.now index }
    ensures inside { result + 64 ≤ length file.now }
{
    u64_at(file, E_SHOFF) + 64 * u64::from(index)
}

/// The section header at an offset in the file.
#[tactic(auto, unfolding(crate::specs::Sections::section_header))]
fn section_header_at(file: &[u8], offset: usize) -> SectionHeader
    requires { offset + 64 ≤ length file.now }
    ensures { result ≡ section_header file.now offset }
{
    SectionHeader {
        kind: u32_at(file, offset + 4),
        flags: u64_at(file, offset + 8),
        address: u64_at(file, offset + 16),
        offset: u64_at(file, offset + 24),
        size: u64_at(file, offset + 32),
        link: u32_at(file, offset + 40),
        entry_size: u64_at(file, offset + 56),
    }
}

/// A section header of the file.
pub fn read_section(file: &[u8], index: u32) -> SectionHeader
    requires table { HasSectionTable file.now }
    requires number { index < section_count file.now }
    ensures { result ≡ section_of file.now index }
{
    section_header_at(file, section_header_offset(file, index) as usize)
}

/// Tells whether section number `index` is a symbol table and the section before it is the same one.
#[tactic(auto, unfolding(crate::specs::Repeats::repeats_table))]
pub fn repeats_before(file: &[u8], index: u32) -> bool
    requires table { HasSectionTable file.now }
    requires number { index < section_count file.now }
    ensures { result ≡ repeats_table file.now index }
{
    if index == 0 {
        return false;
    }
    let header = read_section(file, index);
    let before = read_section(file, index - 1);
    header.is_symbol_table() && before.is_symbol_table() && header.is_same_table(&before)
}

/// Checks the section table.
#[tactic(auto, unfolding(crate::specs::Sections::section_table_fault))]
pub fn check_section_table(file: &[u8]) -> Result<(), LoadFault>
    requires { 64 ≤ length file.now }
    ensures tells { Tells result (section_table_fault file.now) }
    ensures inside { OnOk result (HasSectionTable file.now) }
{
    let offset = u64_at(file, E_SHOFF);
    let count = u16_at(file, E_SHNUM);
    if u16_at(file, E_SHENTSIZE) != SECTION_HEADER_SIZE || count == 0 {
        return Err(LoadFault::BadTable(offset));
    }
    let Some(end) = offset.checked_add(u64::from(SECTION_HEADER_SIZE) * u64::from(count)) else {
        return Err(LoadFault::BadTable(offset));
    };
    if end > file.len() as u64 {
        return Err(LoadFault::Truncated(file.len() as u64));
    }
    Ok(())
}
