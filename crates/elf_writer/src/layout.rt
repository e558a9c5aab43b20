//! The headers of a file that is written.
ghost use Rattle.std.specs.Prelude.{◌≡◌, ◌+◌, ◌*◌, ◌≤◌, ◌++◌, true, OnOk};
ghost use Rattle.byteorder.specs.Endian.{little_bytes};
ghost use Rattle.sm_types.specs.Objects.{page_after, data_address};
ghost use Rattle.elf_writer.specs.Layout.{are_narrow, fields_bytes, data_offset, symbols_offset, load_count};
ghost use Rattle.elf_writer.specs.Layout.{text_segment, data_segment, segment_align, text_section};
ghost use Rattle.elf_writer.specs.Layout.{data_section, symbols_section, strings_section, header_fields};
ghost use Rattle.elf_writer.specs.Layout.{segment_fields, section_fields, segments_fields};
ghost use Rattle.elf_writer.specs.Layout.{part_sections_fields, table_sections_fields, all_fields, IsSmall};

use elf_headers::{
    E_HEADER_SIZE, ELF_CLASS_AND_DATA, ELF_MAGIC, EM_AARCH64, ET_EXEC, EV_CURRENT, PF_R, PF_W,
    PF_X, PROGRAM_HEADER_SIZE, PT_LOAD, PT_NULL, ProgramHeader,
};
use elf_sections::{
    SECTION_HEADER_SIZE, SHF_ALLOC, SHF_EXECINSTR, SHF_WRITE, SHT_NULL, SHT_PROGBITS, SHT_STRTAB,
    SHT_SYMTAB, SYMBOL_SIZE, SectionHeader,
};
use sm_types::TEXT_ADDRESS;
use std::alloc::AllocError;

/// Where the text stands in the file.
pub const TEXT_OFFSET: u64 = 4096;
/// Where the program headers stand in the file: after its header.
const PROGRAM_HEADERS_OFFSET: u64 = 64;
/// Where the section table stands in the file.
const SECTION_TABLE_OFFSET: u64 = 176;
/// Where the names of symbols stand in the file.
const STRINGS_OFFSET: u64 = 560;
/// The size of the names of symbols.
const STRINGS_SIZE: u64 = 7;
/// Where the names of sections stand in the file.
const NAMES_OFFSET: u64 = 568;
/// The size of the names of sections.
const NAMES_SIZE: u64 = 39;

/// The number of sections, the null section among them.
const SECTION_COUNT: u64 = 6;
/// The number of the text among the sections.
pub const TEXT_INDEX: u64 = 1;
/// The number of the names of symbols among the sections.
const STRINGS_INDEX: u32 = 4;
/// The number of the names of sections among the sections.
const NAMES_INDEX: u64 = 5;
/// The offset of `.text` in the names of sections.
const TEXT_NAME: u64 = 1;
/// The offset of `.data` in the names of sections.
const DATA_NAME: u64 = 7;
/// The offset of `.symtab` in the names of sections.
const SYMTAB_NAME: u64 = 13;
/// The offset of `.strtab` in the names of sections.
const STRTAB_NAME: u64 = 21;
/// The offset of `.shstrtab` in the names of sections.
const SHSTRTAB_NAME: u64 = 29;

/// The header of no section.
const NO_SECTION: SectionHeader = SectionHeader {
    kind: SHT_NULL,
    flags: 0,
    address: 0,
    offset: 0,
    size: 0,
    link: 0,
    entry_size: 0,
};

/// The sizes of the parts of a file.
#[derive(Clone, Copy)]
pub struct Layout {
    /// The address of the first instruction.
    pub entry: u64,
    pub text_size: u64,
    pub data_size: u64,
    /// The number of symbols, the null symbol among them.
    pub symbol_count: u64,
}

/// The first multiple of 4096 that is not below the offset or address.
fn next_page(offset: u64) -> u64
    requires { offset ≤ 16777216 }
    ensures { result ≡ page_after offset }
{
    (offset + 4095) / 4096 * 4096
}

impl Layout {
    /// Where the data stands in the file.
    #[tactic(auto, unfolding(crate::specs::Layout::data_offset))]
    pub fn data_offset(&self) -> u64
        requires { IsSmall self.now }
        ensures offset { result ≡ data_offset self.now }
        ensures after { 4096 + self.now.text_size ≤ result }
        ensures near { result ≤ 8192 + self.now.text_size }
    {
        next_page(TEXT_OFFSET + self.text_size)
    }

    /// The address of the data.
    fn data_address(&self) -> u64
        requires { IsSmall self.now }
        ensures { result ≡ data_address self.now.text_size }
    {
        next_page(TEXT_ADDRESS + self.text_size)
    }

    /// Where the symbols stand in the file.
    #[tactic(auto, unfolding(crate::specs::Layout::symbols_offset))]
    pub fn symbols_offset(&self) -> u64
        requires { IsSmall self.now }
        ensures offset { result ≡ symbols_offset self.now }
        ensures after { data_offset self.now + self.now.data_size ≤ result }
        ensures near { result ≤ data_offset self.now + self.now.data_size + 7 }
        ensures low { result ≤ 16777216 }
    {
        (self.data_offset() + self.data_size + 7) / 8 * 8
    }

    /// How many loads there are.
    fn load_count(&self) -> u64
        ensures { result ≡ load_count self.now }
    {
        if self.data_size == 0 { 1 } else { 2 }
    }

    /// The load of the text.
    #[tactic(auto, unfolding(crate::specs::Layout::text_segment))]
    fn text_segment(&self) -> ProgramHeader
        ensures { result ≡ text_segment self.now }
    {
        ProgramHeader {
            kind: PT_LOAD,
            flags: PF_R + PF_X,
            offset: TEXT_OFFSET,
            address: TEXT_ADDRESS,
            file_size: self.text_size,
            memory_size: self.text_size,
        }
    }

    /// The load of the data, or zeros where there is no data.
    #[tactic(auto, unfolding(crate::specs::Layout::data_segment))]
    fn data_segment(&self) -> ProgramHeader
        requires { IsSmall self.now }
        ensures { result ≡ data_segment self.now }
    {
        if self.data_size == 0 {
            ProgramHeader {
                kind: PT_NULL,
                flags: 0,
                offset: 0,
                address: 0,
                file_size: 0,
                memory_size: 0,
            }
        } else {
            ProgramHeader {
                kind: PT_LOAD,
                flags: PF_R + PF_W,
                offset: self.data_offset(),
                address: self.data_address(),
                file_size: self.data_size,
                memory_size: self.data_size,
            }
        }
    }

    /// The section of the text.
    #[tactic(auto, unfolding(crate::specs::Layout::text_section))]
    fn text_section(&self) -> SectionHeader
        ensures { result ≡ text_section self.now }
    {
        SectionHeader {
            kind: SHT_PROGBITS,
            flags: SHF_ALLOC + SHF_EXECINSTR,
            address: TEXT_ADDRESS,
            offset: TEXT_OFFSET,
            size: self.text_size,
            link: 0,
            entry_size: 0,
        }
    }

    /// The section of the data.
    #[tactic(auto, unfolding(crate::specs::Layout::data_section))]
    fn data_section(&self) -> SectionHeader
        requires { IsSmall self.now }
        ensures { result ≡ data_section self.now }
    {
        SectionHeader {
            kind: SHT_PROGBITS,
            flags: SHF_WRITE + SHF_ALLOC,
            address: self.data_address(),
            offset: self.data_offset(),
            size: self.data_size,
            link: 0,
            entry_size: 0,
        }
    }

    /// The symbol table.
    #[tactic(auto, unfolding(crate::specs::Layout::symbols_section))]
    fn symbols_section(&self) -> SectionHeader
        requires { IsSmall self.now }
        ensures { result ≡ symbols_section self.now }
    {
        SectionHeader {
            kind: SHT_SYMTAB,
            flags: 0,
            address: 0,
            offset: self.symbols_offset(),
            size: SYMBOL_SIZE * self.symbol_count,
            link: STRINGS_INDEX,
            entry_size: SYMBOL_SIZE,
        }
    }
}

/// A string table.
#[tactic(auto, unfolding(crate::specs::Layout::strings_section))]
fn strings_section(offset: u64, size: u64) -> SectionHeader
    ensures { result ≡ strings_section offset size }
{
    SectionHeader {
        kind: SHT_STRTAB,
        flags: 0,
        address: 0,
        offset: offset,
        size,
        link: 0,
        entry_size: 0,
    }
}

/// Appends the low bytes of a value, little-endian.
fn put(out: &mut Vec<u8>, width: usize, value: u64) -> Result<(), AllocError>
    requires { width ≤ 8 }
    ensures { OnOk result (out.new.items ≡ out.old.items ++ little_bytes width value) }
{
    let bytes = value.to_le_bytes();
    out.extend_from_slice(&bytes[..width])?;
    Ok(())
}

/// Appends fields of a width and a value.
pub fn put_fields(out: &mut Vec<u8>, fields: &[(usize, u64)]) -> Result<(), AllocError>
    requires { are_narrow fields.now ≡ true }
    ensures { OnOk result (out.new.items ≡ out.old.items ++ fields_bytes fields.now) }
{
    for field in fields {
        put(out, field.0, field.1)?;
    }
    Ok(())
}

/// Appends the file's header.
#[tactic(auto, unfolding(crate::specs::Layout::header_fields))]
fn put_header(out: &mut Vec<u8>, layout: &Layout) -> Result<(), AllocError>
    ensures { OnOk result (out.new.items ≡ out.old.items ++ fields_bytes (header_fields layout.now)) }
{
    let fields = [
        (4, u64::from(ELF_MAGIC)),
        (2, u64::from(ELF_CLASS_AND_DATA)),
        (1, u64::from(EV_CURRENT)),
        (1, 0), // the rest of e_ident
        (8, 0),
        (2, u64::from(ET_EXEC)),
        (2, u64::from(EM_AARCH64)),
        (4, u64::from(EV_CURRENT)),
        (8, layout.entry),
        (8, PROGRAM_HEADERS_OFFSET),
        (8, SECTION_TABLE_OFFSET),
        (4, 0), // e_flags
        (2, E_HEADER_SIZE as u64),
        (2, u64::from(PROGRAM_HEADER_SIZE)),
        (2, layout.load_count()),
        (2, u64::from(SECTION_HEADER_SIZE)),
        (2, SECTION_COUNT),
        (2, NAMES_INDEX),
    ];
    put_fields(out, &fields)
}

/// Appends a program header.
#[tactic(auto, unfolding(crate::specs::Layout::segment_fields))]
fn put_segment(out: &mut Vec<u8>, segment: &ProgramHeader) -> Result<(), AllocError>
    ensures { OnOk result (out.new.items ≡ out.old.items ++ fields_bytes (segment_fields segment.now)) }
{
    let align = if segment.kind == PT_NULL { 0 } else { 4096 };
    let fields = [
        (4, u64::from(segment.kind)),
        (4, u64::from(segment.flags)),
        (8, segment.offset),
        (8, segment.address),
        (8, segment.address),
        (8, segment.file_size),
        (8, segment.memory_size),
        (8, align),
    ];
    put_fields(out, &fields)
}

/// Appends a section header.
#[tactic(auto, unfolding(crate::specs::Layout::section_fields))]
fn put_section(
    out: &mut Vec<u8>,
    name: u64,
    section: &SectionHeader,
    info: u64,
    align: u64,
) -> Result<(), AllocError>
    ensures { OnOk result (out.new.items ≡ out.old.items
        ++ fields_bytes (section_fields name section.now info align)) }
{
    let fields = [
        (4, name),
        (4, u64::from(section.kind)),
        (8, section.flags),
        (8, section.address),
        (8, section.offset),
        (8, section.size),
        (4, u64::from(section.link)),
        (4, info),
        (8, align),
        (8, section.entry_size),
    ];
    put_fields(out, &fields)
}

/// Appends the program headers.
fn put_segments(out: &mut Vec<u8>, layout: &Layout) -> Result<(), AllocError>
    requires { IsSmall layout.now }
    ensures { OnOk result (out.new.items ≡ out.old.items ++ fields_bytes (segments_fields layout.now)) }
{
    put_segment(out, &layout.text_segment())?;
    put_segment(out, &layout.data_segment())
}

/// Appends the headers of the sections of the object's parts, with that of no section in front.
fn put_part_sections(out: &mut Vec<u8>, layout: &Layout) -> Result<(), AllocError>
    requires { IsSmall layout.now }
    ensures { OnOk result (out.new.items ≡ out.old.items ++ fields_bytes (part_sections_fields layout.now)) }
{
    put_section(out, 0, &NO_SECTION, 0, 0)?;
    put_section(out, TEXT_NAME, &layout.text_section(), 0, 4)?;
    put_section(out, DATA_NAME, &layout.data_section(), 0, 8)
}

/// Appends the headers of the symbol table and the string tables.
fn put_table_sections(out: &mut Vec<u8>, layout: &Layout) -> Result<(), AllocError>
    requires { IsSmall layout.now }
    ensures { OnOk result (out.new.items ≡ out.old.items ++ fields_bytes (table_sections_fields layout.now)) }
{
    put_section(
        out,
        SYMTAB_NAME,
        &layout.symbols_section(),
        layout.symbol_count,
        8,
    )?;
    let strings = strings_section(STRINGS_OFFSET, STRINGS_SIZE);
    put_section(out, STRTAB_NAME, &strings, 0, 1)?;
    let names = strings_section(NAMES_OFFSET, NAMES_SIZE);
    put_section(out, SHSTRTAB_NAME, &names, 0, 1)
}

/// Appends all headers.
pub fn put_headers(out: &mut Vec<u8>, layout: &Layout) -> Result<(), AllocError>
    requires { IsSmall layout.now }
    ensures { OnOk result (out.new.items ≡ out.old.items ++ fields_bytes (all_fields layout.now)) }
{
    put_header(out, layout)?;
    put_segments(out, layout)?;
    put_part_sections(out, layout)?;
    put_table_sections(out, layout)
}
