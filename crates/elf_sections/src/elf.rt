//! The constants of ELF-64 for sections: where the fields of the file's header are, in bytes, and the values
//! of fields.

/// The offset of the field that has the offset of the section headers.
pub const E_SHOFF: usize = 40;
/// The offset of the size of a section header.
pub const E_SHENTSIZE: usize = 58;
/// The offset of the number of section headers.
pub const E_SHNUM: usize = 60;

/// The size of a section header in bytes.
pub const SECTION_HEADER_SIZE: u16 = 64;
/// The size of a symbol in bytes.
pub const SYMBOL_SIZE: u64 = 24;

/// The type of a section header that is not in use.
pub const SHT_NULL: u32 = 0;
/// The type of a section whose bytes are the program's own.
pub const SHT_PROGBITS: u32 = 1;
/// The type of a symbol table.
pub const SHT_SYMTAB: u32 = 2;
/// The type of a string table.
pub const SHT_STRTAB: u32 = 3;

/// The flag of a section that can be written.
pub const SHF_WRITE: u64 = 1;
/// The flag of a section that is in memory.
pub const SHF_ALLOC: u64 = 2;
/// The flag of a section with code.
pub const SHF_EXECINSTR: u64 = 4;
