//! The sections of a program file: the checks on the section table, the symbol tables and the code
//! sections, and the code words.
#![tactic(auto)]

mod checks;
mod code;
mod elf;
mod load_map;
mod loaded_words;
mod mapping_symbols;
mod section;
mod symbols;
mod word_ranges;

pub use code::read_code;
pub use elf::{
    SECTION_HEADER_SIZE, SHF_ALLOC, SHF_EXECINSTR, SHF_WRITE, SHT_NULL, SHT_PROGBITS, SHT_STRTAB,
    SHT_SYMTAB, SYMBOL_SIZE,
};
pub use section::SectionHeader;
