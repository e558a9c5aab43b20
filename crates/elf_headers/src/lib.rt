//! The headers of a program file: the file's own and its program headers, with all checks on them, and the
//! numbers of a file.
#![tactic(auto)]

mod elf;
mod fault;
mod file_header;
mod headers;
mod little_endian;
mod overlap;
mod pages;
mod program_header;
mod segments;
mod spans;

pub use elf::{
    E_ENTRY, E_HEADER_SIZE, ELF_CLASS_AND_DATA, ELF_MAGIC, EM_AARCH64, ET_EXEC, EV_CURRENT, PF_R,
    PF_W, PF_X, PROGRAM_HEADER_SIZE, PT_LOAD, PT_NULL,
};
pub use fault::LoadFault;
pub use headers::read_headers;
pub use little_endian::{u8_at, u16_at, u32_at, u64_at};
pub use program_header::ProgramHeader;
