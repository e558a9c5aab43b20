//! Program files: `load` gives the image of an ELF64 executable, or the first check that the file fails;
//! `write_elf` gives the file of an object, whose image is the object's.
//!
//! The checks on the headers stand in `elf_headers`, those on the sections in `elf_sections`; here each
//! code word is looked up in the tables of instructions, and the image is made.
#![tactic(auto)]

mod laws;
mod loader;
mod parts;
mod words;
mod write;

pub use elf_headers::LoadFault;
pub use laws::{one_image, some_image};
pub use loader::load;
pub use write::write_elf;
