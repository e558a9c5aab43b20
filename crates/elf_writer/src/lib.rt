//! The writer of program files: the bytes of an ELF64 executable with an object's parts, each a load of its
//! own, and its mapping symbols.
//!
//! Here stands which bytes they are, and what a reader finds at which offset of them; that loading them
//! gives the object's image is shown in `elf_loader`.
#![tactic(auto)]

mod file;
mod layout;
mod mapping_symbols;

pub use file::write_file;
