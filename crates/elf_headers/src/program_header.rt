//! A program header.
ghost use Rattle.std.specs.Prelude.{◌≡◌, ◌+◌, ◌<◌, ◌^◌};

use crate::elf::{PF_X, PT_DYNAMIC, PT_INTERP, PT_LOAD, PT_TLS};

/// A program header of the file.
#[derive(Clone, Copy, Debug)]
pub struct ProgramHeader {
    pub kind: u32,
    pub flags: u32,
    /// Where its bytes begin in the file, in bytes.
    pub offset: u64,
    /// The address of its first byte in memory.
    pub address: u64,
    /// How many bytes it has in the file.
    pub file_size: u64,
    /// How many bytes it has in memory.
    pub memory_size: u64,
}

impl ProgramHeader {
    ghost use Rattle.elf_headers.specs.Segments.{is_dynamic, is_load};
    ghost use Rattle.elf_headers.specs.Loads.{has_executable, share};

    /// Tells whether it asks for dynamic linking or thread-local storage.
    pub(crate) fn is_dynamic(&self) -> bool
        ensures { result ≡ is_dynamic self.now }
    {
        self.kind == PT_DYNAMIC || self.kind == PT_INTERP || self.kind == PT_TLS
    }

    /// Tells whether it is a load that has a byte.
    pub(crate) fn is_load(&self) -> bool
        ensures { result ≡ is_load self.now }
    {
        self.kind == PT_LOAD && !(self.memory_size == 0 && self.file_size == 0)
    }

    /// Tells whether it has the address in memory, where it can be executed.
    pub(crate) fn has_executable(&self, address: u64) -> bool
        ensures { result ≡ has_executable self.now address }
    {
        self.flags & PF_X != 0
            && self.address <= address
            && address - self.address < self.memory_size
    }

    /// Tells whether it has an address in common with another, where each has one.
    pub(crate) fn shares(&self, other: &ProgramHeader) -> bool
        requires own { self.now.address + self.now.memory_size < 2 ^ 64 }
        requires others { other.now.address + other.now.memory_size < 2 ^ 64 }
        ensures { result ≡ share self.now other.now }
    {
        self.address < other.address + other.memory_size
            && other.address < self.address + self.memory_size
    }
}
