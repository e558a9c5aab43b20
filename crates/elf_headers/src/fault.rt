//! Why a file is not loaded.
ghost use Rattle.std.specs.Prelude.{◌≡◌};
ghost use Rattle.elf_headers.specs.declared.fault.LoadFault.TheVariants as variants;

use sm_types::Memory;
use std::alloc::{AllocError, AllocFailed};
use thiserror::Error;

/// Why a file is not loaded. Offsets are in bytes from the begin of the file, indices count program headers
/// from 0.
#[derive(Clone, Copy, Debug, PartialEq, Eq, Error)]
pub enum LoadFault {
    /// More than 67,108,864 bytes.
    #[error("toolong")]
    TooLong,
    /// The header, a table or a load's bytes go past the file, which has that many bytes.
    #[error("truncated {0}")]
    Truncated(u64),
    /// No little-endian ELF64 file.
    #[error("notelf")]
    NotElf,
    /// The machine's number, which is not that of AArch64.
    #[error("notthismachine {0}")]
    NotThisMachine(u16),
    /// The type of the file, which is no executable, or that of a program header for dynamic linking or
    /// thread-local storage.
    #[error("notstatic {0}")]
    NotStatic(u32),
    /// The offset of a table or of a header that breaks its rules.
    #[error("badtable {0}")]
    BadTable(u64),
    /// The program header of a load with an address from the stack to the shared region.
    #[error("inshared {0}")]
    InShared(u16),
    /// The first two program headers of loads that have an address in common.
    #[error("overlap {0} {1}")]
    Overlap(u16, u16),
    /// How many pages the loads and the stack would have, above 4,096.
    #[error("toomanypages {0}")]
    TooManyPages(u64),
    /// The entry, which is no multiple of 4 or in no executable load.
    #[error("entryoutside {0:#018x}")]
    EntryOutside(u64),
    /// The lowest word of the code that means no instruction, with its address.
    #[error("unlisted {address:#018x} {word:#010x}")]
    Unlisted { address: u64, word: u32 },
    /// There was no memory for the image.
    #[error("memory")]
    Memory,
}

impl From<AllocError> for LoadFault {
    ghost from_gives = { λ _ fault. fault ≡ variants.Memory };

    fn from(_error: AllocError) -> LoadFault {
        LoadFault::Memory
    }
}

impl From<Memory> for LoadFault {
    ghost from_gives = { λ _ fault. fault ≡ variants.Memory };

    fn from(_error: Memory) -> LoadFault {
        LoadFault::Memory
    }
}

impl<T: Drop> From<AllocFailed<T>> for LoadFault {
    ghost from_gives = { λ _ fault. fault ≡ variants.Memory };

    fn from(_error: AllocFailed<T>) -> LoadFault {
        LoadFault::Memory
    }
}
