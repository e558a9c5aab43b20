//! Why a file is no checkpoint.
ghost use Rattle.std.specs.Prelude.{◌≡◌};
ghost use Rattle.ckpt_fields.specs.declared.fault.CkptFault.TheVariants as variants;

use field_table::BadField;
use sm_types::Memory;
use std::alloc::{AllocError, AllocFailed};

/// Why a file is no checkpoint for a report, or want of memory.
#[derive(Clone, Copy, Debug, PartialEq, Eq)]
pub enum CkptFault {
    /// The file has more than 67,108,864 bytes.
    TooLong,
    /// The offset of the first field that is not whole in the file, or not as it must be; or of the first
    /// byte past the last page.
    Field(u64),
    /// There was no memory for the state.
    Memory,
}

impl From<BadField> for CkptFault {
    ghost from_gives = { λ bad fault. fault ≡ variants.Field bad.offset };

    fn from(bad: BadField) -> CkptFault {
        CkptFault::Field(bad.offset)
    }
}

impl From<Memory> for CkptFault {
    ghost from_gives = { λ _ fault. fault ≡ variants.Memory };

    fn from(_error: Memory) -> CkptFault {
        CkptFault::Memory
    }
}

impl From<AllocError> for CkptFault {
    ghost from_gives = { λ _ fault. fault ≡ variants.Memory };

    fn from(_error: AllocError) -> CkptFault {
        CkptFault::Memory
    }
}

impl<T: Drop> From<AllocFailed<T>> for CkptFault {
    ghost from_gives = { λ _ fault. fault ≡ variants.Memory };

    fn from(_error: AllocFailed<T>) -> CkptFault {
        CkptFault::Memory
    }
}
