//! Why a source is refused.
ghost use Rattle.std.specs.Prelude.{◌≡◌};
ghost use Rattle.asm_core.specs.declared.fault.AsmFault.TheVariants as variants;

use asm_parser::LineFault;
use std::alloc::{AllocError, AllocFailed};

/// Why a source has no object. Lines are counted from 1.
///
/// `TooLong` and `NotText` come first, then the first line with a fault, of the kinds `Line`, `Doubled`,
/// `TooLarge` in this order, then the first line with an undefined name or a target too far, then `NoStart`.
#[derive(Clone, Copy, Debug, PartialEq, Eq)]
pub enum AsmFault {
    /// More than 67,108,864 bytes.
    TooLong,
    /// No UTF-8: the offset of the first byte that is none.
    NotText(usize),
    /// The line is not in the grammar, or is an instruction at no multiple of 4.
    Line { line: u32, fault: LineFault },
    /// The line's label stands before.
    Doubled(u32),
    /// A name on the line is no label.
    Undefined(u32),
    /// The instruction cannot hold the distance to its target, in bytes.
    TooFar { line: u32, distance: i64 },
    /// With the line a part has more than 4,194,304 bytes.
    TooLarge(u32),
    /// There is no label `_start` at a multiple of 4 at a byte of the text.
    NoStart,
    /// Out of memory.
    Memory,
}

impl From<AllocError> for AsmFault {
    ghost from_gives = { λ _ fault. fault ≡ variants.Memory };

    fn from(_error: AllocError) -> AsmFault {
        AsmFault::Memory
    }
}

impl<T: Drop> From<AllocFailed<T>> for AsmFault {
    ghost from_gives = { λ _ fault. fault ≡ variants.Memory };

    fn from(_error: AllocFailed<T>) -> AsmFault {
        AsmFault::Memory
    }
}
