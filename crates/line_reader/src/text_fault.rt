//! Why a file is refused that has a value on each line that is not empty.
ghost use Rattle.std.specs.Prelude.{◌≡◌};
ghost use Rattle.line_reader.specs.declared.text_fault.TextFault.TheVariants.{Memory};

use std::alloc::AllocFailed;

/// What is wrong with a line.
#[derive(Clone, Copy, Debug, PartialEq, Eq)]
pub enum TextKind {
    /// The file has more than 67,108,864 bytes; at line 0.
    TooLong,
    /// The line is not UTF-8.
    NotText,
    /// Its first word is none with which a value begins, or a later one is none that may stand there.
    Unknown,
    /// A word is no decimal number, or one that is out of range.
    BadNumber,
    /// A word stands after the last one.
    Extra,
    /// A word is missing at its end.
    Missing,
}

/// Why a file is refused, or want of memory.
#[derive(Clone, Copy, Debug, PartialEq, Eq)]
pub enum TextFault {
    /// The first line that is neither empty nor says a value, counted from 1, and what is wrong with the
    /// first of its words at fault.
    Line { line: u64, kind: TextKind },
    /// There was no memory for the values.
    Memory,
}

impl<T: Drop> From<AllocFailed<T>> for TextFault {
    ghost from_gives = { λ _ fault. fault ≡ Memory };

    fn from(_error: AllocFailed<T>) -> TextFault {
        TextFault::Memory
    }
}
