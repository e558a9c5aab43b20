//! Why a file is no report.
ghost use Rattle.std.specs.Prelude.{◌≡◌};
ghost use Rattle.report_reader.specs.declared.fault.ReportFault.TheVariants.{Line, Memory};

use line_reader::LineFault;
use std::alloc::{AllocError, AllocFailed};

/// What is wrong with a line: the part of a report to which it should belong, or that it is no text.
#[derive(Clone, Copy, Debug, PartialEq, Eq)]
pub enum ReportKind {
    /// The file has more than 1,073,741,824 bytes; at line 0.
    TooLong,
    /// The line is not UTF-8.
    NotText,
    /// The first line, which names the format.
    Header,
    /// The line of the options.
    Options,
    /// The line of the program's digest.
    Image,
    /// A line of a thread's block.
    Block,
    /// A line of a thread's journal.
    Journal,
    /// The line before the shared words, or a line of such a word or of pending signals.
    Shared,
    /// The last line, or what follows it.
    End,
    /// The report has no such thread; for callers alone.
    NoThread,
}

/// Why a file is no report, or want of memory.
#[derive(Clone, Copy, Debug, PartialEq, Eq)]
pub enum ReportFault {
    /// The first line that is not in the format, counted from 1; it is one past the last where a line is
    /// missing.
    Line { line: u64, kind: ReportKind },
    /// There was no memory for the report.
    Memory,
}

impl From<LineFault<ReportKind>> for ReportFault {
    ghost from_gives = { λ at fault. fault ≡ Line at.line at.kind };

    fn from(at: LineFault<ReportKind>) -> ReportFault {
        ReportFault::Line {
            line: at.line,
            kind: at.kind,
        }
    }
}

impl From<AllocError> for ReportFault {
    ghost from_gives = { λ _ fault. fault ≡ Memory };

    fn from(_error: AllocError) -> ReportFault {
        ReportFault::Memory
    }
}

impl<T: Drop> From<AllocFailed<T>> for ReportFault {
    ghost from_gives = { λ _ fault. fault ≡ Memory };

    fn from(_error: AllocFailed<T>) -> ReportFault {
        ReportFault::Memory
    }
}
