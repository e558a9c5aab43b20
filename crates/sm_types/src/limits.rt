//! The limits of a run and the sizes of its memory that several crates name, in code and in clauses.

/// The most events that the journal of a thread has.
pub const JOURNAL_LIMIT: u32 = 262_144;

/// The most bytes that a thread writes as its output.
pub const OUTPUT_LIMIT: u32 = 1_048_576;

/// The bytes of a page of memory.
pub const PAGE_SIZE: u32 = 4_096;

/// The most pages that a program or a checkpoint has.
pub const PAGE_LIMIT: u32 = 4_096;

/// The most bytes of a file that is read.
pub const FILE_LIMIT: u32 = 67_108_864;

/// The address of the page of the shared words.
pub const SHARED_PAGE: u64 = 0x7F00_0000_0000;
