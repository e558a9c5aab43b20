//! What a report says.
ghost use Rattle.std.specs.Prelude.{◌≡◌, ◌<◌, ◌^◌, vec_len};

use sm_types::{Config, Event, Stop, Words};

/// The block of a guest thread in a report.
#[derive(Drop)]
pub struct ReportBlock {
    /// The place of its first byte in the file.
    pub start: usize,
    /// The place of the byte past its last one.
    pub end: usize,
    /// The number of its first line, counted from 1.
    pub first_line: u64,
    /// Instructions executed.
    pub count: u32,
    /// Why the thread stopped.
    pub stop: Stop,
    /// The answers of its shared operations, the oldest first.
    pub journal: Vec<Event>,
    pub ghost few_events: { vec_len journal < 2 ^ 32 },
    pub ghost few_lines: { first_line < 2 ^ 63 },
}

/// A report.
#[derive(Drop)]
pub struct Report {
    /// The options; the number of cores is 1, as a report does not tell it.
    pub config: Config,
    /// SHA-256 of the program file.
    pub image: [u8; 32],
    /// A block for each thread, in order of their numbers.
    pub blocks: Vec<ReportBlock>,
    /// The shared words and pending signals after the run.
    pub words: Words,
    pub ghost one_each: { vec_len blocks ≡ config.threads },
}
