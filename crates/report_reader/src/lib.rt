//! Reads a report back: its options, the program's digest, and of each guest thread its stop, its count and
//! its journal; or the first line that is not in the format, with the part to which it should belong.
#![tactic(auto)]

mod block;
mod events;
mod fault;
mod forms;
mod header;
mod laws;
mod lines;
mod parts;
mod report;
mod stops;

pub use fault::{ReportFault, ReportKind};
pub use laws::reports_are_in_the_format;
pub use parts::{Report, ReportBlock};
pub use report::read_report;
