//! The lines and the texts of the command: the line of the fault for which words, a program's file, a source,
//! a report, a plan, a checkpoint or a file of vectors is refused, the lines that say in which line a report
//! and a replay differ, those of a check of marked calls, the texts of help and of the version, and the
//! status with its number. `refuse_foreign_word` answers words of which one is no text.
#![tactic(auto)]

mod checkpoint_line;
mod difference_line;
mod fault_line;
mod foreign;
mod help;
mod law_line;
mod laws;
mod numbered_line;
mod plan_line;
mod report_line;
mod source_line;
mod status;
mod usage_line;
mod vectors_line;

pub use checkpoint_line::{CheckpointFault, write_checkpoint_fault};
pub use difference_line::write_difference_lines;
pub use fault_line::write_fault;
pub use foreign::refuse_foreign_word;
pub use help::{write_help, write_version};
pub use law_line::{write_lawful, write_unlawful};
pub use laws::help_is_true;
pub use plan_line::write_plan_fault;
pub use report_line::write_report_fault;
pub use source_line::write_source_fault;
pub use status::Status;
pub use usage_line::write_usage;
pub use vectors_line::{VectorsFault, write_vectors_fault};
