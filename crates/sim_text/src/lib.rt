//! The text that is written of a world after the events of a plan: `write_skips` writes a line for each
//! event that was not enabled, `write_history` the history of the operations on the shared words, and
//! `write_sim` both, with the report of the threads between them. No memory is taken.
#![tactic(auto)]

mod history;
mod sim;
mod skips;

pub use history::write_history;
pub use sim::write_sim;
pub use skips::write_skips;
