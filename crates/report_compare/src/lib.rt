//! Whether what a thread of a report comes to is what the report says: `Comparison` is a sink that compares
//! the text that is written with one that is there, `Kept` one that keeps it, and `write_parting` writes the
//! line that says how a thread parts from its journal and count.
#![tactic(auto)]

mod compare;
mod parting;

pub use compare::{Comparison, Kept};
pub use parting::write_parting;
