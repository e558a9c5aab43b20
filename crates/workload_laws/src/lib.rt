//! The laws of the workload, which the program does not use: each of its sources is assembled, and what the
//! words of its object are.
#![tactic(auto)]

mod laws;

pub use laws::{sources_are_assembled, sources_have_words};
