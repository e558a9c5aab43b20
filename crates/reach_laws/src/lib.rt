//! The laws of the states that a thread's lone run reaches from its start.
#![tactic(auto)]

mod laws;

pub use laws::{reach_is_plain, reached_deliveries_are_plain};
