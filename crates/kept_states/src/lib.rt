//! States of a guest thread that are kept aside: a `KeptState` has all of a state that a thread stands in, and
//! `resume` makes a thread that stands in that state, as often as is wanted. The pages of states that are kept
//! one after the other share the bytes that did not change in between.
#![tactic(auto)]

mod banks;
mod fields;
mod handlers;
mod kept;
mod laws;
mod pages;

pub use kept::KeptState;
pub use laws::one_kept;
