//! Whether the callees of a recorded run keep the rules of the lazy saving scheme of ZA: `check_abi` goes
//! through the states of one guest thread's run over its journal, and tells the first fault of a marked call,
//! or how many of these returned.
#![tactic(auto)]

mod abi;
mod bytes;
mod check;
mod halting;
mod laws;
mod marks;
mod near;
mod open_call;
mod permissions;
mod watch;
mod whole;

pub use abi::{Abi, AbiKind};
pub use check::check_abi;
pub use laws::{call_words_are_calls, one_answer, yes_brings_back};
