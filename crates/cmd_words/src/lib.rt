//! The words of the command line, read into a command: `read_words` answers exactly the command that words
//! without a fault ask for, and else their first fault from left to right, with its place and kind.
#![tactic(auto)]

mod command;
mod form;
mod given;
mod laws;
mod number;
mod setting;
mod verb;
mod words;

pub use command::{Command, UsageKind, WordsFault};
pub use laws::one_reading;
pub use words::read_words;
