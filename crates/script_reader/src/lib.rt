//! The script of the debugger: a file with a command on each line that is not empty. `read_script` gives its
//! commands, or its first line that says none. The reading of such a file, and its faults, stand in
//! `line_reader`; here stand the commands and their words.
#![tactic(auto)]

mod address;
mod command;
mod laws;
mod script;
mod words;

pub use command::{DebugCommand, Direction};
pub use laws::{one_fault, one_script};
pub use line_reader::{TextFault as PlanFault, TextKind as PlanKind};
pub use script::read_script;
