//! The file of a guest thread's state: the table of its fields for a report of the run, and their reading.
#![tactic(auto)]

mod fault;
mod lists;
mod parts;
mod read;
mod state;

pub use fault::CkptFault;
pub use read::read_fields;
pub use state::{Progress, SignalHandler, StateFields, System, VectorBytes};
