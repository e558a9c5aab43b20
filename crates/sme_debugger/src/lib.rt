//! A debugger over a recorded guest thread: a `Session` stands at a count of instructions of its run, goes to
//! any other, forwards and back, and shows registers, ZA, slices of tiles, memory and the place as they are
//! there in the run of the thread alone.
#![tactic(auto)]

mod at_address;
mod fault;
mod replay;
mod session;
mod texts;

pub use fault::DebugFault;
pub use session::Session;
