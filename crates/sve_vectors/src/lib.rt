//! The vectors of a guest thread: Z0 to Z31, P0 to P15, FFR, and PSTATE.SM, which says how long they are.
#![tactic(auto)]

mod laws;
mod registers;
mod rows;
mod vectors;

pub use laws::{bytes_tell_truths, truths_tell_bytes};
pub use registers::{read_p, write_ffr, write_p, write_z};
pub use rows::{clear_rows, zero_rows};
pub use vectors::Vectors;
