//! What the instructions of ZA and of the streaming vector length that access no memory do to the scalar
//! registers, the vectors and ZA.
//!
//! `exec_matrix` changes all of these but PC, which the caller moves on.
#![tactic(auto)]

mod exec;
mod lengths;
mod slices;
mod sums;
mod zero;

pub use exec::{exec_matrix, is_matrix_computed};
