//! What the vector instructions that access neither memory nor ZA do to the scalar and the vector registers.
//!
//! `exec_vector` changes all registers but PC, which the caller moves on.
#![tactic(auto)]

mod change;
mod compare;
mod copies;
mod counts;
mod exec;
mod permute;
mod predicate;
mod predicate_count;
mod size;
mod sve2;
mod vector;

pub use exec::exec_vector;
