//! Decoding a word by either table of instructions.
#![tactic(auto)]

mod either;

pub use either::decode;
