//! The decoder of the vector instructions of SVE and SME: a word of 32 bits becomes the instruction that
//! the table's rows give it. A tree leads by a few bits at a time to the one row that may match, and no other
//! row is looked at.
#![tactic(auto)]

mod decode;
mod tree;

pub use decode::decode_vector;
