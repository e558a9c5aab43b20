//! The encoder, over both tables of instructions: an instruction becomes its word, of which there is at
//! most one.
//!
//! An instruction's operation finds its row, whose fixed bits and fields take the numbers of the
//! instruction; no decoder and no comparison of instructions is asked. What a word means by either table
//! stands here, with the laws over both.
#![tactic(auto)]

mod laws;
mod table;
mod word;

pub use laws::{has_word, means_either, one_row_of_both, one_word};
pub use word::encode;
