//! Tables of instructions: words as fixed bits and fields.
//!
//! A table is a list of lines. A line has the fixed bits of an instruction's words, the operation that
//! tells the instruction from others, and its fields, each a place in the word. This crate knows no
//! instruction: it says what a word means by any such table, proves once for every table how words and
//! instructions go with each other, and has the trees by which a decoder finds a word's line.
#![tactic(auto)]

mod field;
mod line;
mod number;
mod reading;
mod tree;

pub use field::{Field, Fields, field_in, fields_of, placed, run_of_bits, signed, signed_in};
pub use line::{Line, line_at, line_with, matches};
pub use number::{Number, Parts, count, flag, word_in};
pub use reading::{byte, half, one, signed_number};
pub use tree::{Fork, Node, line_number};
