//! What readers of texts share: the lines of a text, one after another, with the kind of fault that a reader
//! gives for one that does not say what it should; the words of a line, and what a table has for them;
//! numbers in words; and the first line in which two texts differ. `read_file` reads a file with a value on
//! each line that is not empty, whatever the values are (`LineFormat`), or gives its first line at fault; it
//! alone takes memory. `read_number` and `end` read the words of such a line.
#![tactic(auto)]

mod difference;
mod fault;
mod fields;
mod file;
mod lines;
mod numbers;
mod phrases;
mod tables;
mod text_fault;

pub use difference::{Difference, first_difference};
pub use fault::LineFault;
pub use fields::{Fields, is_word, line_text};
pub use file::{LineFormat, has_text, read_file};
pub use lines::{Lines, begins_with, split_line};
pub use numbers::{Base, decimal_number, digits_in, hex_number, is_decimal, is_hex, number_below};
pub use phrases::{end, read_number};
pub use tables::found_in;
pub use text_fault::{TextFault, TextKind};
