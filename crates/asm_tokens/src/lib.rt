//! The tokens of a line of assembly: names, numbers and punctuation, with blanks between them, and the tables
//! in which names are found.
#![tactic(auto)]

mod characters;
mod lexemes;
mod names;
mod numbers;
mod slots;
mod token;

pub use characters::{before_comment, byte_at, column_at, is_digit, run_at, skip_blanks};
pub use lexemes::{begins_name, next_lexeme};
pub use names::mnemonic_index;
pub use token::{Lexeme, Token, is_name, is_number};
