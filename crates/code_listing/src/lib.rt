//! The listing of a program: `write_listing` writes one line for each code word, and takes no memory.
#![tactic(auto)]

mod listing;

pub use listing::write_listing;
