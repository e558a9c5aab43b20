//! Lists of threads: how often a number stands in one, and the contexts of threads in the order of their
//! numbers.
#![tactic(auto)]

mod order;

pub use order::sort_by_number;
