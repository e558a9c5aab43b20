//! What the SVE instructions that move elements, or that make one number of them, make of vectors: a function
//! for each group, whose contract says which value each element of the result has, or which number it is.
//!
//! A vector is the slice of its bytes, a predicate that of its bits. Each function writes a slice of its own
//! and reads the others: where the destination is also a source, the caller writes to a buffer, and copies
//! it.
#![tactic(auto)]

mod by_place;
mod interleaving;
mod last;
mod operations;
mod reductions;
mod reorder;
mod scalar;
mod unpacking;

pub use interleaving::interleave;
pub use last::last_element;
pub use reductions::reduce;
pub use reorder::{extract, reverse, table};
pub use scalar::scalar_to_vector;
pub use unpacking::unpack;
