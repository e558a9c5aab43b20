//! The loads and stores of the ZA array on private memory: of a vector of the array, and of a slice of a
//! tile. All checks of an access are made first, and ZA and memory change only where none fails.
#![tactic(auto)]

mod elements;
mod slices;
mod vectors;

pub use slices::transfer_slice;
pub use vectors::transfer_array_vector;
