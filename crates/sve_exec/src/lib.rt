//! What the SVE instructions that work element by element make of vectors: a function for each group, whose
//! contract says which value each element of the result has.
//!
//! A vector is the slice of its bytes, a predicate that of its bits. Each function changes its first vector
//! in place, and reads the others: where the destination is another register than the first vector, or is one
//! of the other vectors too, the caller copies the first vector into a buffer of 256 bytes, and the result
//! back.
#![tactic(auto)]

mod accumulate;
mod arithmetic;
mod binary;
mod binary_ops;
mod copies;
mod count;
mod immediate;
mod immediate_shift;
mod lane_ops;
mod lanes;
mod laws;
mod logical;
mod multiply;
mod number;
mod operation;
mod product;
mod quotient;
mod shift;
mod ternary;
mod unary;
mod unary_ops;
mod widening;

pub use accumulate::multiply_add;
pub use arithmetic::vector_arithmetic;
pub use binary::predicated_binary;
pub use copies::{copy_merging, copy_zeroing, duplicate, index, select, signed_immediate};
pub use immediate::{vector_add_immediate, vector_multiply_immediate};
pub use immediate_shift::vector_shift;
pub use laws::signs_are_counted;
pub use logical::vector_logical;
pub use multiply::vector_multiply;
pub use ternary::vector_ternary;
pub use unary::predicated_unary;
pub use widening::{half_size, vector_widening};
