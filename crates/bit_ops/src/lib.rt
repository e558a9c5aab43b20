//! Arithmetic on words of 32 and 64 bits, each function equal to a definition over unbounded numbers and
//! bits: sums with their flags, shifts, reversals, counts, and the masks of the logical instructions.
#![tactic(auto)]

mod counts;
mod masks;
mod reversals;
mod shifts;
mod sums;
mod words;

pub use counts::{count_signs, count_zeros};
pub use masks::{are_mask_fields, bit_mask, mask_fields};
pub use reversals::{reverse_bits, reverse_bytes};
pub use shifts::{ShiftKind, shift};
pub use sums::{Nzcv, add_carry};
