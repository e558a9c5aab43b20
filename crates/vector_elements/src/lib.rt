//! The elements of a vector's bytes and the bits of a predicate, for elements of 1, 2, 4 and 8 bytes: how
//! they are read and written, the numbers that they are, and the loops over them. What an instruction makes
//! of each element is a `Change`; whether inactive elements keep their value or become zero is the loop's.
#![tactic(auto)]

mod access;
mod governed;
mod lanes;
mod laws;
mod loops;
mod mask;
mod number;
mod size;

pub use access::{bit, element, set_element};
pub use lanes::{
    byte_lanes, doubleword_lanes, halfword_lanes, set_byte_lanes, set_doubleword_lanes,
    set_halfword_lanes, set_word_lanes, word_lanes,
};
pub use laws::{change_gives_elements, change_keeps_inactive};
pub use loops::{Change, change_active, change_each, change_marked_or_zero, change_or_zero};
pub use mask::{are_active, element_bits, expand, is_marked};
pub use number::{low_bits, signed, wrapped};
pub use size::Size;
