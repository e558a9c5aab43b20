//! The ZA array of a guest thread: S vectors of S bytes, S being the streaming vector length in bytes; and
//! its tiles, the rows of which are changed one after another.
#![tactic(auto)]

mod array;
mod tiles;

pub use array::Za;
pub use tiles::{RowChange, change_tile};
