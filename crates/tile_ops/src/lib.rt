//! What the instructions on slices of ZA tiles do, memory apart: a slice is read and written as the bytes
//! of its elements, moved to and from a vector, and a vector is added to each row or each column of a tile.
#![tactic(auto)]

mod elements;
mod laws;
mod moves;
mod named;
mod slices;
mod sums;

pub use laws::{
    add_is_at_active_places, add_keeps_tiles, merge_gives_elements, write_keeps_elements,
    write_keeps_tiles, written_slice_is_read,
};
pub use moves::{merge, move_to_tile, move_to_vector};
pub use named::{element_size, slice_of};
pub use slices::{SliceAt, read_slice, slice_number, write_slice};
pub use sums::{TileSum, add_to_tile};
