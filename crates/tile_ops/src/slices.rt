//! Slices of tiles.
ghost use Rattle.std.specs.Prelude.{◌≡◌, ◌+◌, ◌*◌, ◌<◌, ◌≤◌, length};
ghost use Rattle.std.specs.List.{concat};
ghost use Rattle.sve_vectors.specs.Lengths.{vector_bytes};
ghost use Rattle.za_array.specs.Tiles.{horizontal_slice, vertical_slice};
ghost use Rattle.tile_ops.specs.Slices.{slice_number, IsSliceOf, slice_bytes, with_slice};
ghost use Rattle.tile_ops.specs.Slices.{with_element, element_bytes};

use crate::elements::copy_element;
use za_array::{RowChange, Za, change_tile};

/// A slice of a tile of ZA.
#[derive(Clone, Copy)]
pub struct SliceAt {
    /// The bytes of an element: 1, 2, 4, 8 or 16.
    pub bytes: usize,
    /// Below the bytes of an element.
    pub tile: usize,
    /// A column of the tile, else a row.
    pub vertical: bool,
    /// Which column or row.
    pub number: usize,
}

/// Which of `count` slices a register's value and an offset name; the upper half of the value is ignored.
/// Source: DDI 0487, C9.2 (the slice index of MOVA, LD1B and ST1B).
#[inline(always)]
pub fn slice_number(value: u64, offset: u8, count: usize) -> usize
    requires { 0 < count }
    ensures value { result ≡ slice_number value offset count }
    ensures below { result < count }
{
    ((value % 0x1_0000_0000 + u64::from(offset)) % count as u64) as usize
}

/// Reads a row of a tile.
fn read_row(za: &Za, slice: SliceAt, into: &mut [u8])
    requires slice { IsSliceOf (vector_bytes za.now.svl) slice }
    requires long { length into.old ≡ vector_bytes za.now.svl }
    ensures { into.new ≡ concat (horizontal_slice slice.bytes slice.tile za.now.vectors slice.number) }
{
    let size = za.size();
    prove!(into.len() == size);
    into.copy_from_slice(za.vector(slice.number * slice.bytes + slice.tile));
}

/// Reads a column of a tile, an element from each row.
fn read_column(za: &Za, slice: SliceAt, into: &mut [u8])
    requires slice { IsSliceOf (vector_bytes za.now.svl) slice }
    requires long { length into.old ≡ vector_bytes za.now.svl }
    ensures { into.new ≡ concat (vertical_slice slice.bytes slice.tile za.now.vectors slice.number) }
{
    for r in 0..za.size() / slice.bytes {
        let row = za.vector(r * slice.bytes + slice.tile);
        copy_element(slice.bytes, row, slice.number, into, r);
    }
}

/// Reads a slice: its S bytes, the first element first.
pub fn read_slice(za: &Za, slice: SliceAt, into: &mut [u8])
    requires slice { IsSliceOf (vector_bytes za.now.svl) slice }
    requires long { length into.old ≡ vector_bytes za.now.svl }
    ensures { into.new ≡ slice_bytes slice za.now.vectors }
{
    if slice.vertical {
        read_column(za, slice, into);
    } else {
        read_row(za, slice, into);
    }
}

/// The elements of a column, each of which is written to its row.
#[derive(Clone, Copy)]
struct Column<'a> {
    slice: SliceAt,
    bytes: &'a [u8],
}

impl<'a> RowChange for Column<'a> {
    ghost can = { λ s r long.
        (s.slice.number * s.slice.bytes + s.slice.bytes ≤ long)
        × (r * s.slice.bytes + s.slice.bytes ≤ length s.bytes.now) };

    ghost gives = { λ s r row.
        with_element s.slice.bytes row s.slice.number (element_bytes s.slice.bytes s.bytes.now r) };

    #[inline(always)]
    fn change(&self, r: usize, row: &mut [u8]) {
        copy_element(self.slice.bytes, self.bytes, r, row, self.slice.number);
    }
}

/// Writes a slice from its S bytes.
#[tactic(auto, using(za_array::proofs::Whole::array_whole), unfolding(crate::specs::Slices::with_slice))]
pub fn write_slice(za: &mut Za, slice: SliceAt, bytes: &[u8])
    requires slice { IsSliceOf (vector_bytes za.old.svl) slice }
    requires long { length bytes.now ≡ vector_bytes za.old.svl }
    ensures { za.new ≡ record za.old { vectors = with_slice slice bytes.now za.old.vectors } }
{
    if slice.vertical {
        change_tile(za, slice.bytes, slice.tile, &Column { slice, bytes });
    } else {
        za.vector_mut(slice.number * slice.bytes + slice.tile)
            .copy_from_slice(bytes);
    }
}
