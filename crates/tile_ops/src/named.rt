//! The slice that an instruction names.
ghost use Rattle.std.specs.Prelude.{◌≡◌, ◌%◌, ◌≤◌};
ghost use Rattle.sve_table.specs.Ranges.{IsTileSlice};
ghost use Rattle.tile_ops.specs.Slices.{IsSliceOf};
ghost use Rattle.tile_ops.specs.Named.{element_size, slice_of};

use crate::slices::{SliceAt, slice_number};
use scalar_exec::read_x;
use sm_types::{Elem, Scalars, TileSlice};

/// The bytes of an element, from 1 to 16.
#[inline]
pub fn element_size(size: Elem) -> usize
    ensures value { result ≡ element_size size }
    ensures some { 1 ≤ result }
    ensures small { result ≤ 16 }
{
    match size {
        Elem::B => 1,
        Elem::H => 2,
        Elem::S => 4,
        Elem::D => 8,
        Elem::Q => 16,
    }
}

/// The slice that an instruction names in an array of vectors of `size` bytes.
/// Source: DDI 0487, C9.2 (the slice index of MOVA, LD1B and ST1B).
#[inline]
pub fn slice_of(slice: &TileSlice, s: &Scalars, size: usize) -> SliceAt
    requires slice { IsTileSlice slice.now }
    requires some { 16 ≤ size }
    requires whole { size % 16 ≡ 0 }
    ensures value { result ≡ slice_of slice.now s.now size }
    ensures there { IsSliceOf size result }
{
    let bytes = element_size(slice.size);
    SliceAt {
        bytes,
        tile: usize::from(slice.tile),
        vertical: slice.vertical,
        number: slice_number(read_x(s, slice.rv), slice.offset, size / bytes),
    }
}
