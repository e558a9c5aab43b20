//! Sums of the elements of a tile and those of a vector.
ghost use Rattle.std.specs.Prelude.{◌≡◌, ◌+◌, ◌*◌, ◌%◌, ◌<◌, ◌≤◌, length};
ghost use Rattle.sve_vectors.specs.Lengths.{vector_bytes};
ghost use Rattle.vector_elements.specs.Numbers.{bytes_in, range_of};
ghost use Rattle.tile_ops.specs.Sums.{addend_of, row_sum, added_to_tile, AreSumOf};

use vector_elements::{Change, Size, bit, change_active, element, low_bits};
use za_array::{RowChange, Za, change_tile};

/// The sum of two elements, modulo 2 ^ w.
#[inline(always)]
fn sum_of(size: Size, a: u64, b: u64) -> u64
    ensures { result ≡ (a + b) % range_of size }
{
    low_bits(size, a.wrapping_add(b))
}

/// What is added to the elements of a row of a tile.
#[derive(Clone, Copy)]
struct Addend<'a> {
    zn: &'a [u8],
    vertical: bool,
    row: usize,
}

impl<'a> Change for Addend<'a> {
    ghost can = { λ s size c.
        (bytes_in size * c + bytes_in size ≤ length s.zn.now)
        × (bytes_in size * s.row + bytes_in size ≤ length s.zn.now) };

    ghost gives = { λ s size c old. (old + addend_of size s.vertical s.zn.now s.row c) % range_of size };

    #[inline(always)]
    fn apply(&self, size: Size, place: usize, old: u64) -> u64 {
        let i = if self.vertical { self.row } else { place };
        sum_of(size, old, element(self.zn, size, i))
    }
}

/// A vector that is added to the elements of a tile: to each row, or, if vertical, to each column.
#[derive(Clone, Copy)]
pub struct TileSum<'a> {
    /// The size of the elements.
    pub size: Size,
    pub vertical: bool,
    /// Which rows are active.
    pub pn: &'a [u8],
    /// Which columns are active.
    pub pm: &'a [u8],
    pub zn: &'a [u8],
}

impl<'a> RowChange for TileSum<'a> {
    ghost can = { λ s r long.
        AreSumOf s.size long s.pn.now s.pm.now s.zn.now × (r * bytes_in s.size < long) };

    ghost gives = { λ s r row. row_sum s.size s.vertical s.pn.now s.pm.now s.zn.now r row };

    #[tactic(auto, unfolding(crate::specs::Sums::row_sum))]
    fn change(&self, r: usize, row: &mut [u8]) {
        if bit(self.pn, r * self.size.bytes()) {
            let addend = Addend {
                zn: self.zn,
                vertical: self.vertical,
                row: r,
            };
            change_active(&addend, self.size, row, self.pm);
        }
    }
}

/// Adds a vector to the active elements of tile `tile`; the others stay.
/// Source: DDI 0487, C9.2, ADDHA, ADDVA.
pub fn add_to_tile(za: &mut Za, tile: usize, sum: &TileSum)
    requires tile { tile < bytes_in sum.now.size }
    requires sum { AreSumOf sum.now.size (vector_bytes za.old.svl)
        sum.now.pn.now sum.now.pm.now sum.now.zn.now }
    ensures { za.new ≡ record za.old {
      vectors = added_to_tile sum.now.size tile sum.now.vertical
          sum.now.pn.now sum.now.pm.now sum.now.zn.now za.old.vectors;
    } }
{
    change_tile(za, sum.size.bytes(), tile, sum);
}
