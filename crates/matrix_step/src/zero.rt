//! ZERO.
ghost use Rattle.std.specs.Prelude.{◌≡◌, ◌<◌, ◌^◌, if◌then◌else◌, length, replicate};
ghost use Rattle.matrix_step.specs.Step.{is_zeroed, zeroed_tiles};

use za_array::{RowChange, Za, change_tile};

/// Whether a vector of the array is of a tile of doublewords whose bit is set.
fn is_zeroed(mask: u8, v: usize) -> bool
    ensures { result ≡ is_zeroed mask v }
{
    (mask >> (v % 8)) % 2 == 1
}

/// The tiles of doublewords that become zero.
#[derive(Clone, Copy)]
struct ZeroTiles {
    mask: u8,
}

impl RowChange for ZeroTiles {
    ghost can = { λ s v long. Unit };

    ghost gives = { λ s v row. if is_zeroed s.mask v then replicate (length row) 0 else row };

    #[inline(always)]
    fn change(&self, r: usize, row: &mut [u8]) {
        if is_zeroed(self.mask, r) {
            row.fill(0);
        }
    }
}

/// Makes each vector of the array zero that is of a tile of doublewords whose bit is set.
#[tactic(auto, unfolding(crate::specs::Step::zeroed_tiles))]
pub(crate) fn zero_tiles(za: &mut Za, mask: u8)
    ensures { za.new ≡ record za.old { vectors = zeroed_tiles mask za.old.vectors } }
{
    change_tile(za, 1, 0, &ZeroTiles { mask });
}
