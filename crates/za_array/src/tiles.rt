//! A change of the rows of a tile, one after another.
ghost use Rattle.std.specs.Prelude.{◌≡◌, ◌<◌, ◌≤◌, ◌*◌, ◌%◌, ◌/◌, List, ℕ, length};
ghost use Rattle.sve_vectors.specs.Lengths.{vector_bytes};
ghost use Rattle.za_array.specs.Tiles.{changed_tile};

use crate::array::Za;

/// What an instruction makes of a row of a tile.
pub trait RowChange {
    /// What must hold of it, of the number of a row and of the bytes of a row.
    ghost can: { Self → ℕ → ℕ → Type 0 };

    /// Row r as it becomes, of what it was.
    ghost gives: { Self → ℕ → List ℕ → List ℕ };

    /// Changes row `r`.
    fn change(&self, r: usize, row: &mut [u8])
        requires { can self.now r (length row.old) }
        ensures { row.new ≡ gives self.now r row.old };
}

/// Changes each row of tile `tile` of elements of `bytes` bytes; the other vectors of the array stay.
#[inline]
pub fn change_tile<C: RowChange>(za: &mut Za, bytes: usize, tile: usize, change: &C)
    requires tile { tile < bytes }
    requires whole { vector_bytes za.old.svl % bytes ≡ 0 }
    requires can { (r : ℕ) → r * bytes < vector_bytes za.old.svl
        → C.can change.now r (vector_bytes za.old.svl) }
    ensures { za.new ≡ record za.old {
      vectors = changed_tile bytes tile (C.gives change.now)
          za.old.vectors;
    } }
{
    for r in 0..za.size() / bytes {
        change.change(r, za.vector_mut(r * bytes + tile));
    }
}
