//! MOVA.
ghost use Rattle.std.specs.Prelude.{◌≡◌, ◌<◌};
ghost use Rattle.sve_table.specs.Ranges.{IsTileMove};
ghost use Rattle.sve_vectors.specs.Lengths.{vector_bytes};
ghost use Rattle.sve_vectors.specs.State.{length_of, with_registers};
ghost use Rattle.tile_ops.specs.Slices.{IsSliceOf};
ghost use Rattle.tile_ops.specs.Moves.{moved_to_tile, moved_to_vector};
ghost use Rattle.sve_vectors.specs.Registers.{vector_at, predicate_at, vector_written};
ghost use Rattle.matrix_step.specs.Step.{after_move, core_of};

use sm_types::{Scalars, TileMove};
use sve_vectors::{Vectors, read_p};
use tile_ops::{SliceAt, move_to_tile, move_to_vector, slice_of};
use za_array::Za;

/// Moves the active elements of a slice to a vector.
#[tactic(auto, using(sve_vectors::proofs::Whole::vector_whole))]
fn move_to_z(vectors: &mut Vectors, za: &Za, slice: SliceAt, pg: u8, zd: u8)
    requires pg { pg < 16 }
    requires zd { zd < 32 }
    requires slice { IsSliceOf (vector_bytes za.now.svl) slice }
    requires long { length_of vectors.old ≡ vector_bytes za.now.svl }
    ensures { let r = vectors.old.registers in vectors.new ≡ with_registers vectors.old
        (vector_written r zd (moved_to_vector slice (predicate_at r pg) za.now.vectors (vector_at r zd))) }
{
    let mut room = [0u8; 32];
    let bytes = read_p(vectors, pg);
    let active = &mut room[..bytes.len()];
    active.copy_from_slice(bytes);
    move_to_vector(za, slice, active, vectors.z_mut(zd));
}

/// Moves the active elements of a vector to a slice of a tile, or of a slice to a vector.
#[tactic(auto, unfolding(crate::specs::Step::after_move))]
pub(crate) fn exec_move(s: &Scalars, vectors: &mut Vectors, za: &mut Za, x: &TileMove)
    requires range { IsTileMove x.now }
    requires long { length_of vectors.old ≡ vector_bytes za.old.svl }
    ensures vectors { vectors.new ≡
        with_registers vectors.old (after_move x.now (core_of s.now vectors.old za.old)).registers }
    ensures za { za.new ≡ record za.old {
      vectors = (after_move x.now
          (core_of s.now vectors.old za.old)).za;
    } }
    ensures scalars { (after_move x.now (core_of s.now vectors.old za.old)).scalars ≡ s.now }
{
    let slice = slice_of(&x.slice, s, za.size());
    if x.to_tile {
        move_to_tile(za, slice, read_p(vectors, x.pg), vectors.z(x.z));
    } else {
        move_to_z(vectors, za, slice, x.pg, x.z);
    }
}
