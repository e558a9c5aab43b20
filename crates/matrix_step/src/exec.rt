//! The instructions of ZA and of the streaming vector length that access no memory.
ghost use Rattle.std.specs.Prelude.{◌≡◌, IsTrue};
ghost use Rattle.sve_table.specs.Ranges.{IsInVectorRow};
ghost use Rattle.sve_vectors.specs.Lengths.{vector_bytes};
ghost use Rattle.sve_vectors.specs.State.{length_of, with_registers};
ghost use Rattle.matrix_step.specs.Step.{is_matrix_computed, is_tile_computed, matrix_step, core_of};

use crate::lengths::exec_length;
use crate::slices::exec_move;
use crate::sums::{exec_add, exec_outer_product};
use crate::zero::zero_tiles;
use sm_types::{ArrayAccess, Insn, Scalars};
use sve_vectors::Vectors;
use za_array::Za;

/// Whether an instruction accesses no memory, and ZA or the streaming vector length.
pub fn is_matrix_computed(insn: &Insn) -> bool
    requires { IsInVectorRow insn.now }
    ensures { result ≡ is_matrix_computed insn.now }
{
    match insn {
        Insn::ArrayAccess(ArrayAccess::Zero { .. })
        | Insn::TileMove(_)
        | Insn::TileAdd(_)
        | Insn::OuterProduct(_)
        | Insn::StreamingLength(_) => true,
        _ => false,
    }
}

/// Executes an instruction of ZA or of the streaming vector length that accesses no memory, with its fields
/// in their ranges: all registers and the array are as it leaves them, but PC, which the caller moves. Both
/// lengths and the mode are as before.
#[tactic(auto, unfolding(crate::specs::Step::matrix_step))]
pub fn exec_matrix(scalars: &mut Scalars, vectors: &mut Vectors, za: &mut Za, insn: &Insn)
    requires computed { IsTrue (is_matrix_computed insn.now) }
    requires ranges { IsInVectorRow insn.now }
    requires long { IsTrue (is_tile_computed insn.now) → length_of vectors.old ≡ vector_bytes za.old.svl }
    ensures scalars { scalars.new ≡ (matrix_step insn.now (core_of scalars.old vectors.old za.old)).scalars }
    ensures vectors { vectors.new ≡
        with_registers vectors.old (matrix_step insn.now (core_of scalars.old vectors.old za.old)).registers }
    ensures za { za.new ≡
        record za.old { vectors = (matrix_step insn.now (core_of scalars.old vectors.old za.old)).za } }
    ensures place { scalars.new.pc ≡ scalars.old.pc }
{
    match insn {
        Insn::ArrayAccess(ArrayAccess::Zero { mask }) => zero_tiles(za, *mask),
        Insn::TileMove(x) => exec_move(scalars, vectors, za, x),
        Insn::TileAdd(x) => exec_add(scalars, vectors, za, x),
        Insn::OuterProduct(x) => exec_outer_product(scalars, vectors, za, x),
        Insn::StreamingLength(x) => exec_length(scalars, za.size() as u64, x),
        _ => {}
    }
}
