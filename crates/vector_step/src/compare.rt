//! Comparisons to a predicate, with the flags.
ghost use Rattle.std.specs.Prelude.{◌≡◌, ◌/◌, ◌<◌};
ghost use Rattle.vector_elements.specs.Elements.{active_of};
ghost use Rattle.vector_elements.specs.Numbers.{bytes_in};
ghost use Rattle.predicates.specs.Compare.{vectors_compared, immediate_compared};
ghost use Rattle.predicates.specs.Flags.{flags_of};
ghost use Rattle.sve_table.specs.Ranges.{IsVectorCompare};
ghost use Rattle.sve_vectors.specs.State.{length_of, with_registers};
ghost use Rattle.vector_step.specs.Predicates.{after_compare};
ghost use Rattle.vector_step.specs.Core.{core_of};

use crate::size::element_size;
use bit_ops::Nzcv;
use predicates::{compare_immediate, compare_vectors};
use scalar_exec::write_flags;
use sm_types::{Scalars, VectorCompare};
use sve_vectors::{Vectors, read_p, write_p};

/// Compares two vectors, or a vector with an immediate, where a predicate is active.
#[tactic(auto, unfolding(crate::specs::Predicates::after_compare))]
#[inline(never)]
pub fn exec_compare(scalars: &mut Scalars, vectors: &mut Vectors, x: &VectorCompare)
    requires { IsVectorCompare x.now }
    ensures scalars { scalars.new ≡
        (after_compare (length_of vectors.old) x.now (core_of scalars.old vectors.old)).scalars }
    ensures vectors { vectors.new ≡ with_registers vectors.old
        (after_compare (length_of vectors.old) x.now (core_of scalars.old vectors.old)).registers }
    ensures place { scalars.new.pc ≡ scalars.old.pc }
{
    let mut room = [0u8; 32];
    let bytes = vectors.length() / 8;
    let result = &mut room[..bytes];
    match *x {
        VectorCompare::Vectors {
            op,
            size,
            zm,
            pg,
            zn,
            pd,
        } => {
            let size = element_size(size);
            let p = read_p(vectors, pg);
            let n = vectors.z(zn);
            let flags = compare_vectors(op, size, result, p, n, vectors.z(zm));
            write_p(vectors, pd, result);
            write_flags(scalars, flags);
        }
        VectorCompare::Immediate {
            op,
            size,
            imm,
            pg,
            zn,
            pd,
        } => {
            let size = element_size(size);
            let p = read_p(vectors, pg);
            let flags = compare_immediate(op, size, result, p, vectors.z(zn), imm);
            write_p(vectors, pd, result);
            write_flags(scalars, flags);
        }
    }
}
