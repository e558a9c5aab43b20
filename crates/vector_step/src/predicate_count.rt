//! The predicates of loops, the number of active elements, and FFR.
ghost use Rattle.std.specs.Prelude.{◌≡◌, ◌*◌, ◌/◌, ◌<◌, length, replicate, true};
ghost use Rattle.sve_table.specs.Ranges.{IsPredicateCount};
ghost use Rattle.sve_vectors.specs.Predicates.{truths_of};
ghost use Rattle.sve_vectors.specs.State.{length_of, with_registers};
ghost use Rattle.vector_step.specs.Predicates.{after_predicate_count};
ghost use Rattle.vector_step.specs.Core.{core_of};

use crate::size::element_size;
use predicates::{active_count, predicate_while};
use scalar_exec::{read_x, write_flags, write_x};
use sm_types::{PredicateCount, Scalars};
use sve_vectors::{Vectors, read_p, write_ffr, write_p};

/// Sets all bits.
#[inline]
#[tactic(auto, using(crate::proofs::Ones::truths_of_ones))]
fn set_all(bytes: &mut [u8])
    ensures { truths_of bytes.new ≡ replicate (8 * length bytes.new) true }
{
    bytes.fill(0xff);
}

/// Writes the predicate of a loop, counts active elements, or writes or reads FFR.
#[tactic(auto, unfolding(crate::specs::Predicates::after_predicate_count))]
#[inline(never)]
pub fn exec_predicate_count(scalars: &mut Scalars, vectors: &mut Vectors, x: &PredicateCount)
    requires { IsPredicateCount x.now }
    ensures scalars { scalars.new ≡
        (after_predicate_count (length_of vectors.old) x.now (core_of scalars.old vectors.old)).scalars }
    ensures vectors { vectors.new ≡ with_registers vectors.old
        (after_predicate_count (length_of vectors.old) x.now (core_of scalars.old vectors.old)).registers }
    ensures place { scalars.new.pc ≡ scalars.old.pc }
{
    let mut room = [0u8; 32];
    let bytes = vectors.length() / 8;
    let result = &mut room[..bytes];
    match *x {
        PredicateCount::While {
            signed,
            wide,
            size,
            rm,
            rn,
            pd,
        } => {
            let size = element_size(size);
            let n = read_x(scalars, rn);
            let flags = predicate_while(signed, wide, size, result, n, read_x(scalars, rm));
            write_p(vectors, pd, result);
            write_flags(scalars, flags);
        }
        PredicateCount::Active { size, pg, pn, rd } => {
            let p = read_p(vectors, pg);
            let count = active_count(element_size(size), p, read_p(vectors, pn));
            write_x(scalars, rd, count);
        }
        PredicateCount::SetFfr => {
            set_all(result);
            write_ffr(vectors, result);
        }
        PredicateCount::ReadFfr { pd } => {
            result.copy_from_slice(vectors.ffr());
            write_p(vectors, pd, result);
        }
        PredicateCount::WriteFfr { pn } => {
            result.copy_from_slice(vectors.p(pn));
            write_ffr(vectors, result);
        }
    }
}
