//! Predicates of a pattern, and logical operations on predicates.
ghost use Rattle.std.specs.Prelude.{◌≡◌, ◌/◌, ◌<◌};
ghost use Rattle.sve_table.specs.Ranges.{IsPredicate};
ghost use Rattle.sve_vectors.specs.State.{length_of, with_registers};
ghost use Rattle.vector_step.specs.Predicates.{after_predicate};
ghost use Rattle.vector_step.specs.Core.{core_of};

use crate::size::element_size;
use predicates::{
    predicate_false, predicate_logical, predicate_logical_flags, predicate_test, predicate_true,
};
use scalar_exec::write_flags;
use sm_types::{Predicate, Scalars};
use sve_vectors::{Vectors, read_p, write_p};

/// Writes a predicate of a pattern, of no element, or of two predicates, or tests one.
#[tactic(auto, unfolding(crate::specs::Predicates::after_predicate))]
#[inline(never)]
pub fn exec_predicate(scalars: &mut Scalars, vectors: &mut Vectors, x: &Predicate)
    requires { IsPredicate x.now }
    ensures scalars { scalars.new ≡
        (after_predicate (length_of vectors.old) x.now (core_of scalars.old vectors.old)).scalars }
    ensures vectors { vectors.new ≡ with_registers vectors.old
        (after_predicate (length_of vectors.old) x.now (core_of scalars.old vectors.old)).registers }
    ensures place { scalars.new.pc ≡ scalars.old.pc }
{
    let mut room = [0u8; 32];
    let bytes = vectors.length() / 8;
    let result = &mut room[..bytes];
    match *x {
        Predicate::True { size, pattern, pd } => {
            predicate_true(element_size(size), pattern, result);
            write_p(vectors, pd, result);
        }
        Predicate::False { pd } => {
            predicate_false(result);
            write_p(vectors, pd, result);
        }
        Predicate::Test { pg, pn } => {
            let p = read_p(vectors, pg);
            let flags = predicate_test(p, read_p(vectors, pn));
            write_flags(scalars, flags);
        }
        Predicate::Logical {
            op,
            flags,
            pm,
            pg,
            pn,
            pd,
        } => {
            let p = read_p(vectors, pg);
            let n = read_p(vectors, pn);
            let m = read_p(vectors, pm);
            if flags {
                let flags = predicate_logical_flags(op, result, p, n, m);
                write_flags(scalars, flags);
            } else {
                predicate_logical(op, result, p, n, m);
            }
            write_p(vectors, pd, result);
        }
    }
}
