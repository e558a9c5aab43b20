//! The elements of two vectors in one.
ghost use Rattle.std.specs.Prelude.{◌≡◌, ℕ, ◌+◌, ◌*◌, ◌/◌, ◌%◌, ◌≤◌, ◌<◌, ◌++◌, List, length};
ghost use Rattle.sm_types.specs.declared.vector.InterleaveOp.TheVariants.{Zip1, Zip2, Uzp1, Uzp2, Trn1, Trn2};
ghost use Rattle.vector_elements.specs.declared.size.Size.{Size as ElementSize};
ghost use Rattle.vector_elements.specs.Elements.{element_of};
ghost use Rattle.vector_elements.specs.Numbers.{bytes_in};
ghost use Rattle.sve_perm.specs.Permute.{count_of, by_turns, interleaved_at, interleaved, vector_like};

use crate::by_place::{Places, count, put_pairs};
use sm_types::InterleaveOp;
use vector_elements::{Size, element};

/// The element at a place of `n` for an even element `i` of the result, and of `m` for an odd one.
#[inline(always)]
fn by_turns(size: Size, n: &[u8], m: &[u8], i: usize, place: usize) -> u64
    requires n { bytes_in size * place + bytes_in size ≤ length n.now }
    requires m { length m.now ≡ length n.now }
    ensures { result ≡ element_of (bytes_in size) (by_turns n.now m.now i) place }
{
    if i % 2 == 0 {
        element(n, size, place)
    } else {
        element(m, size, place)
    }
}

/// Element `i` of `n` and then `m`.
#[inline(always)]
fn of_both(size: Size, n: &[u8], m: &[u8], i: usize) -> u64
    requires whole { length n.now % bytes_in size ≡ 0 }
    requires m { length m.now ≡ length n.now }
    requires room { bytes_in size * i + bytes_in size ≤ length n.now + length m.now }
    ensures { result ≡ element_of (bytes_in size) (n.now ++ m.now) i }
{
    let half = count(size, n);
    if i < half {
        element(n, size, i)
    } else {
        element(m, size, i - half)
    }
}

/// Which elements of two vectors are taken, each a type of its own: so each has a loop of its own too.
trait Interleaving: Copy {
    /// The element at a place.
    ghost gives: { Self → ElementSize → List ℕ → List ℕ → ℕ → ℕ };

    /// The element at a place, of two vectors of the same length, of which each has an even number.
    fn element_at(self, size: Size, n: &[u8], m: &[u8], place: usize) -> u64
        requires place { bytes_in size * place + bytes_in size ≤ length n.now }
        requires same { length m.now ≡ length n.now }
        requires pairs { length n.now % (2 * bytes_in size) ≡ 0 }
        ensures { result ≡ gives self size n.now m.now place };
}

/// Those of the lower halves by turns.
#[derive(Clone, Copy)]
struct LowerHalves;

impl Interleaving for LowerHalves {
    ghost gives = { λ s size n m i. interleaved_at Zip1 size n m i };

    #[inline(always)]
    #[tactic(auto, unfolding(crate::specs::Permute::interleaved_at))]
    fn element_at(self, size: Size, n: &[u8], m: &[u8], place: usize) -> u64 {
        by_turns(size, n, m, place, place / 2)
    }
}

/// Those of the upper halves by turns.
#[derive(Clone, Copy)]
struct UpperHalves;

impl Interleaving for UpperHalves {
    ghost gives = { λ s size n m i. interleaved_at Zip2 size n m i };

    #[inline(always)]
    #[tactic(auto, unfolding(crate::specs::Permute::interleaved_at))]
    fn element_at(self, size: Size, n: &[u8], m: &[u8], place: usize) -> u64 {
        by_turns(size, n, m, place, count(size, n) / 2 + place / 2)
    }
}

/// The even ones of the first, then of the second.
#[derive(Clone, Copy)]
struct EvenOfBoth;

impl Interleaving for EvenOfBoth {
    ghost gives = { λ s size n m i. interleaved_at Uzp1 size n m i };

    #[inline(always)]
    #[tactic(auto, unfolding(crate::specs::Permute::interleaved_at))]
    fn element_at(self, size: Size, n: &[u8], m: &[u8], place: usize) -> u64 {
        of_both(size, n, m, 2 * place)
    }
}

/// The odd ones of the first, then of the second.
#[derive(Clone, Copy)]
struct OddOfBoth;

impl Interleaving for OddOfBoth {
    ghost gives = { λ s size n m i. interleaved_at Uzp2 size n m i };

    #[inline(always)]
    #[tactic(auto, unfolding(crate::specs::Permute::interleaved_at))]
    fn element_at(self, size: Size, n: &[u8], m: &[u8], place: usize) -> u64 {
        of_both(size, n, m, 2 * place + 1)
    }
}

/// The even ones of both by turns.
#[derive(Clone, Copy)]
struct EvenByTurns;

impl Interleaving for EvenByTurns {
    ghost gives = { λ s size n m i. interleaved_at Trn1 size n m i };

    #[inline(always)]
    #[tactic(auto, unfolding(crate::specs::Permute::interleaved_at))]
    fn element_at(self, size: Size, n: &[u8], m: &[u8], place: usize) -> u64 {
        by_turns(size, n, m, place, 2 * (place / 2))
    }
}

/// The odd ones of both by turns.
#[derive(Clone, Copy)]
struct OddByTurns;

impl Interleaving for OddByTurns {
    ghost gives = { λ s size n m i. interleaved_at Trn2 size n m i };

    #[inline(always)]
    #[tactic(auto, unfolding(crate::specs::Permute::interleaved_at))]
    fn element_at(self, size: Size, n: &[u8], m: &[u8], place: usize) -> u64 {
        by_turns(size, n, m, place, 2 * (place / 2) + 1)
    }
}

/// The elements of two vectors of the same length, of which each has an even number.
#[derive(Clone, Copy)]
struct Interleaved<'a, O> {
    op: O,
    n: &'a [u8],
    m: &'a [u8],
}

impl<'a, O: Interleaving> Places for Interleaved<'a, O> {
    ghost can = { λ s size i. (bytes_in size * i + bytes_in size ≤ length s.n.now)
        × (length s.m.now ≡ length s.n.now) × (length s.n.now % (2 * bytes_in size) ≡ 0) };

    ghost gives = { λ s size i. O.gives s.op size s.n.now s.m.now i };

    #[inline(always)]
    fn value_at(&self, size: Size, place: usize) -> u64 {
        self.op.element_at(size, self.n, self.m, place)
    }
}

/// `d` becomes the elements of `n` and `m` that an operation takes.
#[inline]
fn interleave_by<O: Interleaving>(op: O, size: Size, d: &mut [u8], n: &[u8], m: &[u8])
    requires n { length d.old ≡ length n.now }
    requires m { length d.old ≡ length m.now }
    requires pairs { length d.old % (2 * bytes_in size) ≡ 0 }
    ensures { d.new ≡ vector_like size n.now (O.gives op size n.now m.now) }
{
    put_pairs(&Interleaved { op, n, m }, size, d);
}

/// `d` becomes elements of `n` and `m`, all three of the same length and of an even number of elements: those
/// of their lower or upper halves by turns (ZIP1, ZIP2), the even or odd ones of `n` and then `m` (UZP1,
/// UZP2), or the even or odd ones of both by turns (TRN1, TRN2). With a loop for each operation and size.
/// Source: DDI 0487, C8.2, ZIP1, ZIP2, UZP1, UZP2, TRN1, TRN2 (vectors).
#[tactic(auto, unfolding(crate::specs::Permute::interleaved))]
pub fn interleave(op: InterleaveOp, size: Size, d: &mut [u8], n: &[u8], m: &[u8])
    requires n { length d.old ≡ length n.now }
    requires m { length d.old ≡ length m.now }
    requires pairs { length d.old % (2 * bytes_in size) ≡ 0 }
    ensures { d.new ≡ interleaved op size n.now m.now }
{
    match op {
        InterleaveOp::Zip1 => interleave_by(LowerHalves, size, d, n, m),
        InterleaveOp::Zip2 => interleave_by(UpperHalves, size, d, n, m),
        InterleaveOp::Uzp1 => interleave_by(EvenOfBoth, size, d, n, m),
        InterleaveOp::Uzp2 => interleave_by(OddOfBoth, size, d, n, m),
        InterleaveOp::Trn1 => interleave_by(EvenByTurns, size, d, n, m),
        InterleaveOp::Trn2 => interleave_by(OddByTurns, size, d, n, m),
    }
}
