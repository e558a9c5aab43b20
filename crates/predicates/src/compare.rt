//! Comparisons of elements.
ghost use Rattle.std.specs.Prelude.{◌≡◌, ℕ, ◌+◌, ◌*◌, ◌≤◌, ◌<◌, ◌&&◌, Bool, ℤ, length};
ghost use Rattle.sm_types.specs.declared.vector.CompareVectorsOp.TheVariants as vectors;
ghost use Rattle.sm_types.specs.declared.vector.CompareImmediateOp.TheVariants as immediate;
ghost use Rattle.vector_elements.specs.declared.size.Size.{Size as ElementSize};
ghost use Rattle.vector_elements.specs.Elements.{element_of, is_active, active_of};
ghost use Rattle.vector_elements.specs.Numbers.{bytes_in, range_of};
ghost use Rattle.predicates.specs.Flags.{flags_of};
ghost use Rattle.predicates.specs.Predicates.{predicate_of};
ghost use Rattle.predicates.specs.Compare.{compared, compared_with, vectors_compared, immediate_compared};

use crate::flags::result_flags;
use crate::marks::put_governed;
use crate::truths::Truth;
use bit_ops::Nzcv;
use sm_types::{CompareImmediateOp, CompareVectorsOp};
use vector_elements::{Size, element, signed};

/// How two elements compare, each way a type of its own: so each has a loop of its own too.
trait Comparison: Copy {
    /// Whether they do.
    ghost holds: { Self → ElementSize → ℕ → ℕ → Bool };

    /// Whether two elements compare so.
    fn of_two(self, size: Size, a: u64, b: u64) -> bool
        requires a { a < range_of size }
        requires b { b < range_of size }
        ensures { result ≡ holds self size a b };
}

/// At least as great, without signs.
#[derive(Clone, Copy)]
struct HigherOrSame;

impl Comparison for HigherOrSame {
    ghost holds = { λ s size a b. compared vectors.Hs size a b };

    #[inline(always)]
    #[tactic(auto, unfolding(crate::specs::Compare::compared))]
    fn of_two(self, _size: Size, a: u64, b: u64) -> bool {
        a >= b
    }
}

/// Greater, without signs.
#[derive(Clone, Copy)]
struct Higher;

impl Comparison for Higher {
    ghost holds = { λ s size a b. compared vectors.Hi size a b };

    #[inline(always)]
    #[tactic(auto, unfolding(crate::specs::Compare::compared))]
    fn of_two(self, _size: Size, a: u64, b: u64) -> bool {
        a > b
    }
}

/// At least as great, with signs.
#[derive(Clone, Copy)]
struct GreaterOrEqual;

impl Comparison for GreaterOrEqual {
    ghost holds = { λ s size a b. compared vectors.Ge size a b };

    #[inline(always)]
    #[tactic(auto, unfolding(crate::specs::Compare::compared))]
    fn of_two(self, size: Size, a: u64, b: u64) -> bool {
        signed(size, a) >= signed(size, b)
    }
}

/// Greater, with signs.
#[derive(Clone, Copy)]
struct Greater;

impl Comparison for Greater {
    ghost holds = { λ s size a b. compared vectors.Gt size a b };

    #[inline(always)]
    #[tactic(auto, unfolding(crate::specs::Compare::compared))]
    fn of_two(self, size: Size, a: u64, b: u64) -> bool {
        signed(size, a) > signed(size, b)
    }
}

/// Equal.
#[derive(Clone, Copy)]
struct Equal;

impl Comparison for Equal {
    ghost holds = { λ s size a b. compared vectors.Eq size a b };

    #[inline(always)]
    #[tactic(auto, unfolding(crate::specs::Compare::compared))]
    fn of_two(self, _size: Size, a: u64, b: u64) -> bool {
        a == b
    }
}

/// Not equal.
#[derive(Clone, Copy)]
struct Unequal;

impl Comparison for Unequal {
    ghost holds = { λ s size a b. compared vectors.Ne size a b };

    #[inline(always)]
    #[tactic(auto, unfolding(crate::specs::Compare::compared))]
    fn of_two(self, _size: Size, a: u64, b: u64) -> bool {
        a != b
    }
}

/// How an element and a signed number compare.
trait NumberComparison: Copy {
    /// Whether they do.
    ghost holds: { Self → ElementSize → ℕ → ℤ → Bool };

    /// Whether an element and a number compare so.
    fn with_number(self, size: Size, a: u64, imm: i64) -> bool
        requires { a < range_of size }
        ensures { result ≡ holds self size a imm };
}

/// At least as great as the number.
#[derive(Clone, Copy)]
struct NumberGreaterOrEqual;

impl NumberComparison for NumberGreaterOrEqual {
    ghost holds = { λ s size a imm. compared_with immediate.Ge size a imm };

    #[inline(always)]
    #[tactic(auto, unfolding(crate::specs::Compare::compared_with))]
    fn with_number(self, size: Size, a: u64, imm: i64) -> bool {
        signed(size, a) >= imm
    }
}

/// Greater than the number.
#[derive(Clone, Copy)]
struct NumberGreater;

impl NumberComparison for NumberGreater {
    ghost holds = { λ s size a imm. compared_with immediate.Gt size a imm };

    #[inline(always)]
    #[tactic(auto, unfolding(crate::specs::Compare::compared_with))]
    fn with_number(self, size: Size, a: u64, imm: i64) -> bool {
        signed(size, a) > imm
    }
}

/// Less than the number.
#[derive(Clone, Copy)]
struct NumberLess;

impl NumberComparison for NumberLess {
    ghost holds = { λ s size a imm. compared_with immediate.Lt size a imm };

    #[inline(always)]
    #[tactic(auto, unfolding(crate::specs::Compare::compared_with))]
    fn with_number(self, size: Size, a: u64, imm: i64) -> bool {
        signed(size, a) < imm
    }
}

/// At most the number.
#[derive(Clone, Copy)]
struct NumberLessOrEqual;

impl NumberComparison for NumberLessOrEqual {
    ghost holds = { λ s size a imm. compared_with immediate.Le size a imm };

    #[inline(always)]
    #[tactic(auto, unfolding(crate::specs::Compare::compared_with))]
    fn with_number(self, size: Size, a: u64, imm: i64) -> bool {
        signed(size, a) <= imm
    }
}

/// The number.
#[derive(Clone, Copy)]
struct NumberEqual;

impl NumberComparison for NumberEqual {
    ghost holds = { λ s size a imm. compared_with immediate.Eq size a imm };

    #[inline(always)]
    #[tactic(auto, unfolding(crate::specs::Compare::compared_with))]
    fn with_number(self, size: Size, a: u64, imm: i64) -> bool {
        signed(size, a) == imm
    }
}

/// Not the number.
#[derive(Clone, Copy)]
struct NumberUnequal;

impl NumberComparison for NumberUnequal {
    ghost holds = { λ s size a imm. compared_with immediate.Ne size a imm };

    #[inline(always)]
    #[tactic(auto, unfolding(crate::specs::Compare::compared_with))]
    fn with_number(self, size: Size, a: u64, imm: i64) -> bool {
        signed(size, a) != imm
    }
}

/// The comparison of the elements of two vectors.
#[derive(Clone, Copy)]
struct OfVectors<'a, O> {
    op: O,
    n: &'a [u8],
    m: &'a [u8],
}

impl<'a, O: Comparison> Truth for OfVectors<'a, O> {
    ghost can = { λ s size i. (bytes_in size * i + bytes_in size ≤ length s.n.now)
        × (bytes_in size * i + bytes_in size ≤ length s.m.now) };

    ghost gives = { λ s size i. O.holds s.op size
        (element_of (bytes_in size) s.n.now i) (element_of (bytes_in size) s.m.now i) };

    #[inline(always)]
    fn holds(&self, size: Size, place: usize) -> bool {
        self.op.of_two(
            size,
            element(self.n, size, place),
            element(self.m, size, place),
        )
    }
}

/// The comparison of the elements of a vector with a signed number.
#[derive(Clone, Copy)]
struct WithNumber<'a, O> {
    op: O,
    n: &'a [u8],
    imm: i64,
}

impl<'a, O: NumberComparison> Truth for WithNumber<'a, O> {
    ghost can = { λ s size i. bytes_in size * i + bytes_in size ≤ length s.n.now };

    ghost gives = { λ s size i. O.holds s.op size (element_of (bytes_in size) s.n.now i) s.imm };

    #[inline(always)]
    fn holds(&self, size: Size, place: usize) -> bool {
        self.op
            .with_number(size, element(self.n, size, place), self.imm)
    }
}

/// Makes the active elements true whose elements of `n` and `m` compare so, and all others false.
#[inline]
fn compare_by<O: Comparison>(op: O, size: Size, pd: &mut [u8], pg: &[u8], n: &[u8], m: &[u8])
    requires small { length pd.old ≤ 32 }
    requires g { length pg.now ≡ length pd.old }
    requires n { length n.now ≡ 8 * length pd.old }
    requires m { length m.now ≡ 8 * length pd.old }
    ensures { pd.new ≡ predicate_of (bytes_in size) (length pd.old) (λ i. is_active (bytes_in size) pg.now i
        && O.holds op size (element_of (bytes_in size) n.now i) (element_of (bytes_in size) m.now i)) }
{
    put_governed(&OfVectors { op, n, m }, size, pd, pg);
}

/// Makes the active elements true whose elements of `n` compare so with a number, and all others false.
#[inline]
fn compare_with<O: NumberComparison>(
    op: O,
    size: Size,
    pd: &mut [u8],
    pg: &[u8],
    n: &[u8],
    imm: i32,
)
    requires small { length pd.old ≤ 32 }
    requires g { length pg.now ≡ length pd.old }
    requires n { length n.now ≡ 8 * length pd.old }
    ensures { pd.new ≡ predicate_of (bytes_in size) (length pd.old) (λ i. is_active (bytes_in size) pg.now i
        && O.holds op size (element_of (bytes_in size) n.now i) imm) }
{
    let imm = i64::from(imm);
    put_governed(&WithNumber { op, n, imm }, size, pd, pg);
}

/// The comparison of `compare_vectors`, without flags.
#[tactic(auto, unfolding(crate::specs::Compare::vectors_compared))]
fn put_compared(op: CompareVectorsOp, size: Size, pd: &mut [u8], pg: &[u8], n: &[u8], m: &[u8])
    requires small { length pd.old ≤ 32 }
    requires g { length pg.now ≡ length pd.old }
    requires n { length n.now ≡ 8 * length pd.old }
    requires m { length m.now ≡ 8 * length pd.old }
    ensures { pd.new ≡ vectors_compared op size (length pd.old) pg.now n.now m.now }
{
    match op {
        CompareVectorsOp::Hs => compare_by(HigherOrSame, size, pd, pg, n, m),
        CompareVectorsOp::Hi => compare_by(Higher, size, pd, pg, n, m),
        CompareVectorsOp::Ge => compare_by(GreaterOrEqual, size, pd, pg, n, m),
        CompareVectorsOp::Gt => compare_by(Greater, size, pd, pg, n, m),
        CompareVectorsOp::Eq => compare_by(Equal, size, pd, pg, n, m),
        CompareVectorsOp::Ne => compare_by(Unequal, size, pd, pg, n, m),
    }
}

/// Makes the active elements true whose elements of `n` and `m` compare so, and all others false; with the
/// flags of the result, governed by `pg`. With a loop for each operation and size.
/// Source: DDI 0487, C8.2, CMPHS, CMPHI, CMPGE, CMPGT, CMPEQ, CMPNE (vectors).
pub fn compare_vectors(
    op: CompareVectorsOp,
    size: Size,
    pd: &mut [u8],
    pg: &[u8],
    n: &[u8],
    m: &[u8],
) -> Nzcv
    requires small { length pd.old ≤ 32 }
    requires g { length pg.now ≡ length pd.old }
    requires n { length n.now ≡ 8 * length pd.old }
    requires m { length m.now ≡ 8 * length pd.old }
    ensures value { pd.new ≡ vectors_compared op size (length pd.old) pg.now n.now m.now }
    ensures flags { result ≡
        flags_of (active_of (bytes_in size) pg.now) (active_of (bytes_in size) pd.new) }
{
    put_compared(op, size, pd, pg, n, m);
    result_flags(size, pg, pd)
}

/// The comparison of `compare_immediate`, without flags.
#[tactic(auto, unfolding(crate::specs::Compare::immediate_compared))]
fn put_compared_with(
    op: CompareImmediateOp,
    size: Size,
    pd: &mut [u8],
    pg: &[u8],
    n: &[u8],
    imm: i32,
)
    requires small { length pd.old ≤ 32 }
    requires g { length pg.now ≡ length pd.old }
    requires n { length n.now ≡ 8 * length pd.old }
    ensures { pd.new ≡ immediate_compared op size (length pd.old) pg.now n.now imm }
{
    match op {
        CompareImmediateOp::Ge => compare_with(NumberGreaterOrEqual, size, pd, pg, n, imm),
        CompareImmediateOp::Gt => compare_with(NumberGreater, size, pd, pg, n, imm),
        CompareImmediateOp::Lt => compare_with(NumberLess, size, pd, pg, n, imm),
        CompareImmediateOp::Le => compare_with(NumberLessOrEqual, size, pd, pg, n, imm),
        CompareImmediateOp::Eq => compare_with(NumberEqual, size, pd, pg, n, imm),
        CompareImmediateOp::Ne => compare_with(NumberUnequal, size, pd, pg, n, imm),
    }
}

/// Makes the active elements true whose elements of `n`, as signed numbers, compare so with a number, and all
/// others false; with the flags of the result, governed by `pg`. With a loop for each operation and size.
/// Source: DDI 0487, C8.2, CMPGE, CMPGT, CMPLT, CMPLE, CMPEQ, CMPNE (immediate).
pub fn compare_immediate(
    op: CompareImmediateOp,
    size: Size,
    pd: &mut [u8],
    pg: &[u8],
    n: &[u8],
    imm: i32,
) -> Nzcv
    requires small { length pd.old ≤ 32 }
    requires g { length pg.now ≡ length pd.old }
    requires n { length n.now ≡ 8 * length pd.old }
    ensures value { pd.new ≡ immediate_compared op size (length pd.old) pg.now n.now imm }
    ensures flags { result ≡
        flags_of (active_of (bytes_in size) pg.now) (active_of (bytes_in size) pd.new) }
{
    put_compared_with(op, size, pd, pg, n, imm);
    result_flags(size, pg, pd)
}
