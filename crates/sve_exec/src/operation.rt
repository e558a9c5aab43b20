//! Operations on elements, and the changes of vectors that they make.
ghost use Rattle.std.specs.Prelude.{◌≡◌, ℕ, ◌+◌, ◌*◌, ◌%◌, ◌<◌, ◌≤◌, length};
ghost use Rattle.vector_elements.specs.declared.size.Size.{Size as ElementSize};
ghost use Rattle.vector_elements.specs.Elements.{element_of, each_element, each_active};
ghost use Rattle.vector_elements.specs.Numbers.{bytes_in, range_of};

use vector_elements::{Change, Size, change_active, change_each, element};

/// An operation on two elements.
pub trait Binary: Copy {
    /// What it gives.
    ghost gives: { Self → ElementSize → ℕ → ℕ → ℕ };

    /// Its value at two elements.
    fn of_two(self, size: Size, a: u64, b: u64) -> u64
        requires a { a < range_of size }
        requires b { b < range_of size }
        ensures { result ≡ gives self size a b };
}

/// An operation on the elements of a vector and those of another, `m`.
#[derive(Clone, Copy)]
pub struct WithVector<'a, O> {
    pub op: O,
    pub m: &'a [u8],
}

impl<'a, O: Binary> Change for WithVector<'a, O> {
    ghost can = { λ s size i. bytes_in size * i + bytes_in size ≤ length s.m.now };

    ghost gives = { λ s size i a. O.gives s.op size a (element_of (bytes_in size) s.m.now i) };

    #[inline(always)]
    fn apply(&self, size: Size, place: usize, old: u64) -> u64 {
        self.op.of_two(size, old, element(self.m, size, place))
    }
}

/// Changes the elements of `d` by those of `m`.
#[inline]
pub fn each_with<O: Binary>(op: O, size: Size, d: &mut [u8], m: &[u8])
    requires same { length d.old ≡ length m.now }
    requires whole { length d.old % bytes_in size ≡ 0 }
    ensures { d.new ≡ each_element (bytes_in size) d.old (λ i a.
        O.gives op size a (element_of (bytes_in size) m.now i)) }
{
    change_each(&WithVector { op, m }, size, d);
}

/// Changes the active elements of `d` by those of `m`; the others keep their value.
#[inline]
pub fn active_with<O: Binary>(op: O, size: Size, d: &mut [u8], p: &[u8], m: &[u8])
    requires same { length d.old ≡ length m.now }
    requires whole { length d.old % bytes_in size ≡ 0 }
    requires bits { length d.old ≡ 8 * length p.now }
    requires small { length d.old ≤ 256 }
    ensures { d.new ≡ each_active (bytes_in size) p.now d.old (λ i a.
        O.gives op size a (element_of (bytes_in size) m.now i)) }
{
    change_active(&WithVector { op, m }, size, d, p);
}

/// An operation on the elements of a vector and an element, the same for all.
#[derive(Clone, Copy)]
pub struct WithValue<O> {
    pub op: O,
    pub value: u64,
}

impl<O: Binary> Change for WithValue<O> {
    ghost can = { λ s size i. s.value < range_of size };

    ghost gives = { λ s size i a. O.gives s.op size a s.value };

    #[inline(always)]
    fn apply(&self, size: Size, _place: usize, old: u64) -> u64 {
        self.op.of_two(size, old, self.value)
    }
}

/// An operation on an element.
pub trait Unary: Copy {
    /// What it gives.
    ghost gives: { Self → ElementSize → ℕ → ℕ };

    /// Its value at an element.
    fn of_one(self, size: Size, a: u64) -> u64
        requires { a < range_of size }
        ensures { result ≡ gives self size a };
}

/// An operation on the elements of another vector, `n`.
#[derive(Clone, Copy)]
pub struct OfVector<'a, O> {
    pub op: O,
    pub n: &'a [u8],
}

impl<'a, O: Unary> Change for OfVector<'a, O> {
    ghost can = { λ s size i. bytes_in size * i + bytes_in size ≤ length s.n.now };

    ghost gives = { λ s size i old. O.gives s.op size (element_of (bytes_in size) s.n.now i) };

    #[inline(always)]
    fn apply(&self, size: Size, place: usize, _old: u64) -> u64 {
        self.op.of_one(size, element(self.n, size, place))
    }
}

/// The active elements of `d` become what the operation gives of those of `n`; the others keep their value.
#[inline]
pub fn active_of<O: Unary>(op: O, size: Size, d: &mut [u8], p: &[u8], n: &[u8])
    requires same { length d.old ≡ length n.now }
    requires whole { length d.old % bytes_in size ≡ 0 }
    requires bits { length d.old ≡ 8 * length p.now }
    requires small { length d.old ≤ 256 }
    ensures { d.new ≡ each_active (bytes_in size) p.now d.old (λ i old.
        O.gives op size (element_of (bytes_in size) n.now i)) }
{
    change_active(&OfVector { op, n }, size, d, p);
}

/// An operation on three elements.
pub trait Ternary: Copy {
    /// What it gives.
    ghost gives: { Self → ElementSize → ℕ → ℕ → ℕ → ℕ };

    /// Its value at three elements.
    fn of_three(self, size: Size, a: u64, n: u64, m: u64) -> u64
        requires a { a < range_of size }
        requires n { n < range_of size }
        requires m { m < range_of size }
        ensures { result ≡ gives self size a n m };
}

/// An operation on the elements of a vector and those of two others, `n` and `m`.
#[derive(Clone, Copy)]
pub struct WithVectors<'a, O> {
    pub op: O,
    pub n: &'a [u8],
    pub m: &'a [u8],
}

impl<'a, O: Ternary> Change for WithVectors<'a, O> {
    ghost can = { λ s size i. (bytes_in size * i + bytes_in size ≤ length s.n.now)
        × (bytes_in size * i + bytes_in size ≤ length s.m.now) };

    ghost gives = { λ s size i a.
        O.gives s.op size a (element_of (bytes_in size) s.n.now i) (element_of (bytes_in size) s.m.now i) };

    #[inline(always)]
    fn apply(&self, size: Size, place: usize, old: u64) -> u64 {
        self.op.of_three(
            size,
            old,
            element(self.n, size, place),
            element(self.m, size, place),
        )
    }
}

/// Changes the active elements of `d` by those of `n` and `m`; the others keep their value.
#[inline]
pub fn active_with_both<O: Ternary>(op: O, size: Size, d: &mut [u8], p: &[u8], n: &[u8], m: &[u8])
    requires n { length d.old ≡ length n.now }
    requires m { length d.old ≡ length m.now }
    requires whole { length d.old % bytes_in size ≡ 0 }
    requires bits { length d.old ≡ 8 * length p.now }
    requires small { length d.old ≤ 256 }
    ensures { d.new ≡ each_active (bytes_in size) p.now d.old (λ i a. O.gives op size a
        (element_of (bytes_in size) n.now i) (element_of (bytes_in size) m.now i)) }
{
    change_active(&WithVectors { op, n, m }, size, d, p);
}
