//! Elements in reverse, elements by their indices, and the bytes of two vectors from a place on.
ghost use Rattle.std.specs.Prelude.{◌≡◌, ℕ, ◌+◌, ◌-◌, ◌*◌, ◌%◌, ◌≤◌, ◌<◌, nat_lt, if◌then◌else◌, length};
ghost use Rattle.vector_elements.specs.Elements.{element_of};
ghost use Rattle.vector_elements.specs.Numbers.{bytes_in};
ghost use Rattle.sve_perm.specs.Permute.{count_of, looked_up, reversed, table_of, extracted};

use crate::by_place::{Places, count, put_values};
use vector_elements::{Size, element};

/// The elements of a vector from the last to the first.
#[derive(Clone, Copy)]
struct Reversed<'a> {
    n: &'a [u8],
}

impl<'a> Places for Reversed<'a> {
    ghost can = { λ s size i. bytes_in size * i + bytes_in size ≤ length s.n.now };

    ghost gives = { λ s size i. element_of (bytes_in size) s.n.now (count_of size s.n.now - 1 - i) };

    #[inline(always)]
    fn value_at(&self, size: Size, place: usize) -> u64 {
        element(self.n, size, count(size, self.n) - 1 - place)
    }
}

/// `d` becomes the elements of `n`, which is as long, from the last to the first.
/// Source: DDI 0487, C8.2, REV (vector).
#[tactic(auto, unfolding(crate::specs::Permute::reversed))]
pub fn reverse(size: Size, d: &mut [u8], n: &[u8])
    requires same { length d.old ≡ length n.now }
    requires whole { length d.old % bytes_in size ≡ 0 }
    ensures { d.new ≡ reversed size n.now }
{
    put_values(&Reversed { n }, size, d);
}

/// The element of `n` at an index, or 0 past the end.
#[inline(always)]
fn looked_up(size: Size, n: &[u8], index: u64) -> u64
    ensures { result ≡ looked_up size n.now index }
{
    if index < count(size, n) as u64 {
        element(n, size, index as usize)
    } else {
        0
    }
}

/// The elements of a vector at indices that are the elements of another.
#[derive(Clone, Copy)]
struct LookedUp<'a> {
    n: &'a [u8],
    m: &'a [u8],
}

impl<'a> Places for LookedUp<'a> {
    ghost can = { λ s size i. bytes_in size * i + bytes_in size ≤ length s.m.now };

    ghost gives = { λ s size i. looked_up size s.n.now (element_of (bytes_in size) s.m.now i) };

    #[inline(always)]
    fn value_at(&self, size: Size, place: usize) -> u64 {
        looked_up(size, self.n, element(self.m, size, place))
    }
}

/// `d` becomes the elements of `n` at the indices that are the elements of `m`, all three of the same length;
/// an index past the end gives 0. Source: DDI 0487, C8.2, TBL.
#[tactic(auto, unfolding(crate::specs::Permute::table_of))]
pub fn table(size: Size, d: &mut [u8], n: &[u8], m: &[u8])
    requires n { length d.old ≡ length n.now }
    requires m { length d.old ≡ length m.now }
    requires whole { length d.old % bytes_in size ≡ 0 }
    ensures { d.new ≡ table_of size n.now m.now }
{
    put_values(&LookedUp { n, m }, size, d);
}

/// The byte from which EXT takes bytes: an amount past the end counts as 0.
#[inline(always)]
fn start_of(amount: u8, bytes: usize) -> usize
    requires { 0 < bytes }
    ensures value { result ≡ (if nat_lt amount bytes then amount else 0) }
    ensures within { result < bytes }
{
    let start = usize::from(amount);
    if start < bytes { start } else { 0 }
}

/// `d` becomes as many bytes of `n` and then `m` from byte `amount` on, all three of the same length; an
/// amount past the end of `n` counts as 0. Source: DDI 0487, C8.2, EXT.
pub fn extract(amount: u8, d: &mut [u8], n: &[u8], m: &[u8])
    requires some { 0 < length d.old }
    requires n { length d.old ≡ length n.now }
    requires m { length d.old ≡ length m.now }
    ensures { d.new ≡ extracted amount n.now m.now }
{
    let start = start_of(amount, n.len());
    let kept = n.len() - start;
    let (low, high) = d.split_at_mut(kept);
    low.copy_from_slice(&n[start..]);
    high.copy_from_slice(&m[..start]);
}
