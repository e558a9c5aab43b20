//! The loops over the elements of a vector.
ghost use Rattle.std.specs.Prelude.{◌≡◌, ℕ, ◌+◌, ◌*◌, ◌%◌, ◌<◌, ◌≤◌, length};
ghost use Rattle.vector_elements.specs.declared.size.Size.{Size as ElementSize};
ghost use Rattle.vector_elements.specs.Elements.{each_element, each_active, each_or_zero};
ghost use Rattle.vector_elements.specs.Numbers.{bytes_in, range_of};

use crate::access::{element, set_element};
use crate::governed::{Merging, Zeroing};
use crate::mask::{are_active, expand};
use crate::size::Size;

/// What an element of a vector becomes, by its place and by what it was.
pub trait Change {
    /// Whether it may be asked about the element at a place.
    ghost can: { Self → ElementSize → ℕ → Type 0 };

    /// The element's new value; of a greater number the low bits.
    ghost gives: { Self → ElementSize → ℕ → ℕ → ℕ };

    /// What the element at the place becomes.
    fn apply(&self, size: Size, place: usize, old: u64) -> u64
        requires place { can self.now size place }
        requires old { old < range_of size }
        ensures { result ≡ gives self.now size place old };
}

/// Changes each element of a vector.
#[inline(always)]
fn each_of_size<C: Change>(change: &C, size: Size, d: &mut [u8])
    requires can { (i : ℕ) → bytes_in size * i + bytes_in size ≤ length d.old → C.can change.now size i }
    requires whole { length d.old % bytes_in size ≡ 0 }
    ensures { d.new ≡ each_element (bytes_in size) d.old (C.gives change.now size) }
{
    for i in 0..d.len() / size.bytes() {
        let value = change.apply(size, i, element(d, size, i));
        set_element(d, size, i, value);
    }
}

/// Changes each element of a vector, with a loop for each size.
#[inline(always)]
pub fn change_each<C: Change>(change: &C, size: Size, d: &mut [u8])
    requires can { (i : ℕ) → bytes_in size * i + bytes_in size ≤ length d.old → C.can change.now size i }
    requires whole { length d.old % bytes_in size ≡ 0 }
    ensures { d.new ≡ each_element (bytes_in size) d.old (C.gives change.now size) }
{
    match size {
        Size::B => each_of_size(change, Size::B, d),
        Size::H => each_of_size(change, Size::H, d),
        Size::S => each_of_size(change, Size::S, d),
        Size::D => each_of_size(change, Size::D, d),
    }
}

/// Changes the elements of a vector that a mask of the predicate marks; the others keep their value.
#[inline(always)]
fn change_marked<C: Change>(change: &C, size: Size, d: &mut [u8], p: &[u8])
    requires can { (i : ℕ) → bytes_in size * i + bytes_in size ≤ length d.old → C.can change.now size i }
    requires whole { length d.old % bytes_in size ≡ 0 }
    requires bits { length d.old ≡ 8 * length p.now }
    requires small { length d.old ≤ 256 }
    ensures { d.new ≡ each_active (bytes_in size) p.now d.old (C.gives change.now size) }
{
    let mut mask = [0u8; 256];
    expand(p, &mut mask);
    change_each(
        &Merging {
            change,
            mask: &mask,
        },
        size,
        d,
    );
}

/// Changes the active elements of a vector; the others keep their value.
/// Where all are active no mask is made.
#[inline(always)]
pub fn change_active<C: Change>(change: &C, size: Size, d: &mut [u8], p: &[u8])
    requires can { (i : ℕ) → bytes_in size * i + bytes_in size ≤ length d.old → C.can change.now size i }
    requires whole { length d.old % bytes_in size ≡ 0 }
    requires bits { length d.old ≡ 8 * length p.now }
    requires small { length d.old ≤ 256 }
    ensures { d.new ≡ each_active (bytes_in size) p.now d.old (C.gives change.now size) }
{
    if are_active(p, size) {
        change_each(change, size, d);
    } else {
        change_marked(change, size, d, p);
    }
}

/// Changes the elements of a vector that a mask of the predicate marks; the others become zero. For callers
/// that ask whether all are active themselves.
#[inline(always)]
pub fn change_marked_or_zero<C: Change>(change: &C, size: Size, d: &mut [u8], p: &[u8])
    requires can { (i : ℕ) → bytes_in size * i + bytes_in size ≤ length d.old → C.can change.now size i }
    requires whole { length d.old % bytes_in size ≡ 0 }
    requires bits { length d.old ≡ 8 * length p.now }
    requires small { length d.old ≤ 256 }
    ensures { d.new ≡ each_or_zero (bytes_in size) p.now d.old (C.gives change.now size) }
{
    let mut mask = [0u8; 256];
    expand(p, &mut mask);
    change_each(
        &Zeroing {
            change,
            mask: &mask,
        },
        size,
        d,
    );
}

/// Changes the active elements of a vector; the others become zero.
/// Where all are active no mask is made.
#[inline(always)]
pub fn change_or_zero<C: Change>(change: &C, size: Size, d: &mut [u8], p: &[u8])
    requires can { (i : ℕ) → bytes_in size * i + bytes_in size ≤ length d.old → C.can change.now size i }
    requires whole { length d.old % bytes_in size ≡ 0 }
    requires bits { length d.old ≡ 8 * length p.now }
    requires small { length d.old ≤ 256 }
    ensures { d.new ≡ each_or_zero (bytes_in size) p.now d.old (C.gives change.now size) }
{
    if are_active(p, size) {
        change_each(change, size, d);
    } else {
        change_marked_or_zero(change, size, d, p);
    }
}
