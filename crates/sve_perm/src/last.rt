//! The last active element of a vector.
ghost use Rattle.std.specs.Prelude.{◌≡◌, ℕ, ◌+◌, ◌*◌, ◌%◌, ◌≤◌, ◌<◌, ◌^◌, length};
ghost use Rattle.vector_elements.specs.Numbers.{bytes_in};
ghost use Rattle.sve_perm.specs.Active.{last_place, last_element_of};

use crate::by_place::count;
use vector_elements::{Size, bit, element};

/// The place of the last active element among `count`, or of the last of all where none is active.
#[inline(always)]
fn last_place(size: Size, pg: &[u8], count: usize) -> usize
    requires some { 0 < count }
    requires bits { bytes_in size * count ≤ 8 * length pg.now }
    requires fits { 8 * length pg.now < 2 ^ 64 }
    ensures value { result ≡ last_place size pg.now count }
    ensures within { result < count }
{
    let width = size.bytes();
    let mut end = count;
    while end > 0 {
        end -= 1;
        if bit(pg, width * end) {
            return end;
        }
    }
    count - 1
}

/// The place after one of `count`, and after the last the first.
#[inline(always)]
fn next_place(place: usize, count: usize) -> usize
    requires { place < count }
    ensures value { result ≡ (place + 1) % count }
    ensures within { result < count }
{
    if place + 1 == count { 0 } else { place + 1 }
}

/// The last active element of `n`, without a sign, or the last of all where none is active; where not
/// `active`, the element after that one, and after the last of all the first. A predicate has a bit for each
/// byte of `n`.
/// Source: DDI 0487, C8.2, LASTA, LASTB (scalar).
#[tactic(auto, unfolding(crate::specs::Active::last_element_of))]
pub fn last_element(active: bool, size: Size, pg: &[u8], n: &[u8]) -> u64
    requires some { bytes_in size ≤ length n.now }
    requires whole { length n.now % bytes_in size ≡ 0 }
    requires bits { length n.now ≡ 8 * length pg.now }
    ensures { result ≡ last_element_of active size pg.now n.now }
{
    let count = count(size, n);
    let last = last_place(size, pg, count);
    if active {
        element(n, size, last)
    } else {
        element(n, size, next_place(last, count))
    }
}
