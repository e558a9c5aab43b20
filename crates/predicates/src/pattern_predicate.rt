//! Predicates of a pattern, and predicates without true elements.
ghost use Rattle.std.specs.Prelude.{◌≡◌, ℕ, ◌+◌, ◌*◌, ◌/◌, ◌%◌, ◌^◌, ◌<◌, ◌≤◌, ◌==◌, nat_lt, min, length};
ghost use Rattle.vector_elements.specs.Numbers.{bytes_in};
ghost use Rattle.predicates.specs.Predicates.{predicate_of};
ghost use Rattle.predicates.specs.Logical.{pattern_predicate, no_elements};

use crate::pattern::pattern_count;
use sve_vectors::truths_tell_bytes;
use vector_elements::{Size, element_bits};

/// The byte of which so many of the lowest bits are set, and no other.
#[inline(always)]
fn low_ones(count: u64) -> u8
    requires { count ≤ 8 }
    ensures { (k : ℕ) → k < 8 → (result / 2 ^ k % 2 == 1) ≡ nat_lt k count }
{
    let ones = [0u8, 1, 3, 7, 15, 31, 63, 127, 255];
    ones[count as usize]
}

/// The bit after those of the first elements, so many or all.
#[inline(always)]
fn end_of(limit: u64, size: Size, bytes: usize) -> u64
    requires { bytes ≤ 32 }
    ensures { result ≡ min limit (8 * bytes / bytes_in size) * bytes_in size }
{
    let count = 8 * bytes / size.bytes();
    limit.min(count as u64) * size.bytes() as u64
}

/// Byte `i` of a predicate of which the bits before one are set, with those of the byte in which that one is.
/// In bytes and without a table, so that a loop over bytes is vectorized.
#[inline(always)]
fn byte_before(end: u64, part: u8, i: usize) -> u8
    requires i { i < 32 }
    requires end { end ≤ 256 }
    requires part { (k : ℕ) → k < 8 → (part / 2 ^ k % 2 == 1) ≡ nat_lt k (end % 8) }
    ensures { (k : ℕ) → k < 8 → (result / 2 ^ k % 2 == 1) ≡ nat_lt (8 * i + k) end }
{
    let byte = i as u8;
    let last = (end / 8) as u8;
    if byte < last {
        0xff
    } else if byte == last {
        part
    } else {
        0
    }
}

/// Makes the first elements true, so many or all, and the others false; a byte of the predicate at a time.
#[inline(always)]
pub fn put_below(limit: u64, size: Size, pd: &mut [u8])
    requires { length pd.old ≤ 32 }
    ensures { pd.new ≡ predicate_of (bytes_in size) (length pd.old) (λ i. nat_lt i limit) }
{
    let bits = element_bits(size);
    let end = end_of(limit, size, pd.len());
    let part = low_ones(end % 8);
    for i in 0..pd.len() {
        let ones = byte_before(end, part, i);
        pd[i] = bits & ones;
    }
    truths_tell_bytes(pd);
}

/// Makes the first elements true, as many as the pattern names. Source: DDI 0487, C8.2, PTRUE.
#[tactic(auto, unfolding(crate::specs::Logical::pattern_predicate))]
pub fn predicate_true(size: Size, pattern: u8, pd: &mut [u8])
    requires { length pd.old ≤ 32 }
    ensures { pd.new ≡ pattern_predicate size pattern (length pd.old) }
{
    let count = 8 * pd.len() / size.bytes();
    let limit = pattern_count(pattern, count as u64);
    put_below(limit, size, pd);
}

/// Makes all elements false. Source: DDI 0487, C8.2, PFALSE.
#[tactic(auto, unfolding(crate::specs::Logical::no_elements))]
pub fn predicate_false(pd: &mut [u8])
    requires { length pd.old ≤ 32 }
    ensures { pd.new ≡ no_elements (length pd.old) }
{
    put_below(0, Size::B, pd);
}
