//! The flags of a result.
ghost use Rattle.std.specs.Prelude.{◌≡◌, ◌*◌, ◌≤◌, if◌then◌else◌, length};
ghost use Rattle.vector_elements.specs.Elements.{active_of};
ghost use Rattle.vector_elements.specs.Numbers.{bytes_in};
ghost use Rattle.vector_elements.specs.Active.{AreActive};
ghost use Rattle.predicates.specs.Flags.{flags_of, any_true, HasBitsOfSome};

use bit_ops::Nzcv;
use vector_elements::{Size, are_active, bit, element_bits};

/// One of two truth values, without a branch in the loop that asks.
#[inline(always)]
fn choose(test: bool, yes: bool, no: bool) -> bool
    ensures { result ≡ (if test then yes else no) }
{
    if test { yes } else { no }
}

/// The bits that are set in some byte.
#[inline(always)]
fn bits_of_some(p: &[u8]) -> u8
    ensures { HasBitsOfSome result p.now }
{
    let mut bits = 0;
    for i in 0..p.len() {
        bits = bits | p[i];
    }
    bits
}

/// Whether an element holds.
#[inline(always)]
fn some_holds(size: Size, p: &[u8]) -> bool
    ensures { result ≡ any_true (active_of (bytes_in size) p.now) }
{
    bits_of_some(p) & element_bits(size) != 0
}

/// The flags of a result where all elements are active: by its first element, its last, and whether one
/// holds.
#[inline(always)]
fn flags_of_whole(size: Size, mask: &[u8], results: &[u8]) -> Nzcv
    requires same { length results.now ≡ length mask.now }
    requires some { 1 ≤ length mask.now }
    requires small { length mask.now ≤ 32 }
    requires active { AreActive size mask.now }
    ensures { result ≡ flags_of (active_of (bytes_in size) mask.now) (active_of (bytes_in size) results.now) }
{
    let width = size.bytes();
    let first_holds = bit(results, 0);
    let any_holds = some_holds(size, results);
    let last_holds = bit(results, 8 * results.len() - width);
    Nzcv {
        n: first_holds,
        z: !any_holds,
        c: !last_holds,
        v: false,
    }
}

/// The flags of a result, element by element.
fn flags_of_each(size: Size, mask: &[u8], results: &[u8]) -> Nzcv
    requires same { length results.now ≡ length mask.now }
    requires small { length mask.now ≤ 32 }
    ensures { result ≡ flags_of (active_of (bytes_in size) mask.now) (active_of (bytes_in size) results.now) }
{
    let width = size.bytes();
    let mut first = false;
    let mut seen = false;
    let mut any = false;
    let mut last = false;
    for i in 0..8 * mask.len() / width {
        let on = bit(mask, width * i);
        let holds = bit(results, width * i);
        first = choose(seen, first, on & holds);
        seen = seen | on;
        any = any | (on & holds);
        last = choose(on, holds, last);
    }
    Nzcv {
        n: first,
        z: !any,
        c: !last,
        v: false,
    }
}

/// The flags of a result. Mostly all elements are active.
#[inline(always)]
fn flags_by(size: Size, mask: &[u8], results: &[u8]) -> Nzcv
    requires same { length results.now ≡ length mask.now }
    requires small { length mask.now ≤ 32 }
    ensures { result ≡ flags_of (active_of (bytes_in size) mask.now) (active_of (bytes_in size) results.now) }
{
    if mask.len() >= 1 && are_active(mask, size) {
        flags_of_whole(size, mask, results)
    } else {
        flags_of_each(size, mask, results)
    }
}

/// The flags of a predicate that an instruction gives, governed by a mask: N is the result at the first
/// active element, Z that no active element is true, C that the last is not; V is 0. Those of two bytes are
/// made without a loop.
/// Source: DDI 0487, J1.1, PredTest.
#[inline]
pub fn result_flags(size: Size, mask: &[u8], results: &[u8]) -> Nzcv
    requires same { length results.now ≡ length mask.now }
    requires small { length mask.now ≤ 32 }
    ensures { result ≡ flags_of (active_of (bytes_in size) mask.now) (active_of (bytes_in size) results.now) }
{
    if mask.len() == 2 {
        flags_by(size, &mask[..2], &results[..2])
    } else {
        flags_by(size, mask, results)
    }
}
