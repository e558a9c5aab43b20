//! Numbers of elements, and lengths of vectors, in general registers.
ghost use Rattle.std.specs.Prelude.{◌≡◌, ◌≤◌, ◌*ℤ◌, pos};
ghost use Rattle.vector_elements.specs.Numbers.{wrapped};
ghost use Rattle.vector_elements.specs.declared.size.Size.TheVariants.{D};
ghost use Rattle.predicates.specs.Counts.{element_count, counted_up, counted_down, vector_lengths};
ghost use Rattle.predicates.specs.Counts.{lengths_added};

use crate::pattern::pattern_count;
use vector_elements::{Size, wrapped};

/// How many elements the pattern names of a vector of `bytes` bytes, times a multiplier.
/// Source: DDI 0487, C8.2, CNTB, CNTH, CNTW, CNTD.
#[inline]
#[tactic(auto, unfolding(crate::specs::Counts::element_count))]
pub fn element_number(size: Size, pattern: u8, multiplier: u8, bytes: u64) -> u64
    requires { bytes ≤ 256 }
    ensures { result ≡ element_count size pattern multiplier bytes }
{
    let elements = bytes / size.bytes() as u64;
    pattern_count(pattern, elements) * u64::from(multiplier)
}

/// A register and that number, modulo 2 ^ 64. Source: DDI 0487, C8.2, INCB, INCH, INCW, INCD (scalar).
#[inline]
#[tactic(auto, unfolding(crate::specs::Counts::counted_up))]
pub fn count_up(size: Size, pattern: u8, multiplier: u8, bytes: u64, x: u64) -> u64
    requires { bytes ≤ 256 }
    ensures { result ≡ counted_up size pattern multiplier bytes x }
{
    x.wrapping_add(element_number(size, pattern, multiplier, bytes))
}

/// A register less that number, modulo 2 ^ 64. Source: DDI 0487, C8.2, DECB, DECH, DECW, DECD (scalar).
#[inline]
#[tactic(auto, unfolding(crate::specs::Counts::counted_down))]
pub fn count_down(size: Size, pattern: u8, multiplier: u8, bytes: u64, x: u64) -> u64
    requires { bytes ≤ 256 }
    ensures { result ≡ counted_down size pattern multiplier bytes x }
{
    x.wrapping_sub(element_number(size, pattern, multiplier, bytes))
}

/// So many times the bytes of a vector, modulo 2 ^ 64. Source: DDI 0487, C8.2, RDVL.
#[inline]
#[tactic(auto, unfolding(crate::specs::Counts::vector_lengths))]
pub fn vector_lengths(imm: i32, bytes: u64) -> u64
    requires { bytes ≤ 256 }
    ensures { result ≡ vector_lengths imm bytes }
{
    wrapped(Size::D, i64::from(imm) * (bytes as i64))
}

/// A register and so many times the bytes of a vector, or of a predicate, modulo 2 ^ 64.
/// Source: DDI 0487, C8.2, ADDVL, ADDPL.
#[inline]
#[tactic(auto, unfolding(crate::specs::Counts::lengths_added))]
pub fn add_lengths(of_predicate: bool, imm: i32, bytes: u64, x: u64) -> u64
    requires { bytes ≤ 256 }
    ensures { result ≡ lengths_added of_predicate imm bytes x }
{
    let bytes = if of_predicate { bytes / 8 } else { bytes };
    x.wrapping_add(vector_lengths(imm, bytes))
}
