//! The numbers of elements that patterns name.
ghost use Rattle.std.specs.Prelude.{◌≡◌, ◌*◌, ◌≤◌, ◌<◌, ◌^◌};
ghost use Rattle.predicates.specs.Patterns.{floor_power, number_or_none, pattern_count};

/// The greatest power of 2 up to a number, and 0 where there is none.
#[inline(always)]
#[tactic(auto, unfolding(crate::specs::Patterns::floor_power))]
fn floor_power(count: u64) -> u64
    ensures value { result ≡ floor_power count }
    ensures within { result ≤ count }
    ensures greatest { 0 < count → count < 2 * result }
{
    if count == 0 {
        0
    } else {
        1 << (63 - count.leading_zeros())
    }
}

/// A number of elements, and 0 where there are fewer.
#[inline(always)]
#[tactic(auto, unfolding(crate::specs::Patterns::number_or_none))]
fn number_or_none(number: u64, count: u64) -> u64
    ensures value { result ≡ number_or_none number count }
    ensures within { result ≤ count }
{
    if number <= count { number } else { 0 }
}

/// How many of `count` elements a pattern names: all, a fixed number of them, or the greatest number up to
/// `count` that is a power of 2 or a multiple of 3 or 4. Source: DDI 0487, J1.1, DecodePredCount.
#[inline]
#[tactic(auto, unfolding(crate::specs::Patterns::pattern_count))]
pub fn pattern_count(pattern: u8, count: u64) -> u64
    ensures value { result ≡ pattern_count pattern count }
    ensures within { result ≤ count }
{
    match pattern {
        0 => floor_power(count),
        1 => number_or_none(1, count),
        2 => number_or_none(2, count),
        3 => number_or_none(3, count),
        4 => number_or_none(4, count),
        5 => number_or_none(5, count),
        6 => number_or_none(6, count),
        7 => number_or_none(7, count),
        8 => number_or_none(8, count),
        9 => number_or_none(16, count),
        10 => number_or_none(32, count),
        11 => number_or_none(64, count),
        12 => number_or_none(128, count),
        13 => number_or_none(256, count),
        29 => count - count % 4,
        30 => count - count % 3,
        31 => count,
        _ => 0,
    }
}
