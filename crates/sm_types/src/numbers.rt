//! The numbers of a run's options.
ghost use Rattle.std.specs.Prelude.{◌≡◌, true, false, MatchOption};
ghost use Rattle.sm_types.specs.Length.{bits_of};
ghost use Rattle.sm_types.specs.Ranges as spec;

use crate::length::VecLen;

/// The numbers of a run's options, the lengths in bits, whether or not each is one that its option takes.
#[derive(Clone, Copy, Debug, PartialEq, Eq)]
pub struct Numbers {
    pub vl: u64,
    pub svl: u64,
    pub slice: u64,
    pub budget: u64,
    pub threads: u64,
    pub cores: u64,
    pub kernel: u64,
}

/// Tells whether a number of bits is one of the five vector lengths.
pub fn is_length(bits: u64) -> bool
    ensures { result ≡ spec.is_length bits }
{
    matches!(bits, 128 | 256 | 512 | 1024 | 2048)
}

/// Tells whether a slice has so many counted instructions: 1 to 1,000,000.
pub fn is_slice(number: u64) -> bool
    ensures { result ≡ spec.is_slice number }
{
    matches!(number, 1..=1_000_000)
}

/// Tells whether a budget has so many counted instructions: 1 to 4,294,967,295.
pub fn is_budget(number: u64) -> bool
    ensures { result ≡ spec.is_budget number }
{
    matches!(number, 1..=0xFFFF_FFFF)
}

/// Tells whether a run may have so many guest threads: 1 to 32.
pub fn are_threads(number: u64) -> bool
    ensures { result ≡ spec.are_threads number }
{
    matches!(number, 1..=32)
}

/// Tells whether a run may have so many cores: 1 to 64.
pub fn are_cores(number: u64) -> bool
    ensures { result ≡ spec.are_cores number }
{
    matches!(number, 1..=64)
}

/// Tells whether a kernel has that version: 1 or 2.
pub fn is_kernel(number: u64) -> bool
    ensures { result ≡ spec.is_kernel number }
{
    matches!(number, 1..=2)
}

/// The vector length of so many bits; `None` exactly where it is none of the five.
pub fn length_of(bits: u64) -> Option<VecLen>
    ensures { MatchOption result (spec.is_length bits ≡ false)
        (λ length. (spec.is_length bits ≡ true) × (bits_of length ≡ bits)) }
{
    match bits {
        128 => Some(VecLen::Bits128),
        256 => Some(VecLen::Bits256),
        512 => Some(VecLen::Bits512),
        1024 => Some(VecLen::Bits1024),
        2048 => Some(VecLen::Bits2048),
        _ => None,
    }
}
