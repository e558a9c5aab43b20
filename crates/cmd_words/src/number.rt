//! Numbers among the words.
ghost use Rattle.std.specs.Prelude.{◌≡◌, ◌^◌, ◌-◌, min, Some, None, if◌then◌else◌};
ghost use Rattle.line_reader.specs.Numbers as spec;

use line_reader::{decimal_number, is_decimal};

/// The number that a word writes, or the greatest `u64` where it writes one above that; `None` exactly
/// where it is not a number.
#[tactic(auto, using(crate::proofs::Numbers::at_most))]
pub fn number_of(word: &str) -> Option<u64>
    ensures { result ≡ (if spec.is_decimal word.now then Some (min (spec.decimal_value word.now) (2 ^ 64 - 1))
        else None) }
{
    let digits = word.as_bytes();
    if is_decimal(digits) {
        Some(decimal_number(digits).unwrap_or(u64::MAX))
    } else {
        None
    }
}
