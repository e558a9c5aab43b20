//! Addresses in words.
ghost use Rattle.std.specs.Prelude.{◌≡◌, Some, None, option_map, drop, if◌then◌else◌};
ghost use Rattle.script_reader.specs.Words as spec;

use line_reader::{Base, digits_in, is_word};

/// What stands after `0x` in a word, where that is 1 to 16 characters.
#[tactic(auto, unfolding(crate::specs::Words::begins_address))]
fn digits_of(word: &[u8]) -> Option<&[u8]>
    ensures { option_map (λ digits. digits.now) result
        ≡ (if spec.begins_address word.now then Some (drop 2 word.now) else None) }
{
    if 3 <= word.len() && word.len() <= 18 && is_word(&word[..2], b"0x") {
        Some(&word[2..])
    } else {
        None
    }
}

/// The address that a word writes: `0x`, and 1 to 16 hexadecimal digits of either case.
#[tactic(auto, using(crate::proofs::Addresses::address_read, crate::proofs::Addresses::no_address))]
pub fn address_of(word: &[u8]) -> Option<u64>
    ensures { result ≡ spec.address_of word.now }
{
    match digits_of(word) {
        Some(digits) => digits_in(Base::SixteenAnyCase, digits),
        None => None,
    }
}
