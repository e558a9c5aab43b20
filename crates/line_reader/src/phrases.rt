//! The further words of a line, one after another.
ghost use Rattle.std.specs.Prelude.{◌≡◌, ◌≤◌, ◌^◌};
ghost use Rattle.line_reader.specs.Phrases as spec;
ghost use Rattle.line_reader.specs.Told.{Speaks, words_ahead};

use crate::fields::Fields;
use crate::numbers::number_below;
use crate::text_fault::TextKind;

/// The number of a word, at least so much, and below the bound.
#[tactic(auto, unfolding(crate::specs::Phrases::number_of))]
fn number_of(least: u32, bound: u64, word: &[u8]) -> Option<u32>
    requires { bound ≤ 2 ^ 32 }
    ensures { result ≡ spec.number_of least bound word.now }
{
    let number = number_below(bound, word)? as u32;
    if least <= number { Some(number) } else { None }
}

/// Reads the next word, which is a number, at least so much, and below the bound; it is `Missing` where no
/// word is left, and another word is `BadNumber`.
#[tactic(auto, unfolding(crate::specs::Phrases::field))]
pub fn read_number(least: u32, bound: u64, words: &mut Fields) -> Result<u32, TextKind>
    requires { bound ≤ 2 ^ 32 }
    ensures { Speaks (spec.number least bound (words_ahead words.old)) result (words_ahead words.new) }
{
    let Some(word) = words.next() else {
        return Err(TextKind::Missing);
    };
    match number_of(least, bound, word) {
        Some(number) => Ok(number),
        None => Err(TextKind::BadNumber),
    }
}

/// Ends with a value, where no word is left; a word that is left is `Extra`.
#[tactic(auto, unfolding(crate::specs::Phrases::ended))]
pub fn end<T: Drop>(value: T, words: &mut Fields) -> Result<T, TextKind>
    ensures { result ≡ spec.ended value (words_ahead words.old) }
{
    match words.next() {
        Some(_) => Err(TextKind::Extra),
        None => Ok(value),
    }
}
