//! The numbers of a line.
ghost use Rattle.std.specs.Prelude.{◌≡◌};
ghost use Rattle.asm_tokens.specs.Numbers.{hexadecimal_number, number_in};

use crate::characters::byte_at;
use line_reader::{Base, decimal_number, digits_in};

/// The number that hexadecimal digits write, at least one.
#[tactic(auto, unfolding(crate::specs::Numbers::hexadecimal_number))]
fn hexadecimal_number(digits: &[u8]) -> Option<u64>
    ensures { result ≡ hexadecimal_number digits.now }
{
    if 0 < digits.len() {
        digits_in(Base::SixteenAnyCase, digits)
    } else {
        None
    }
}

/// The number that a text is.
#[tactic(auto, unfolding(crate::specs::Numbers::number_in, crate::specs::Numbers::begins_hexadecimal))]
pub fn number_in(text: &[u8]) -> Option<u64>
    ensures { result ≡ number_in text.now }
{
    if byte_at(text, 0) == b'0' && byte_at(text, 1) == b'x' {
        hexadecimal_number(&text[2..])
    } else {
        decimal_number(text)
    }
}
