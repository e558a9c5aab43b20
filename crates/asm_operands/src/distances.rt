//! A word with a distance in the field of its last operand.
#![tactic(auto, unfolding(
// The word with another distance.
crate::specs::Distances::with_distance,
// The field that holds it.
crate::specs::Sound::is_sound, insn_forms::specs::Fields::is_field))]

ghost use Rattle.std.specs.Prelude.{◌≡◌, true};
ghost use Rattle.asm_operands.specs.Distances as distances;
ghost use Rattle.asm_operands.specs.Sound.{is_sound};

use crate::fields::field_said;
use asm_tokens::Token;
use insn_forms::placed;
use insn_text::{Item, Kind};

/// In units of how many bytes the distance is counted; 1 for an operand that is none.
#[tactic(auto, unfolding(crate::specs::Distances::unit_of))]
pub fn unit_of(kind: Kind) -> u16
    ensures { result ≡ distances.unit_of kind }
{
    match kind {
        Kind::Distance { scale } => scale,
        _ => 1,
    }
}

/// A word whose operand has the distance 0, with a distance of so many bytes, forward or back; `None`
/// exactly where the operand does not hold it.
pub fn with_distance(operand: &Item, word: u32, back: bool, size: u64) -> Option<u32>
    requires { is_sound operand.now ≡ true }
    ensures { result ≡ distances.with_distance operand.now word back size }
{
    let bits = u32::from(operand.field.width) + u32::from(operand.field.upper_width);
    match field_said(operand.kind, bits, Token::Distance { back, size }) {
        Some(field) => Some(word | placed(&operand.field, field)),
        None => None,
    }
}
