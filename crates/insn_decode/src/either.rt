//! The instruction of a word.
ghost use Rattle.std.specs.Prelude.{◌≡◌, ◌↔◌, Some};
ghost use Rattle.sm_types.specs.declared.insn.Insn.{Insn};
ghost use Rattle.a64_encode.specs.Either.{MeansEither, instruction_of};

use a64_decode::decode_scalar;
use sm_types::Insn;
use sve_decode::decode_vector;

/// The instruction that the rows of either table give the word; `None` exactly where there is none.
pub fn decode(word: u32) -> Option<Insn>
    ensures value { result ≡ instruction_of word }
    ensures rows { (it : Insn) → (result ≡ Some it) ↔ MeansEither word it }
{
    match decode_scalar(word) {
        Some(insn) => Some(insn),
        None => decode_vector(word),
    }
}
