//! What the operands after a mnemonic say.

ghost use Rattle.std.specs.Prelude.{◌≡◌, ◌-◌, ◌&&◌, length, slice_get, option_and_then, option_map, is_some};
ghost use Rattle.std.specs.Prelude.{IfSome};
ghost use Rattle.a64_encode.specs.Either.{instruction_of};
ghost use Rattle.asm_operands.specs.Operands.{first_word, is_distance, is_name_token, names};
ghost use Rattle.asm_operands.specs.Operands.{target_in, target_of, operands_said};
ghost use Rattle.asm_operands.specs.Views.{said_by};

use crate::faults::operand_fault;
use crate::operands::{OperandFault, Operands, Target};
use crate::shapes::{items_of, shapes_of};
use crate::taking::word_in;
use asm_tokens::{Token, is_name};
use insn_decode::decode;
use insn_text::{Item, Kind, Shape};

/// Whether the kind is a distance, for which a name may stand.
#[tactic(auto, unfolding(crate::specs::Operands::is_distance))]
fn is_distance(kind: Kind) -> bool
    ensures { result ≡ is_distance kind }
{
    matches!(kind, Kind::Distance { .. })
}

/// Whether there is a token of that index, and a name.
fn is_name_at(tokens: &[Token], index: usize) -> bool
    ensures { result ≡ is_name_token (slice_get tokens.now index) }
{
    index < tokens.len() && is_name(tokens[index])
}

/// The operand of an index, where it is a distance and its token a name.
fn named_at(items: &[Item], tokens: &[Token], index: usize) -> Option<Item>
    ensures { result ≡ option_and_then (names (slice_get tokens.now index)) (slice_get items.now index) }
{
    if index >= items.len() {
        None
    } else if is_distance(items[index].kind) && is_name_at(tokens, index) {
        Some(items[index])
    } else {
        None
    }
}

/// The last operand with its token, where that is a name for a distance.
#[tactic(auto, unfolding(crate::specs::Operands::target_in))]
fn target_in(items: &[Item], tokens: &[Token]) -> Option<Target>
    ensures { result ≡ target_in items.now tokens.now }
{
    let index = items.len().saturating_sub(1);
    match named_at(items, tokens, index) {
        Some(operand) => Some(Target { index, operand }),
        None => None,
    }
}

/// The word that tokens say, and its target, where that is a name.
#[derive(Clone, Copy)]
pub(crate) struct Said {
    pub(crate) word: u32,
    pub(crate) target: Option<Target>,
}

/// What the first shape says that takes the tokens.
pub(crate) fn first_said(shapes: &[Shape], tokens: &[Token]) -> Option<Said>
    ensures word { option_map (λ said. said.word) result ≡ first_word shapes.now tokens.now }
    ensures target { IfSome result (λ said. said.target ≡ target_of shapes.now tokens.now) }
{
    for shape in shapes {
        match word_in(shape, tokens) {
            Some(word) => return Some(Said {
                word,
                target: target_in(items_of(shape), tokens),
            }),
            None => {}
        }
    }
    None
}

/// Whether a word means an instruction.
fn is_instruction(word: u32) -> bool
    ensures { result ≡ is_some (instruction_of word) }
{
    decode(word).is_some()
}

#[tactic(auto, unfolding(
// What the tokens say, and the word that it means.
crate::specs::Operands::operands_said, crate::specs::Operands::word_said, crate::specs::Operands::if_meant))]
/// What the tokens after a mnemonic say: the word, with the token that names its target, or the first fault;
/// `mnemonic` is an index in `insn_text::MNEMONICS`.
pub fn read_operands(mnemonic: u16, tokens: &[Token]) -> Result<Operands, OperandFault>
    ensures { said_by result ≡ operands_said mnemonic tokens.now }
{
    let shapes = shapes_of(mnemonic);
    match first_said(shapes, tokens) {
        Some(said) if is_instruction(said.word) => Ok(Operands {
            word: said.word,
            target: said.target,
        }),
        _ => Err(operand_fault(shapes, tokens)),
    }
}
