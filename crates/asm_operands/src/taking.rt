//! Which tokens the operands of a shape take.

ghost use Rattle.std.specs.Prelude.{◌≡◌, ◌<◌, true, length};
ghost use Rattle.std.specs.List.{list_all};
ghost use Rattle.asm_operands.specs.Operands.{taken, taken_count, word_in, taken_count_in};
ghost use Rattle.asm_operands.specs.Sound.{is_sound};
ghost use Rattle.asm_operands.specs.Views.{partial_of};

use crate::partial_word::PartialWord;
use crate::shapes::items_of;
use asm_tokens::Token;
use insn_text::{Item, Shape};

/// The word that the tokens say as these operands, all of them.
fn taken(items: &[Item], partial: PartialWord, tokens: &[Token]) -> Option<u32>
    requires { list_all is_sound items.now ≡ true }
    ensures { result ≡ taken items.now (partial_of partial) tokens.now }
{
    if tokens.len() != items.len() {
        return None;
    }
    let mut partial = partial;
    for index in 0..items.len() {
        match partial.after(&items[index], tokens[index]) {
            Some(next) => partial = next,
            None => return None,
        }
    }
    Some(partial.value)
}

/// How many tokens the operands take, in order, before the first that they do not.
fn taken_count(items: &[Item], partial: PartialWord, tokens: &[Token]) -> usize
    requires { list_all is_sound items.now ≡ true }
    ensures { result ≡ taken_count items.now (partial_of partial) tokens.now }
{
    let mut partial = partial;
    for index in 0..items.len() {
        if index >= tokens.len() {
            return index;
        }
        match partial.after(&items[index], tokens[index]) {
            Some(next) => partial = next,
            None => return index,
        }
    }
    items.len()
}

/// The word that the tokens say in the shape.
#[tactic(auto, unfolding(crate::specs::Operands::word_in))]
pub(crate) fn word_in(shape: &Shape, tokens: &[Token]) -> Option<u32>
    ensures { result ≡ word_in shape.now tokens.now }
{
    taken(items_of(shape), PartialWord::fixed(shape), tokens)
}

/// How many tokens the operands of the shape take.
#[tactic(auto, unfolding(crate::specs::Operands::taken_count_in))]
pub(crate) fn taken_count_in(shape: &Shape, tokens: &[Token]) -> usize
    ensures { result ≡ taken_count_in shape.now tokens.now }
{
    taken_count(items_of(shape), PartialWord::fixed(shape), tokens)
}
