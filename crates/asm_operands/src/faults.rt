//! The first token with which no shape of a mnemonic goes on.

ghost use Rattle.std.specs.Prelude.{◌≡◌, ◌-◌, ◌==◌, ◌&&◌, length, slice_get};
ghost use Rattle.std.specs.List.{list_any};
ghost use Rattle.asm_operands.specs.Operands.{taken_count_in, furthest, is_number_kind, is_distance};
ghost use Rattle.asm_operands.specs.Operands.{is_number_item, is_name_token};
ghost use Rattle.asm_operands.specs.Operands.{wants_number, is_whole, kind_at, operand_fault};
ghost use Rattle.asm_operands.specs.Views.{fault_of};

use crate::fault::FaultKind;
use crate::operands::OperandFault;
use crate::shapes::items_of;
use crate::taking::taken_count_in;
use asm_tokens::{Token, is_number};
use insn_text::{Item, Kind, Shape};

/// The tokens that a shape takes, at most.
fn furthest(shapes: &[Shape], tokens: &[Token]) -> usize
    ensures { result ≡ furthest shapes.now tokens.now }
{
    let mut most = 0usize;
    for shape in shapes {
        most = most.max(taken_count_in(shape, tokens));
    }
    most
}

/// Whether the kind is written as a number.
#[tactic(auto, unfolding(crate::specs::Operands::is_number_kind))]
fn is_number_kind(kind: Kind) -> bool
    ensures { result ≡ is_number_kind kind }
{
    match kind {
        Kind::Punctuation(_)
        | Kind::Keyword { .. }
        | Kind::Register { .. }
        | Kind::Opposite { .. }
        | Kind::Sized { .. }
        | Kind::SliceRegister => false,
        _ => true,
    }
}

/// Whether there is an operand of that index, and a number.
fn is_number_at(items: &[Item], index: usize) -> bool
    ensures { result ≡ is_number_item (slice_get items.now index) }
{
    index < items.len() && is_number_kind(items[index].kind)
}

/// Whether the shape takes so many tokens, and a number is its next operand.
#[tactic(auto, unfolding(crate::specs::Operands::wants_number))]
fn wants_number(count: usize, tokens: &[Token], shape: &Shape) -> bool
    ensures { result ≡ wants_number count tokens.now shape.now }
{
    taken_count_in(shape, tokens) == count && is_number_at(items_of(shape), count)
}

/// Whether the shape takes so many tokens, and has no more operands.
#[tactic(auto, unfolding(crate::specs::Operands::is_whole))]
fn is_whole(count: usize, tokens: &[Token], shape: &Shape) -> bool
    ensures { result ≡ is_whole count tokens.now shape.now }
{
    taken_count_in(shape, tokens) == count && items_of(shape).len() == count
}

/// Whether a shape takes so many tokens, and a number is its next operand.
fn some_wants_number(shapes: &[Shape], count: usize, tokens: &[Token]) -> bool
    ensures { result ≡ list_any (wants_number count tokens.now) shapes.now }
{
    for shape in shapes {
        if wants_number(count, tokens, shape) {
            return true;
        }
    }
    false
}

/// Whether a shape takes so many tokens, and has no more operands.
fn some_is_whole(shapes: &[Shape], count: usize, tokens: &[Token]) -> bool
    ensures { result ≡ list_any (is_whole count tokens.now) shapes.now }
{
    for shape in shapes {
        if is_whole(count, tokens, shape) {
            return true;
        }
    }
    false
}

/// Why no shape goes on with the token of that index.
#[tactic(auto, unfolding(crate::specs::Operands::kind_at))]
fn kind_at(shapes: &[Shape], index: usize, tokens: &[Token]) -> FaultKind
    ensures { result ≡ kind_at shapes.now index tokens.now (slice_get tokens.now index) }
{
    if index >= tokens.len() {
        FaultKind::BadOperand
    } else if is_number(tokens[index]) && some_wants_number(shapes, index, tokens) {
        FaultKind::BadNumber
    } else if some_is_whole(shapes, index, tokens) {
        FaultKind::Extra
    } else {
        FaultKind::BadOperand
    }
}

/// The first token with which no shape goes on.
#[tactic(auto, unfolding(crate::specs::Operands::operand_fault))]
pub(crate) fn operand_fault(shapes: &[Shape], tokens: &[Token]) -> OperandFault
    ensures { fault_of result ≡ operand_fault shapes.now tokens.now }
{
    let index = furthest(shapes, tokens);
    OperandFault {
        index,
        kind: kind_at(shapes, index, tokens),
    }
}
