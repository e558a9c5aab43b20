//! What operands say.

use crate::fault::FaultKind;
use insn_text::Item;

/// A name for a distance: the index of its token among those of the operands, and the operand
/// whose field is to have the distance.
#[derive(Clone, Copy)]
pub struct Target {
    pub index: usize,
    pub operand: Item,
}

/// The word of an instruction, and its target, where that is a name; the distance is 0 then.
#[derive(Clone, Copy)]
pub struct Operands {
    pub word: u32,
    pub target: Option<Target>,
}

/// The first token with which no instruction of the mnemonic goes on: its index, or that just past the last,
/// and why.
#[derive(Clone, Copy)]
pub struct OperandFault {
    pub index: usize,
    pub kind: FaultKind,
}
