//! What a line of a source says.

use insn_text::Item;

/// A value of `.quad`.
#[derive(Clone, Copy)]
pub enum Value<'a> {
    Number(u64),
    /// The address of the label of this name.
    Name(&'a [u8]),
}

/// A target of an instruction: its name, and the operand whose field is to have the distance to it.
#[derive(Clone, Copy)]
pub struct Target<'a> {
    pub name: &'a [u8],
    pub operand: Item,
}

/// What stands on a line after its label.
#[derive(Drop)]
pub enum Statement<'a> {
    /// Nothing.
    Empty,
    /// `.text`: what follows goes to the text.
    Text,
    /// `.data`: what follows goes to the data.
    Data,
    /// `.quad`: 8 bytes each, little-endian.
    Quad(Vec<Value<'a>>),
    /// `.word`: 4 bytes each, little-endian.
    Word(Vec<u32>),
    /// `.byte`
    Byte(Vec<u8>),
    /// `.zero N`: so many zeros.
    Zero(u64),
    /// `.align N`: zeros up to a multiple of 2^N; N is 0 to 12.
    Align(u8),
    /// `.global NAME`, which has no effect.
    Global(&'a [u8]),
    /// An instruction's word, its target where that is a name, the distance in the word being 0 then, and
    /// the column of the mnemonic.
    Instruction {
        word: u32,
        target: Option<Target<'a>>,
        column: u32,
    },
    /// `.sme_abi`: the support routines of the lazy saving of ZA, with their names; the column of the
    /// directive.
    SupportRoutines {
        column: u32,
    },
    /// `.sme_tail`: the tail of a call, which restores ZA where the call left it dormant; the column of the
    /// directive.
    CallTail {
        column: u32,
    },
}

/// A line: its label, if it has one, and what stands after it.
#[derive(Drop)]
pub struct Line<'a> {
    pub label: Option<&'a [u8]>,
    pub statement: Statement<'a>,
}

/// The first token with which no line goes on: its column, from 1 in characters, or that just past the end
/// of the line. Of the kinds the first that fits is given: `UnknownName`, `BadNumber`, `Extra`,
/// `BadOperand`. `Memory` says that it was out of memory.
#[derive(Clone, Copy, Debug, PartialEq, Eq)]
pub enum LineFault {
    /// No instruction and no directive has the name.
    UnknownName(u32),
    /// All else.
    BadOperand(u32),
    /// A number is to stand there, of another form or in another range.
    BadNumber(u32),
    /// A whole line stands before it.
    Extra(u32),
    Memory,
}
