//! What the text of an instruction is made of.
use insn_forms::Field;

/// The files of registers.
#[derive(Clone, Copy, PartialEq, Eq)]
pub enum RegisterFile {
    /// The general registers, 64 bits.
    X,
    /// Their low 32 bits.
    W,
}

/// The files of the registers of vectors, of predicates and of ZA, and those of the low parts of vectors.
#[derive(Clone, Copy, PartialEq, Eq)]
pub enum VectorFile {
    /// Vectors.
    Z,
    /// Predicates.
    P,
    /// The low 8 bits of vectors.
    B,
    /// Their low 16 bits.
    H,
    /// Their low 32 bits.
    S,
    /// Their low 64 bits.
    D,
    /// Tiles of ZA, and their slices.
    Za,
}

/// How the number of a field is written.
#[derive(Clone, Copy)]
pub enum Kind {
    /// Punctuation: this character, with no field.
    Punctuation(u8),
    /// One of `count` keywords of the table from index `first` on, in the order of their numbers.
    Keyword {
        first: u16,
        count: u16,
    },
    /// A register of a file: its letter and its number, and for number 31 the keyword at `last`.
    Register {
        file: RegisterFile,
        last: u16,
    },
    /// A register of vectors, predicates or ZA: the letters of its file, its number, which is in the lowest
    /// `bits` bits of the field, and one of the suffixes from index `suffix` of their table on, which the
    /// bits above give: the size of its elements, or none, and of a slice its direction.
    Sized {
        file: VectorFile,
        bits: u8,
        suffix: u16,
    },
    /// A register W12 to W15, by the last two bits of its number.
    SliceRegister,
    /// The number of the field, with no `#`.
    Index,
    /// A pattern: one of 17 keywords from index `first` on, or `#n` for the numbers that have none.
    Pattern {
        first: u16,
    },
    /// `#n`, n what the field lacks of `from`.
    Descending {
        from: u16,
    },
    /// `#n`, n the field times `scale`, and `base` more; the field is at most `most`.
    Unsigned {
        base: u16,
        scale: u16,
        most: u16,
    },
    /// `#n`, n the signed field times `scale`.
    Signed {
        scale: u16,
    },
    /// `.+n` or `.-n`, n the signed field times `scale`; or a name.
    Distance {
        scale: u16,
    },
    /// `#0xn`, n the mask that the fields N, immr and imms give, of 64 or 32 bits.
    Mask {
        wide: bool,
    },
    /// Of an alias: a mask that may be written as a negative number.
    SignedMask {
        wide: bool,
    },
    /// Of an alias: `#n`, the amount of a shift to the left, which gives immr and imms of `ubfm`.
    ShiftLeft {
        wide: bool,
    },
    /// Of an alias: one of `count` conditions from index `first` on; the field has its opposite.
    Opposite {
        first: u16,
        count: u16,
    },
    /// Of an alias: `#n`, a number with one halfword that is not zero, or not all ones where it is
    /// inverted; the field has the halfword's index above its bits.
    Halfword {
        wide: bool,
        inverted: bool,
    },
}

/// What the registers of an instruction are to meet once an operand is read.
#[derive(Clone, Copy)]
pub enum Rule {
    /// Nothing.
    Free,
    /// Rt2 14:10 is not Rt 4:0.
    SecondApart,
    /// Rn 9:5 is not Rt 4:0, or is SP.
    BaseApart,
    /// Rn 9:5 is neither Rt 4:0 nor Rt2 14:10, or is SP.
    BasePairApart,
    /// Rm 20:16 is not 31.
    OffsetGiven,
}

/// One token of a shape, and the field whose number it writes.
#[derive(Clone, Copy)]
pub struct Item {
    pub kind: Kind,
    pub field: Field,
    pub rule: Rule,
}

/// The lists of operands: those of the scalar instructions, of vectors, and of stores of vectors, tiles and
/// ZA.
#[derive(Clone, Copy)]
pub enum ItemList {
    Scalar,
    Vector,
    Matrix,
}

/// One text of an instruction, without optional parts: the bits that it fixes, the index of its
/// mnemonic, and its operands, so many from an index of a list on. An alias is read and never printed.
#[derive(Clone, Copy)]
pub struct Shape {
    pub mask: u32,
    pub value: u32,
    pub mnemonic: u16,
    pub list: ItemList,
    pub first: u16,
    pub count: u8,
    pub alias: bool,
}

/// A short text: the first `length` of the bytes.
#[derive(Clone, Copy)]
pub struct Text {
    pub bytes: [u8; 12],
    pub length: u8,
}

/// A field that a text sets, and its number.
#[derive(Clone, Copy)]
pub struct Setting {
    pub field: Field,
    pub number: u32,
}

/// One text of an operation, as a table of texts has it: whether it is an alias, its mnemonic, the
/// fields that it sets, and the indices of its operands in `OPERANDS`, up to the first 0.
#[derive(Clone, Copy)]
pub struct Wording<O> {
    pub alias: bool,
    pub mnemonic: Text,
    pub operation: O,
    pub set: [Option<Setting>; 4],
    pub operands: [u8; 24],
}
