//! Instructions: one variant for each group of the table, with the group's operation and fields.
//!
//! Registers are their numbers, 0 to 31; what number 31 is, the zero register or SP, is the group's affair.
use crate::matrix::{
    ArrayAccess, Mode, OuterProduct, StreamingLength, TileAccess, TileAdd, TileMove,
};
use crate::vector::{
    ElementCount, MultiplyAdd, Predicate, PredicateCount, PredicatedBinary, PredicatedUnary, Sve2,
    VectorAccess, VectorArithmetic, VectorCompare, VectorCopy, VectorLogical, VectorPermute,
    VectorReduction, VectorShift,
};

/// The conditions (DDI 0487, C1.2.4), in the order of their encoding.
#[derive(Clone, Copy, PartialEq, Eq)]
pub enum Condition {
    Eq,
    Ne,
    Cs,
    Cc,
    Mi,
    Pl,
    Vs,
    Vc,
    Hi,
    Ls,
    Ge,
    Lt,
    Gt,
    Le,
    Al,
    Nv,
}

/// The shifts of a register operand, in the order of their encoding.
#[derive(Clone, Copy, PartialEq, Eq)]
pub enum ShiftKind {
    Lsl,
    Lsr,
    Asr,
    Ror,
}

/// The extensions of a register operand, in the order of their encoding: by zeros or by the sign, from a
/// byte, a halfword, a word or a doubleword.
#[derive(Clone, Copy, PartialEq, Eq)]
pub enum Extend {
    Uxtb,
    Uxth,
    Uxtw,
    Uxtx,
    Sxtb,
    Sxth,
    Sxtw,
    Sxtx,
}

/// `xm, lsl #n`
#[derive(Clone, Copy, PartialEq, Eq)]
pub struct ShiftedRegister {
    pub rm: u8,
    pub shift: ShiftKind,
    /// Below the width.
    pub amount: u8,
}

/// `xm, uxtb #n`: extended, then shifted left.
#[derive(Clone, Copy, PartialEq, Eq)]
pub struct ExtendedRegister {
    pub rm: u8,
    pub extend: Extend,
    /// 0 to 4.
    pub amount: u8,
}

/// The operations of the add and subtract instructions; `Adds` and `Subs` set the flags.
#[derive(Clone, Copy, PartialEq, Eq)]
pub enum AddSub {
    Add,
    Adds,
    Sub,
    Subs,
}

/// `add xd, xn, #imm{, lsl #12}`
#[derive(Clone, Copy, PartialEq, Eq)]
pub struct AddSubImmediate {
    pub op: AddSub,
    /// 64 bits, else 32.
    pub wide: bool,
    /// The immediate is shifted left by 12.
    pub shifted: bool,
    /// 12 bits.
    pub imm: u16,
    pub rn: u8,
    pub rd: u8,
}

/// `add xd, xn, xm{, lsl #n}`
#[derive(Clone, Copy, PartialEq, Eq)]
pub struct AddSubRegister {
    pub op: AddSub,
    /// 64 bits, else 32.
    pub wide: bool,
    /// The shift is not `Ror`.
    pub operand: ShiftedRegister,
    pub rn: u8,
    pub rd: u8,
}

/// The logical operations; `Ands` sets the flags.
#[derive(Clone, Copy, PartialEq, Eq)]
pub enum Logical {
    And,
    Orr,
    Eor,
    Ands,
}

/// `and xd, xn, xm{, lsl #n}`, and `bic`, `orn`, `eon` and `bics` with the operand inverted.
#[derive(Clone, Copy, PartialEq, Eq)]
pub struct LogicalRegister {
    pub op: Logical,
    /// 64 bits, else 32.
    pub wide: bool,
    /// The operand is inverted after its shift.
    pub inverted: bool,
    pub operand: ShiftedRegister,
    pub rn: u8,
    pub rd: u8,
}

/// `add xd, xn, xm, uxtb{ #n}`
#[derive(Clone, Copy, PartialEq, Eq)]
pub struct AddSubExtended {
    pub op: AddSub,
    /// 64 bits, else 32.
    pub wide: bool,
    pub operand: ExtendedRegister,
    pub rn: u8,
    pub rd: u8,
}

/// `and xd, xn, #0xmask`, where N, immr and imms say the mask.
#[derive(Clone, Copy, PartialEq, Eq)]
pub struct LogicalImmediate {
    pub op: Logical,
    /// 64 bits, else 32.
    pub wide: bool,
    pub n: bool,
    /// The rotation, below the element's length.
    pub immr: u8,
    /// The element's length and one less than the number of its ones, 6 bits.
    pub imms: u8,
    pub rn: u8,
    pub rd: u8,
}

/// The moves of 16 bits: inverted, over zeros, or with the other bits kept.
#[derive(Clone, Copy, PartialEq, Eq)]
pub enum MoveOp {
    Movn,
    Movz,
    Movk,
}

/// `movz xd, #imm{, lsl #n}`
#[derive(Clone, Copy, PartialEq, Eq)]
pub struct MoveWide {
    pub op: MoveOp,
    /// 64 bits, else 32.
    pub wide: bool,
    /// The halfword that the immediate goes to, 0 to 3, at 32 bits 0 to 1.
    pub hw: u8,
    pub imm: u16,
    pub rd: u8,
}

/// The moves of bit fields: with the sign, with the other bits kept, or over zeros.
#[derive(Clone, Copy, PartialEq, Eq)]
pub enum BitfieldOp {
    Sbfm,
    Bfm,
    Ubfm,
}

/// `ubfm xd, xn, #immr, #imms`
#[derive(Clone, Copy, PartialEq, Eq)]
pub struct BitfieldMove {
    pub op: BitfieldOp,
    /// 64 bits, else 32.
    pub wide: bool,
    /// Below the width.
    pub immr: u8,
    /// Below the width.
    pub imms: u8,
    pub rn: u8,
    pub rd: u8,
}

/// `extr xd, xn, xm, #lsb`
#[derive(Clone, Copy, PartialEq, Eq)]
pub struct Extract {
    /// 64 bits, else 32.
    pub wide: bool,
    pub rm: u8,
    /// The lowest bit taken, below the width.
    pub lsb: u8,
    pub rn: u8,
    pub rd: u8,
}

/// The addresses relative to the program counter, and to its page.
#[derive(Clone, Copy, PartialEq, Eq)]
pub enum PcRelativeOp {
    Adr,
    Adrp,
}

/// `adr xd, .+N`
#[derive(Clone, Copy, PartialEq, Eq)]
pub struct PcRelative {
    pub op: PcRelativeOp,
    /// A signed number of 21 bits, of bytes or for `Adrp` of pages of 4096 bytes.
    pub imm: i32,
    pub rd: u8,
}

/// The branches to a signed distance from the instruction, in words.
#[derive(Clone, Copy, PartialEq, Eq)]
pub enum Branch {
    /// `b .+N`, `bl .+N`; 26 bits.
    Unconditional {
        link: bool,
        words: i32,
    },
    /// `b.eq .+N`; 19 bits.
    Conditional {
        condition: Condition,
        words: i32,
    },
    /// `cbz xt, .+N`, `cbnz xt, .+N`; 19 bits.
    Compare {
        nonzero: bool,
        wide: bool,
        words: i32,
        rt: u8,
    },
    /// `tbz xt, #bit, .+N`, `tbnz xt, #bit, .+N`; the bit is 0 to 63, the distance has 14 bits.
    TestBit {
        nonzero: bool,
        bit: u8,
        words: i32,
        rt: u8,
    },
}

/// The branches to a register.
#[derive(Clone, Copy, PartialEq, Eq)]
pub enum BranchRegisterOp {
    Br,
    Blr,
    Ret,
}

/// `br xn`
#[derive(Clone, Copy, PartialEq, Eq)]
pub struct BranchRegister {
    pub op: BranchRegisterOp,
    pub rn: u8,
}

/// `adc xd, xn, xm`, `sbc xd, xn, xm`: the sum or difference with the carry.
#[derive(Clone, Copy, PartialEq, Eq)]
pub struct AddSubCarry {
    pub op: AddSub,
    /// 64 bits, else 32.
    pub wide: bool,
    pub rm: u8,
    pub rn: u8,
    pub rd: u8,
}

/// What is taken where the condition fails: the second register, or it incremented, inverted or negated.
#[derive(Clone, Copy, PartialEq, Eq)]
pub enum SelectOp {
    Csel,
    Csinc,
    Csinv,
    Csneg,
}

/// `csel xd, xn, xm, eq`
#[derive(Clone, Copy, PartialEq, Eq)]
pub struct ConditionalSelect {
    pub op: SelectOp,
    /// 64 bits, else 32.
    pub wide: bool,
    pub condition: Condition,
    pub rm: u8,
    pub rn: u8,
    pub rd: u8,
}

/// The conditional compares: by the sum, or by the difference.
#[derive(Clone, Copy, PartialEq, Eq)]
pub enum CompareOp {
    Ccmn,
    Ccmp,
}

/// What a conditional compare takes beside its register.
#[derive(Clone, Copy, PartialEq, Eq)]
pub enum CompareOperand {
    Register(u8),
    /// 5 bits.
    Immediate(u8),
}

/// `ccmp xn, xm, #nzcv, eq`, `ccmp xn, #imm, #nzcv, eq`
#[derive(Clone, Copy, PartialEq, Eq)]
pub struct ConditionalCompare {
    pub op: CompareOp,
    /// 64 bits, else 32.
    pub wide: bool,
    pub operand: CompareOperand,
    pub condition: Condition,
    /// The flags where the condition fails, N in bit 3 to V in bit 0.
    pub nzcv: u8,
    pub rn: u8,
}

/// The operations on the bits of one register.
#[derive(Clone, Copy, PartialEq, Eq)]
pub enum OneSourceOp {
    Rbit,
    Rev16,
    /// The bytes of each word, `rev` at 32 bits.
    Rev32,
    /// The bytes of the doubleword, `rev` at 64 bits.
    Rev64,
    Clz,
    Cls,
}

/// `rbit xd, xn`
#[derive(Clone, Copy, PartialEq, Eq)]
pub struct OneSource {
    pub op: OneSourceOp,
    /// 64 bits, else 32.
    pub wide: bool,
    pub rn: u8,
    pub rd: u8,
}

/// The divisions, and the shifts by a register.
#[derive(Clone, Copy, PartialEq, Eq)]
pub enum TwoSourceOp {
    Udiv,
    Sdiv,
    Lslv,
    Lsrv,
    Asrv,
    Rorv,
}

/// `udiv xd, xn, xm`
#[derive(Clone, Copy, PartialEq, Eq)]
pub struct TwoSource {
    pub op: TwoSourceOp,
    /// 64 bits, else 32.
    pub wide: bool,
    pub rm: u8,
    pub rn: u8,
    pub rd: u8,
}

/// The multiplications.
#[derive(Clone, Copy, PartialEq, Eq)]
pub enum Multiply {
    /// `madd xd, xn, xm, xa`, `msub xd, xn, xm, xa`
    Same {
        subtract: bool,
        wide: bool,
        rm: u8,
        ra: u8,
        rn: u8,
        rd: u8,
    },
    /// `smaddl xd, wn, wm, xa`, `umsubl xd, wn, wm, xa`
    Long {
        subtract: bool,
        signed: bool,
        rm: u8,
        ra: u8,
        rn: u8,
        rd: u8,
    },
    /// `smulh xd, xn, xm`, `umulh xd, xn, xm`
    High {
        signed: bool,
        rm: u8,
        rn: u8,
        rd: u8,
    },
}

/// The size of an access: 1, 2, 4 or 8 bytes.
#[derive(Clone, Copy, PartialEq, Eq)]
pub enum AccessSize {
    Byte,
    Halfword,
    Word,
    Doubleword,
}

/// The loads and stores of one register; a signed load extends by the sign to 64 bits or to 32, any other
/// by zeros.
#[derive(Clone, Copy, PartialEq, Eq)]
pub enum LoadStoreOp {
    Store,
    Load,
    LoadSignedTo64,
    LoadSignedTo32,
}

/// The address of a load or store beside its base register.
#[derive(Clone, Copy, PartialEq, Eq)]
pub enum Address {
    /// `[xn{, #imm}]`; 12 bits, in units of the access size.
    Offset {
        imm: u16,
    },
    /// `[xn{, #imm}]`, in bytes; 9 signed bits.
    Unscaled {
        offset: i32,
    },
    /// `[xn], #imm`, in bytes; 9 signed bits.
    PostIndex {
        offset: i32,
    },
    /// `[xn, #imm]!`, in bytes; 9 signed bits.
    PreIndex {
        offset: i32,
    },
    /// `[xn, xm{, lsl #n}]`, `[xn, wm, uxtw{ #n}]`: from a word or a doubleword (`Uxtx` is `lsl`), times
    /// the access size if scaled.
    Register {
        rm: u8,
        extend: Extend,
        scaled: bool,
    },
}

/// `ldr xt, [xn]`; no signed load to 64 bits of 8 bytes, nor to 32 bits of 4 or 8.
#[derive(Clone, Copy, PartialEq, Eq)]
pub struct LoadStore {
    pub op: LoadStoreOp,
    pub size: AccessSize,
    pub address: Address,
    pub rn: u8,
    pub rt: u8,
}

/// The loads from beside the program counter: a word, a doubleword, or a word with its sign.
#[derive(Clone, Copy, PartialEq, Eq)]
pub enum LoadLiteralOp {
    Word,
    Doubleword,
    SignedWord,
}

/// `ldr xt, .+N`
#[derive(Clone, Copy, PartialEq, Eq)]
pub struct LoadLiteral {
    pub op: LoadLiteralOp,
    /// The signed distance from the instruction in words, 19 bits.
    pub words: i32,
    pub rt: u8,
}

/// The loads and stores of two registers.
#[derive(Clone, Copy, PartialEq, Eq)]
pub enum PairOp {
    Stp,
    Ldp,
}

/// Where the offset of a pair's access goes: to the address alone, to the base after the access, or to both.
#[derive(Clone, Copy, PartialEq, Eq)]
pub enum PairIndex {
    /// `[xn{, #imm}]`
    Offset,
    /// `[xn], #imm`
    PostIndex,
    /// `[xn, #imm]!`
    PreIndex,
}

/// `ldp xt, xt2, [xn{, #imm}]`
#[derive(Clone, Copy, PartialEq, Eq)]
pub struct LoadStorePair {
    pub op: PairOp,
    /// 64 bits, else 32.
    pub wide: bool,
    pub index: PairIndex,
    /// A signed number of 7 bits, in units of a register's size.
    pub offset: i32,
    pub rn: u8,
    pub rt: u8,
    pub rt2: u8,
}

/// The operations of the atomic instructions that store and load: the sum, the bits cleared, inverted or
/// set, and the greatest and least number with and without sign.
#[derive(Clone, Copy, PartialEq, Eq)]
pub enum AtomicOp {
    Add,
    Clear,
    Eor,
    Set,
    Smax,
    Smin,
    Umax,
    Umin,
}

/// The ordered and atomic accesses.
#[derive(Clone, Copy, PartialEq, Eq)]
pub enum Atomic {
    /// `ldar xt, [xn]`
    Ldar {
        size: AccessSize,
        rn: u8,
        rt: u8,
    },
    /// `stlr xt, [xn]`
    Stlr {
        size: AccessSize,
        rn: u8,
        rt: u8,
    },
    /// `cas xs, xt, [xn]`
    Cas {
        size: AccessSize,
        acquire: bool,
        release: bool,
        rs: u8,
        rn: u8,
        rt: u8,
    },
    /// `swp xs, xt, [xn]`
    Swap {
        size: AccessSize,
        acquire: bool,
        release: bool,
        rs: u8,
        rn: u8,
        rt: u8,
    },
    /// `ldadd xs, xt, [xn]`
    Update {
        op: AtomicOp,
        size: AccessSize,
        acquire: bool,
        release: bool,
        rs: u8,
        rn: u8,
        rt: u8,
    },
}

/// The exceptions, hints and barriers.
#[derive(Clone, Copy, PartialEq, Eq)]
pub enum System {
    /// `svc #imm`
    Svc(u16),
    /// `brk #imm`
    Brk(u16),
    /// `udf #imm`
    Udf(u16),
    /// `hint #n`, 0 to 127.
    Hint(u8),
    /// `dmb #n`, 0 to 15.
    Dmb(u8),
    /// `dsb #n`, 0 to 15.
    Dsb(u8),
    /// `isb #n`, 0 to 15.
    Isb(u8),
}

/// The system registers that a program may read and write.
#[derive(Clone, Copy, PartialEq, Eq)]
pub enum SystemRegister {
    Nzcv,
    TpidrEl0,
    Tpidr2El0,
    Svcr,
}

/// To a register from a system register, and back.
#[derive(Clone, Copy, PartialEq, Eq)]
pub enum SystemMoveOp {
    Mrs,
    Msr,
}

/// `mrs xt, nzcv`, `msr nzcv, xt`
#[derive(Clone, Copy, PartialEq, Eq)]
pub struct SystemMove {
    pub op: SystemMoveOp,
    pub register: SystemRegister,
    pub rt: u8,
}

/// An instruction.
#[derive(Clone, Copy, PartialEq, Eq)]
pub enum Insn {
    AddSubImmediate(AddSubImmediate),
    AddSubRegister(AddSubRegister),
    LogicalRegister(LogicalRegister),
    AddSubExtended(AddSubExtended),
    LogicalImmediate(LogicalImmediate),
    MoveWide(MoveWide),
    BitfieldMove(BitfieldMove),
    Extract(Extract),
    PcRelative(PcRelative),
    Branch(Branch),
    BranchRegister(BranchRegister),
    AddSubCarry(AddSubCarry),
    ConditionalSelect(ConditionalSelect),
    ConditionalCompare(ConditionalCompare),
    OneSource(OneSource),
    TwoSource(TwoSource),
    Multiply(Multiply),
    LoadStore(LoadStore),
    LoadLiteral(LoadLiteral),
    LoadStorePair(LoadStorePair),
    Atomic(Atomic),
    System(System),
    SystemMove(SystemMove),
    VectorArithmetic(VectorArithmetic),
    VectorLogical(VectorLogical),
    PredicatedBinary(PredicatedBinary),
    MultiplyAdd(MultiplyAdd),
    PredicatedUnary(PredicatedUnary),
    VectorShift(VectorShift),
    VectorCopy(VectorCopy),
    VectorPermute(VectorPermute),
    VectorReduction(VectorReduction),
    VectorCompare(VectorCompare),
    Predicate(Predicate),
    PredicateCount(PredicateCount),
    ElementCount(ElementCount),
    VectorAccess(VectorAccess),
    Sve2(Sve2),
    Mode(Mode),
    ArrayAccess(ArrayAccess),
    TileAccess(TileAccess),
    TileMove(TileMove),
    TileAdd(TileAdd),
    OuterProduct(OuterProduct),
    StreamingLength(StreamingLength),
}
