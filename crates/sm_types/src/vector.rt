//! The vector instructions of SVE and SVE2: one type for each group of the table.
//!
//! Registers are their numbers: vectors 0 to 31, predicates 0 to 15, governing predicates 0 to 7 but where
//! it says 0 to 15; general registers 0 to 31.

/// The sizes of elements: 8, 16, 32, 64 and 128 bits.
#[derive(Clone, Copy, PartialEq, Eq)]
pub enum Elem {
    B,
    H,
    S,
    D,
    Q,
}

/// The operations of two vectors; those that begin with `Sq` and `Uq` saturate.
#[derive(Clone, Copy, PartialEq, Eq)]
pub enum VectorArithmeticOp {
    Add,
    Sub,
    Sqadd,
    Uqadd,
    Sqsub,
    Uqsub,
}

/// `add zd.t, zn.t, zm.t`
#[derive(Clone, Copy, PartialEq, Eq)]
pub struct VectorArithmetic {
    pub op: VectorArithmeticOp,
    /// Not `Q`.
    pub size: Elem,
    pub zm: u8,
    pub zn: u8,
    pub zd: u8,
}

/// The logical operations of two vectors; `Bic` inverts the second.
#[derive(Clone, Copy, PartialEq, Eq)]
pub enum VectorLogicalOp {
    And,
    Orr,
    Eor,
    Bic,
}

/// `and zd.d, zn.d, zm.d`
#[derive(Clone, Copy, PartialEq, Eq)]
pub struct VectorLogical {
    pub op: VectorLogicalOp,
    pub zm: u8,
    pub zn: u8,
    pub zd: u8,
}

/// The operations of two vectors under a predicate.
#[derive(Clone, Copy, PartialEq, Eq)]
pub enum PredicatedBinaryOp {
    Add,
    Sub,
    Subr,
    Smax,
    Umax,
    Smin,
    Umin,
    Sabd,
    Uabd,
    Mul,
    Smulh,
    Umulh,
    Sdiv,
    Udiv,
    Orr,
    Eor,
    And,
    Bic,
    Asr,
    Lsr,
    Lsl,
}

/// `add zdn.t, pg/m, zdn.t, zm.t`
#[derive(Clone, Copy, PartialEq, Eq)]
pub struct PredicatedBinary {
    pub op: PredicatedBinaryOp,
    /// Not `Q`; `S` or `D` for a division.
    pub size: Elem,
    pub pg: u8,
    pub zm: u8,
    pub zdn: u8,
}

/// The multiplications whose products are added or subtracted.
#[derive(Clone, Copy, PartialEq, Eq)]
pub enum MultiplyAddOp {
    Mla,
    Mls,
}

/// `mla zda.t, pg/m, zn.t, zm.t`
#[derive(Clone, Copy, PartialEq, Eq)]
pub struct MultiplyAdd {
    pub op: MultiplyAddOp,
    /// Not `Q`.
    pub size: Elem,
    pub pg: u8,
    pub zm: u8,
    pub zn: u8,
    pub zda: u8,
}

/// The operations of one vector under a predicate.
#[derive(Clone, Copy, PartialEq, Eq)]
pub enum PredicatedUnaryOp {
    Abs,
    Neg,
    Cls,
    Clz,
    Cnt,
    Cnot,
    Not,
    Sxtb,
    Uxtb,
    Sxth,
    Uxth,
    Sxtw,
    Uxtw,
}

/// `abs zd.t, pg/m, zn.t`
#[derive(Clone, Copy, PartialEq, Eq)]
pub struct PredicatedUnary {
    pub op: PredicatedUnaryOp,
    /// Not `Q`; wider than what is extended.
    pub size: Elem,
    pub pg: u8,
    pub zn: u8,
    pub zd: u8,
}

/// The shifts by an immediate.
#[derive(Clone, Copy, PartialEq, Eq)]
pub enum VectorShiftOp {
    Asr,
    Lsr,
    Lsl,
}

/// `asr zd.t, zn.t, #n`
#[derive(Clone, Copy, PartialEq, Eq)]
pub struct VectorShift {
    pub op: VectorShiftOp,
    /// Not `Q`.
    pub size: Elem,
    /// 1 to the width to the right, 0 to below the width to the left.
    pub amount: u8,
    pub zn: u8,
    pub zd: u8,
}

/// The start or the step of `index`: 5 signed bits, or a general register.
#[derive(Clone, Copy, PartialEq, Eq)]
pub enum IndexPart {
    Immediate(i32),
    Register(u8),
}

/// The additions of an immediate; `Subr` subtracts from it.
#[derive(Clone, Copy, PartialEq, Eq)]
pub enum AddImmediateOp {
    Add,
    Sub,
    Subr,
}

/// The copies to vectors, and the operations with an immediate. No size is `Q`; `shifted` is to the left by
/// 8, and not of bytes.
#[derive(Clone, Copy, PartialEq, Eq)]
pub enum VectorCopy {
    /// `dup zd.t, xn`; register 31 is SP.
    Register {
        size: Elem,
        rn: u8,
        zd: u8,
    },
    /// `cpy zd.t, pg/m, xn`; register 31 is SP.
    PredicatedRegister {
        size: Elem,
        pg: u8,
        rn: u8,
        zd: u8,
    },
    /// `dup zd.t, #imm{, lsl #8}`; 8 signed bits.
    Immediate {
        size: Elem,
        shifted: bool,
        imm: i32,
        zd: u8,
    },
    /// `cpy zd.t, pg/z, #imm{, lsl #8}`; 8 signed bits, a predicate of 0 to 15.
    PredicatedImmediate {
        size: Elem,
        pg: u8,
        merging: bool,
        shifted: bool,
        imm: i32,
        zd: u8,
    },
    /// `index zd.t, #start, #step`
    Index {
        size: Elem,
        start: IndexPart,
        step: IndexPart,
        zd: u8,
    },
    /// `add zdn.t, zdn.t, #imm{, lsl #8}`; 8 bits.
    AddImmediate {
        op: AddImmediateOp,
        size: Elem,
        shifted: bool,
        imm: u8,
        zdn: u8,
    },
    /// `mul zdn.t, zdn.t, #imm`; 8 signed bits.
    MultiplyImmediate {
        size: Elem,
        imm: i32,
        zdn: u8,
    },
    /// `sel zd.t, pg, zn.t, zm.t`; a predicate of 0 to 15.
    Select {
        size: Elem,
        zm: u8,
        pg: u8,
        zn: u8,
        zd: u8,
    },
    /// `movprfx zd, zn`
    Prefix {
        zn: u8,
        zd: u8,
    },
}

/// The ways to join the elements of two vectors.
#[derive(Clone, Copy, PartialEq, Eq)]
pub enum InterleaveOp {
    Zip1,
    Zip2,
    Uzp1,
    Uzp2,
    Trn1,
    Trn2,
}

/// The permutations. No size is `Q`.
#[derive(Clone, Copy, PartialEq, Eq)]
pub enum VectorPermute {
    /// `zip1 zd.t, zn.t, zm.t`
    Interleave {
        op: InterleaveOp,
        size: Elem,
        zm: u8,
        zn: u8,
        zd: u8,
    },
    /// `rev zd.t, zn.t`
    Reverse {
        size: Elem,
        zn: u8,
        zd: u8,
    },
    /// `tbl zd.t, zn.t, zm.t`
    Table {
        size: Elem,
        zm: u8,
        zn: u8,
        zd: u8,
    },
    /// `ext zdn.b, zdn.b, zm.b, #n`; 8 bits.
    Extract {
        amount: u8,
        zm: u8,
        zdn: u8,
    },
    /// `sunpklo zd.t, zn.u`; the size is that of `zd`, and not `B`.
    Unpack {
        signed: bool,
        high: bool,
        size: Elem,
        zn: u8,
        zd: u8,
    },
}

/// The reductions of a vector to one number.
#[derive(Clone, Copy, PartialEq, Eq)]
pub enum ReductionOp {
    Saddv,
    Uaddv,
    Smaxv,
    Umaxv,
    Sminv,
    Uminv,
    Orv,
    Eorv,
    Andv,
}

/// The reductions. No size is `Q`.
#[derive(Clone, Copy, PartialEq, Eq)]
pub enum VectorReduction {
    /// `lasta xd, pg, zn.t`, or `lastb`: the last active element, and not the one after it.
    Last {
        active: bool,
        size: Elem,
        pg: u8,
        zn: u8,
        rd: u8,
    },
    /// `saddv vd, pg, zn.t`; not `D` for `Saddv`.
    Reduce {
        op: ReductionOp,
        size: Elem,
        pg: u8,
        zn: u8,
        vd: u8,
    },
}

/// The comparisons of two vectors; `Hs` and `Hi` are without a sign.
#[derive(Clone, Copy, PartialEq, Eq)]
pub enum CompareVectorsOp {
    Hs,
    Hi,
    Ge,
    Gt,
    Eq,
    Ne,
}

/// The comparisons of a vector with a signed immediate.
#[derive(Clone, Copy, PartialEq, Eq)]
pub enum CompareImmediateOp {
    Ge,
    Gt,
    Lt,
    Le,
    Eq,
    Ne,
}

/// The comparisons. No size is `Q`.
#[derive(Clone, Copy, PartialEq, Eq)]
pub enum VectorCompare {
    /// `cmphs pd.t, pg/z, zn.t, zm.t`
    Vectors {
        op: CompareVectorsOp,
        size: Elem,
        zm: u8,
        pg: u8,
        zn: u8,
        pd: u8,
    },
    /// `cmpge pd.t, pg/z, zn.t, #imm`; 5 signed bits.
    Immediate {
        op: CompareImmediateOp,
        size: Elem,
        imm: i32,
        pg: u8,
        zn: u8,
        pd: u8,
    },
}

/// The logical operations of predicates.
#[derive(Clone, Copy, PartialEq, Eq)]
pub enum PredicateLogicalOp {
    And,
    Bic,
    Eor,
    Sel,
    Orr,
    Orn,
    Nor,
    Nand,
}

/// The operations on predicates. Governing predicates are 0 to 15.
#[derive(Clone, Copy, PartialEq, Eq)]
pub enum Predicate {
    /// `ptrue pd.t, pattern`; a size that is not `Q`, and a pattern of 0 to 31.
    True {
        size: Elem,
        pattern: u8,
        pd: u8,
    },
    /// `pfalse pd.b`
    False {
        pd: u8,
    },
    /// `ptest pg, pn.b`
    Test {
        pg: u8,
        pn: u8,
    },
    /// `and pd.b, pg/z, pn.b, pm.b`, or `ands`, which sets the flags; `sel` does not.
    Logical {
        op: PredicateLogicalOp,
        flags: bool,
        pm: u8,
        pg: u8,
        pn: u8,
        pd: u8,
    },
}

/// The predicates of a loop, the number of active elements, and the first-fault register. No size is `Q`.
#[derive(Clone, Copy, PartialEq, Eq)]
pub enum PredicateCount {
    /// `whilelt pd.t, xn, xm`, or `whilelo` without a sign.
    While {
        signed: bool,
        /// 64 bits, else 32.
        wide: bool,
        size: Elem,
        rm: u8,
        rn: u8,
        pd: u8,
    },
    /// `cntp xd, pg, pn.t`; a predicate of 0 to 15.
    Active {
        size: Elem,
        pg: u8,
        pn: u8,
        rd: u8,
    },
    /// `setffr`
    SetFfr,
    /// `rdffr pd.b`
    ReadFfr {
        pd: u8,
    },
    /// `wrffr pn.b`
    WriteFfr {
        pn: u8,
    },
}

/// The numbers of elements that count in a general register. No size is `Q`.
#[derive(Clone, Copy, PartialEq, Eq)]
pub enum ElementCount {
    /// `cntb xd, pattern{, mul #m}`; a pattern of 0 to 31, and a multiplier of 1 to 16.
    Count {
        size: Elem,
        pattern: u8,
        multiplier: u8,
        rd: u8,
    },
    /// `incb xd, pattern{, mul #m}`, or `decb`.
    Change {
        decrement: bool,
        size: Elem,
        pattern: u8,
        multiplier: u8,
        rd: u8,
    },
    /// `rdvl xd, #n`; 6 signed bits.
    Length {
        imm: i32,
        rd: u8,
    },
    /// `addvl xd, xn, #n`, or `addpl` by lengths of a predicate; 6 signed bits, and register 31 is SP.
    AddLength {
        predicate: bool,
        imm: i32,
        rn: u8,
        rd: u8,
    },
}

/// What a load to a vector reads, and the element that it makes of it; those with `Signed` extend by the
/// sign, the others by zeros.
#[derive(Clone, Copy, PartialEq, Eq)]
pub enum LoadType {
    ByteToB,
    ByteToH,
    ByteToS,
    ByteToD,
    SignedWordToD,
    HalfwordToH,
    HalfwordToS,
    HalfwordToD,
    SignedHalfwordToD,
    SignedHalfwordToS,
    WordToS,
    WordToD,
    SignedByteToD,
    SignedByteToS,
    SignedByteToH,
    DoublewordToD,
}

/// The address of a contiguous access beside its base: `#n, mul vl`, 4 signed bits, in units of all bytes
/// that the access names, or a general register, which is not 31, in units of one element in memory.
#[derive(Clone, Copy, PartialEq, Eq)]
pub enum VectorOffset {
    Vectors(i32),
    Register(u8),
}

/// The loads and stores of vectors and predicates; base register 31 is SP.
#[derive(Clone, Copy, PartialEq, Eq)]
pub enum VectorAccess {
    /// `ld1b {zt.t}, pg/z, [xn{, #n, mul vl}]`
    Load {
        kind: LoadType,
        offset: VectorOffset,
        pg: u8,
        rn: u8,
        zt: u8,
    },
    /// `st1b {zt.t}, pg, [xn{, #n, mul vl}]`; what is stored is no wider than the element, and neither is
    /// `Q`.
    Store {
        memory: Elem,
        element: Elem,
        offset: VectorOffset,
        pg: u8,
        rn: u8,
        zt: u8,
    },
    /// `ldr zt, [xn{, #n, mul vl}]`, or `str`; 9 signed bits, in units of a vector's bytes.
    Vector {
        store: bool,
        vectors: i32,
        rn: u8,
        zt: u8,
    },
    /// `ldr pt, [xn{, #n, mul vl}]`, or `str`; 9 signed bits, in units of a predicate's bytes.
    Predicate {
        store: bool,
        vectors: i32,
        rn: u8,
        pt: u8,
    },
}

/// The multiplications of two vectors; `Smulh` and `Umulh` give the upper half.
#[derive(Clone, Copy, PartialEq, Eq)]
pub enum VectorMultiplyOp {
    Mul,
    Smulh,
    Umulh,
}

/// The operations of three vectors by bits.
#[derive(Clone, Copy, PartialEq, Eq)]
pub enum TernaryLogicalOp {
    Eor3,
    Bcax,
    Bsl,
}

/// The operations whose elements are twice as wide as their sources; `Smlal` and `Umlal` add the product.
#[derive(Clone, Copy, PartialEq, Eq)]
pub enum WideningOp {
    Saddl,
    Uaddl,
    Smull,
    Umull,
    Smlal,
    Umlal,
}

/// The operations of SVE2 without a predicate.
#[derive(Clone, Copy, PartialEq, Eq)]
pub enum Sve2 {
    /// `mul zd.t, zn.t, zm.t`; the size is not `Q`.
    Multiply {
        op: VectorMultiplyOp,
        size: Elem,
        zm: u8,
        zn: u8,
        zd: u8,
    },
    /// `eor3 zdn.d, zdn.d, zm.d, zk.d`
    Ternary {
        op: TernaryLogicalOp,
        zm: u8,
        zk: u8,
        zdn: u8,
    },
    /// `saddlb zd.t, zn.u, zm.u`, or `saddlt`, which uses the odd elements; the size is that of `zd`, and
    /// neither `B` nor `Q`.
    Widening {
        op: WideningOp,
        top: bool,
        size: Elem,
        zm: u8,
        zn: u8,
        zd: u8,
    },
}
