//! The texts of the vector instructions' operations, in the form of those of texts.rt.
use crate::item::{Setting, Text, Wording};
use crate::mnemonics::mnemonic;
use crate::operand_items::index_of;
use crate::texts::{four, is_alias, text, twenty_four};
use sm_types::{
    AddImmediateOp, CompareImmediateOp, CompareVectorsOp, Elem, InterleaveOp, ModePart,
    MultiplyAddOp, OuterProductOp, PredicateLogicalOp, PredicatedBinaryOp, PredicatedUnaryOp,
    ReductionOp, TernaryLogicalOp, VectorArithmeticOp, VectorLogicalOp, VectorMultiplyOp,
    VectorShiftOp, WideningOp,
};
use sve_table::fields::{
    ARRAY_OFFSET, DTYPE, ELEMENT_SIZE, FLAGS, IMM4, IMM9, MEMORY_SIZE, MERGING, MULTIPLIER, SF, SH,
    SIZE, SUBTRACT, VERTICAL,
};
use sve_table::{
    AccessForm, ArrayForm, CompareForm, CopyForm, CountForm, ElementForm, PermuteForm,
    PredicateForm, ReductionForm, ShiftSize, StreamingForm, Sve2Form, VectorOperation as Operation,
};

// ---- an operand by its name without the size of its elements

macro_rules! in_t {
    (zd) => { index_of!(zd_t) };
    (zn) => { index_of!(zn_t) };
    (zm) => { index_of!(zm_t) };
    (pd) => { index_of!(pd_t) };
    (pn) => { index_of!(pn_t) };
    ($other:ident) => { index_of!($other) };
}

macro_rules! in_b {
    (zd) => { index_of!(zd_b) };
    (zn) => { index_of!(zn_b) };
    (zm) => { index_of!(zm_b) };
    (vd) => { index_of!(vd_b) };
    ($other:ident) => { index_of!($other) };
}

// halfwords, and their halves
macro_rules! in_h {
    (zd) => { index_of!(zd_h) };
    (zn) => { index_of!(zn_h) };
    (zm) => { index_of!(zm_h) };
    (zn_u) => { index_of!(zn_b) };
    (zm_u) => { index_of!(zm_b) };
    (vd) => { index_of!(vd_h) };
    ($other:ident) => { index_of!($other) };
}

// words, with W registers
macro_rules! in_s {
    (zd) => { index_of!(zd_s) };
    (zn) => { index_of!(zn_s) };
    (vd) => { index_of!(vd_s) };
    (rd) => { index_of!(wd) };
    (rn) => { index_of!(wn) };
    (rn_sp) => { index_of!(wn_sp) };
    (rm) => { index_of!(wm) };
    ($other:ident) => { index_of!($other) };
}

// doublewords, with X registers
macro_rules! in_d {
    (zd) => { index_of!(zd_d) };
    (zn) => { index_of!(zn_d) };
    (zm) => { index_of!(zm_d) };
    (vd) => { index_of!(vd_d) };
    (rd) => { index_of!(xd) };
    (rn) => { index_of!(xn) };
    (rn_sp) => { index_of!(xn_sp) };
    (rm) => { index_of!(xm) };
    ($other:ident) => { index_of!($other) };
}

// bytes and halfwords, with W registers
macro_rules! in_bh {
    (zd) => { index_of!(zd_bh) };
    (zn) => { index_of!(zn_bh) };
    (rd) => { index_of!(wd) };
    (rn) => { index_of!(wn) };
    (rn_sp) => { index_of!(wn_sp) };
    (rm) => { index_of!(wm) };
    ($other:ident) => { index_of!($other) };
}

// words and doublewords, and their halves
macro_rules! in_sd {
    (zd) => { index_of!(zd_sd) };
    (zn) => { index_of!(zn_sd) };
    (zn_u) => { index_of!(zn_half) };
    (zm_u) => { index_of!(zm_half) };
    ($other:ident) => { index_of!($other) };
}

// ---- the forms of a line

macro_rules! each_size {
    ($($name:ident: $group:ident($($op:tt)*) [$($set:tt)*] ($($item:tt)*);)*) => {
        [$(
            text!(in_t print [$name] $group($($op)*) [$($set)*] ($($item)*))
        ),*]
    };
}

// all sizes but bytes
macro_rules! not_bytes {
    ($($name:ident: $group:ident($($op:tt)*) [$($set:tt)*] ($($item:tt)*);)*) => {
        [$(
            text!(in_h print [$name] $group($($op)*) [SIZE=1 $($set)*] ($($item)*)),
            text!(in_sd print [$name] $group($($op)*) [SIZE=2 $($set)*] ($($item)*))
        ),*]
    };
}

macro_rules! words_and_doublewords {
    ($($name:ident: $group:ident($($op:tt)*) [$($set:tt)*] ($($item:tt)*);)*) => {
        [$(
            text!(in_sd print [$name] $group($($op)*) [SIZE=2 $($set)*] ($($item)*))
        ),*]
    };
}

// a general register of 64 bits for doublewords, and of 32 for the others
macro_rules! by_register {
    ($($name:ident: $group:ident($($op:tt)*) [$($set:tt)*] ($($item:tt)*);)*) => {
        [$(
            text!(in_bh print [$name] $group($($op)*) [SIZE=0 $($set)*] ($($item)*)),
            text!(in_s print [$name] $group($($op)*) [SIZE=2 $($set)*] ($($item)*)),
            text!(in_d print [$name] $group($($op)*) [SIZE=3 $($set)*] ($($item)*))
        ),*]
    };
}

// the low part of a vector, which is named for its size
macro_rules! low_parts {
    ($($name:ident: $group:ident($($op:tt)*) [$($set:tt)*] ($($item:tt)*);)*) => {
        [$(
            text!(in_b print [$name] $group($($op)*) [SIZE=0 $($set)*] ($($item)*)),
            text!(in_h print [$name] $group($($op)*) [SIZE=1 $($set)*] ($($item)*)),
            text!(in_s print [$name] $group($($op)*) [SIZE=2 $($set)*] ($($item)*)),
            text!(in_d print [$name] $group($($op)*) [SIZE=3 $($set)*] ($($item)*))
        ),*]
    };
}

macro_rules! with_flags {
    ($($name:ident $flagged:ident $op:ident;)*) => {
        [$(
            text!(index_of print [$name] G34(PredicateForm::Logical(PredicateLogicalOp::$op)) [FLAGS=0]
                (pd_b, pg4 slash z, pn_b, pm_b)),
            text!(index_of print [$flagged] G34(PredicateForm::Logical(PredicateLogicalOp::$op)) [FLAGS=1]
                (pd_b, pg4 slash z, pn_b, pm_b))
        ),*]
    };
}

macro_rules! counts {
    ($($b:ident $h:ident $w:ident $d:ident: $group:ident($($op:tt)*);)*) => {
        [$(
            text!(index_of print [$b] $group($($op)*) [SIZE=0 MULTIPLIER=0] (xd, pattern)),
            text!(index_of print [$b] $group($($op)*) [SIZE=0] (xd, pattern, mul multiplier)),
            text!(index_of print [$h] $group($($op)*) [SIZE=1 MULTIPLIER=0] (xd, pattern)),
            text!(index_of print [$h] $group($($op)*) [SIZE=1] (xd, pattern, mul multiplier)),
            text!(index_of print [$w] $group($($op)*) [SIZE=2 MULTIPLIER=0] (xd, pattern)),
            text!(index_of print [$w] $group($($op)*) [SIZE=2] (xd, pattern, mul multiplier)),
            text!(index_of print [$d] $group($($op)*) [SIZE=3 MULTIPLIER=0] (xd, pattern)),
            text!(index_of print [$d] $group($($op)*) [SIZE=3] (xd, pattern, mul multiplier))
        ),*]
    };
}

macro_rules! loads {
    ($($name:ident $dtype:literal ($zt:ident) ($($shift:tt)*);)*) => {
        [$(
            text!(index_of print [$name] G37(AccessForm::LoadVectors) [DTYPE=$dtype IMM4=0]
                (brace $zt brace_end, pg slash z, open xn_sp close)),
            text!(index_of print [$name] G37(AccessForm::LoadVectors) [DTYPE=$dtype]
                (brace $zt brace_end, pg slash z, open xn_sp, signed4, mul vl close)),
            text!(index_of print [$name] G37(AccessForm::LoadRegister) [DTYPE=$dtype]
                (brace $zt brace_end, pg slash z, open xn_sp, xm_given $($shift)* close))
        ),*]
    };
}

macro_rules! stores {
    ($($name:ident $form:ident [$($memory:tt)*] [$($set:tt)*] ($zt:ident) ($($shift:tt)*);)*) => {
        [$(
            text!(index_of print [$name] G37(AccessForm::StoreVectors) [$($memory)* IMM4=0]
                (brace $zt brace_end, pg, open xn_sp close)),
            text!(index_of print [$name] G37(AccessForm::StoreVectors) [$($memory)*]
                (brace $zt brace_end, pg, open xn_sp, signed4, mul vl close)),
            text!(index_of print [$name] G37(AccessForm::$form) [$($set)*]
                (brace $zt brace_end, pg, open xn_sp, xm_given $($shift)* close))
        ),*]
    };
}

macro_rules! whole_registers {
    ($($name:ident $form:ident $store:literal ($rt:ident);)*) => {
        [$(
            text!(index_of print [$name] G37(AccessForm::$form($store)) [IMM9=0] ($rt, open xn_sp close)),
            text!(index_of print [$name] G37(AccessForm::$form($store)) []
                ($rt, open xn_sp, signed9, mul vl close))
        ),*]
    };
}

macro_rules! slices {
    ($($load:ident $store:ident $size:ident ($h:ident $v:ident) $index:ident ($($shift:tt)*);)*) => {
        [$(
            text!(index_of print [$load] G41(false, Elem::$size) [VERTICAL=0]
                (brace $h open rv, $index close brace_end, pg slash z, open xn_sp, xm $($shift)* close)),
            text!(index_of print [$load] G41(false, Elem::$size) [VERTICAL=1]
                (brace $v open rv, $index close brace_end, pg slash z, open xn_sp, xm $($shift)* close)),
            text!(index_of print [$store] G41(true, Elem::$size) [VERTICAL=0]
                (brace $h open rv, $index close brace_end, pg, open xn_sp, xm $($shift)* close)),
            text!(index_of print [$store] G41(true, Elem::$size) [VERTICAL=1]
                (brace $v open rv, $index close brace_end, pg, open xn_sp, xm $($shift)* close))
        ),*]
    };
}

macro_rules! moves {
    ($($size:ident $zd:ident $zn:ident ($h:ident $v:ident) $index:ident
        ($source_h:ident $source_v:ident) $source:ident;)*) => {
        [$(
            text!(index_of print [mova] G42(true, Elem::$size) [VERTICAL=0]
                ($h open rv, $index close, pg slash m, $zn)),
            text!(index_of print [mova] G42(true, Elem::$size) [VERTICAL=1]
                ($v open rv, $index close, pg slash m, $zn)),
            text!(index_of print [mova] G42(false, Elem::$size) [VERTICAL=0]
                ($zd, pg slash m, $source_h open rv, $source close)),
            text!(index_of print [mova] G42(false, Elem::$size) [VERTICAL=1]
                ($zd, pg slash m, $source_v open rv, $source close))
        ),*]
    };
}

macro_rules! products {
    ($($sum:ident $difference:ident $op:ident;)*) => {
        [$(
            text!(index_of print [$sum] G44(OuterProductOp::$op, false) [SUBTRACT=0]
                (za_s, row_pn slash m, column_pm slash m, zn_b, zm_b)),
            text!(index_of print [$difference] G44(OuterProductOp::$op, false) [SUBTRACT=1]
                (za_s, row_pn slash m, column_pm slash m, zn_b, zm_b)),
            text!(index_of print [$sum] G44(OuterProductOp::$op, true) [SUBTRACT=0]
                (za_d, row_pn slash m, column_pm slash m, zn_h, zm_h)),
            text!(index_of print [$difference] G44(OuterProductOp::$op, true) [SUBTRACT=1]
                (za_d, row_pn slash m, column_pm slash m, zn_h, zm_h))
        ),*]
    };
}

macro_rules! plain {
    ($($name:ident: $group:ident($($op:tt)*) [$($set:tt)*] ($($item:tt)*);)*) => {
        [$(
            text!(index_of print [$name] $group($($op)*) [$($set)*] ($($item)*))
        ),*]
    };
}

/// The texts of elements of every size.
pub static EACH_SIZE: [Wording<Operation>; 73] = each_size! {
    add: G24(VectorArithmeticOp::Add) [] (zd, zn, zm);
    sub: G24(VectorArithmeticOp::Sub) [] (zd, zn, zm);
    sqadd: G24(VectorArithmeticOp::Sqadd) [] (zd, zn, zm);
    uqadd: G24(VectorArithmeticOp::Uqadd) [] (zd, zn, zm);
    sqsub: G24(VectorArithmeticOp::Sqsub) [] (zd, zn, zm);
    uqsub: G24(VectorArithmeticOp::Uqsub) [] (zd, zn, zm);
    add: G26(PredicatedBinaryOp::Add) [] (zd, pg slash m, zd, zn);
    sub: G26(PredicatedBinaryOp::Sub) [] (zd, pg slash m, zd, zn);
    subr: G26(PredicatedBinaryOp::Subr) [] (zd, pg slash m, zd, zn);
    smax: G26(PredicatedBinaryOp::Smax) [] (zd, pg slash m, zd, zn);
    umax: G26(PredicatedBinaryOp::Umax) [] (zd, pg slash m, zd, zn);
    smin: G26(PredicatedBinaryOp::Smin) [] (zd, pg slash m, zd, zn);
    umin: G26(PredicatedBinaryOp::Umin) [] (zd, pg slash m, zd, zn);
    sabd: G26(PredicatedBinaryOp::Sabd) [] (zd, pg slash m, zd, zn);
    uabd: G26(PredicatedBinaryOp::Uabd) [] (zd, pg slash m, zd, zn);
    mul: G26(PredicatedBinaryOp::Mul) [] (zd, pg slash m, zd, zn);
    smulh: G26(PredicatedBinaryOp::Smulh) [] (zd, pg slash m, zd, zn);
    umulh: G26(PredicatedBinaryOp::Umulh) [] (zd, pg slash m, zd, zn);
    orr: G26(PredicatedBinaryOp::Orr) [] (zd, pg slash m, zd, zn);
    eor: G26(PredicatedBinaryOp::Eor) [] (zd, pg slash m, zd, zn);
    and: G26(PredicatedBinaryOp::And) [] (zd, pg slash m, zd, zn);
    bic: G26(PredicatedBinaryOp::Bic) [] (zd, pg slash m, zd, zn);
    asr: G26(PredicatedBinaryOp::Asr) [] (zd, pg slash m, zd, zn);
    lsr: G26(PredicatedBinaryOp::Lsr) [] (zd, pg slash m, zd, zn);
    lsl: G26(PredicatedBinaryOp::Lsl) [] (zd, pg slash m, zd, zn);
    mla: G27(MultiplyAddOp::Mla) [] (zd, pg slash m, zn, zm);
    mls: G27(MultiplyAddOp::Mls) [] (zd, pg slash m, zn, zm);
    abs: G28(PredicatedUnaryOp::Abs) [] (zd, pg slash m, zn);
    neg: G28(PredicatedUnaryOp::Neg) [] (zd, pg slash m, zn);
    cls: G28(PredicatedUnaryOp::Cls) [] (zd, pg slash m, zn);
    clz: G28(PredicatedUnaryOp::Clz) [] (zd, pg slash m, zn);
    cnt: G28(PredicatedUnaryOp::Cnt) [] (zd, pg slash m, zn);
    cnot: G28(PredicatedUnaryOp::Cnot) [] (zd, pg slash m, zn);
    not: G28(PredicatedUnaryOp::Not) [] (zd, pg slash m, zn);
    dup: G30(CopyForm::Immediate) [SH=0] (zd, signed8);
    cpy: G30(CopyForm::PredicatedImmediate) [MERGING=0 SH=0] (zd, cpy_pg slash z, signed8);
    cpy: G30(CopyForm::PredicatedImmediate) [MERGING=1 SH=0] (zd, cpy_pg slash m, signed8);
    index: G30(CopyForm::Index(false, false)) [] (zd, signed5, signed5b);
    add: G30(CopyForm::AddImmediate(AddImmediateOp::Add)) [SH=0] (zd, zd, imm8);
    sub: G30(CopyForm::AddImmediate(AddImmediateOp::Sub)) [SH=0] (zd, zd, imm8);
    subr: G30(CopyForm::AddImmediate(AddImmediateOp::Subr)) [SH=0] (zd, zd, imm8);
    mul: G30(CopyForm::MultiplyImmediate) [] (zd, zd, signed8);
    sel: G30(CopyForm::Select) [] (zd, pg4, zn, zm);
    zip1: G31(PermuteForm::Interleave(InterleaveOp::Zip1)) [] (zd, zn, zm);
    zip2: G31(PermuteForm::Interleave(InterleaveOp::Zip2)) [] (zd, zn, zm);
    uzp1: G31(PermuteForm::Interleave(InterleaveOp::Uzp1)) [] (zd, zn, zm);
    uzp2: G31(PermuteForm::Interleave(InterleaveOp::Uzp2)) [] (zd, zn, zm);
    trn1: G31(PermuteForm::Interleave(InterleaveOp::Trn1)) [] (zd, zn, zm);
    trn2: G31(PermuteForm::Interleave(InterleaveOp::Trn2)) [] (zd, zn, zm);
    rev: G31(PermuteForm::Reverse) [] (zd, zn);
    tbl: G31(PermuteForm::Table) [] (zd, zn, zm);
    uaddv: G32(ReductionForm::Reduce(ReductionOp::Uaddv)) [] (vd_d, pg, zn);
    cmphs: G33(CompareForm::Vectors(CompareVectorsOp::Hs)) [] (pd, pg slash z, zn, zm);
    cmphi: G33(CompareForm::Vectors(CompareVectorsOp::Hi)) [] (pd, pg slash z, zn, zm);
    cmpge: G33(CompareForm::Vectors(CompareVectorsOp::Ge)) [] (pd, pg slash z, zn, zm);
    cmpgt: G33(CompareForm::Vectors(CompareVectorsOp::Gt)) [] (pd, pg slash z, zn, zm);
    cmpeq: G33(CompareForm::Vectors(CompareVectorsOp::Eq)) [] (pd, pg slash z, zn, zm);
    cmpne: G33(CompareForm::Vectors(CompareVectorsOp::Ne)) [] (pd, pg slash z, zn, zm);
    cmpge: G33(CompareForm::Immediate(CompareImmediateOp::Ge)) [] (pd, pg slash z, zn, signed5b);
    cmpgt: G33(CompareForm::Immediate(CompareImmediateOp::Gt)) [] (pd, pg slash z, zn, signed5b);
    cmplt: G33(CompareForm::Immediate(CompareImmediateOp::Lt)) [] (pd, pg slash z, zn, signed5b);
    cmple: G33(CompareForm::Immediate(CompareImmediateOp::Le)) [] (pd, pg slash z, zn, signed5b);
    cmpeq: G33(CompareForm::Immediate(CompareImmediateOp::Eq)) [] (pd, pg slash z, zn, signed5b);
    cmpne: G33(CompareForm::Immediate(CompareImmediateOp::Ne)) [] (pd, pg slash z, zn, signed5b);
    ptrue: G34(PredicateForm::True) [] (pd, pattern);
    whilelt: G35(CountForm::While(true)) [SF=0] (pd, wn, wm);
    whilelt: G35(CountForm::While(true)) [SF=1] (pd, xn, xm);
    whilelo: G35(CountForm::While(false)) [SF=0] (pd, wn, wm);
    whilelo: G35(CountForm::While(false)) [SF=1] (pd, xn, xm);
    cntp: G35(CountForm::Active) [] (xd, pg4, pn);
    mul: G38(Sve2Form::Multiply(VectorMultiplyOp::Mul)) [] (zd, zn, zm);
    smulh: G38(Sve2Form::Multiply(VectorMultiplyOp::Smulh)) [] (zd, zn, zm);
    umulh: G38(Sve2Form::Multiply(VectorMultiplyOp::Umulh)) [] (zd, zn, zm);
};

/// The texts of every size but bytes.
pub static NOT_BYTES: [Wording<Operation>; 48] = not_bytes! {
    sxtb: G28(PredicatedUnaryOp::Sxtb) [] (zd, pg slash m, zn);
    uxtb: G28(PredicatedUnaryOp::Uxtb) [] (zd, pg slash m, zn);
    dup: G30(CopyForm::Immediate) [SH=1] (zd, signed8, lsl eight);
    cpy: G30(CopyForm::PredicatedImmediate) [MERGING=0 SH=1] (zd, cpy_pg slash z, signed8, lsl eight);
    cpy: G30(CopyForm::PredicatedImmediate) [MERGING=1 SH=1] (zd, cpy_pg slash m, signed8, lsl eight);
    add: G30(CopyForm::AddImmediate(AddImmediateOp::Add)) [SH=1] (zd, zd, imm8, lsl eight);
    sub: G30(CopyForm::AddImmediate(AddImmediateOp::Sub)) [SH=1] (zd, zd, imm8, lsl eight);
    subr: G30(CopyForm::AddImmediate(AddImmediateOp::Subr)) [SH=1] (zd, zd, imm8, lsl eight);
    sunpklo: G31(PermuteForm::Unpack(true, false)) [] (zd, zn_u);
    sunpkhi: G31(PermuteForm::Unpack(true, true)) [] (zd, zn_u);
    uunpklo: G31(PermuteForm::Unpack(false, false)) [] (zd, zn_u);
    uunpkhi: G31(PermuteForm::Unpack(false, true)) [] (zd, zn_u);
    saddlb: G38(Sve2Form::Widening(WideningOp::Saddl, false)) [] (zd, zn_u, zm_u);
    saddlt: G38(Sve2Form::Widening(WideningOp::Saddl, true)) [] (zd, zn_u, zm_u);
    uaddlb: G38(Sve2Form::Widening(WideningOp::Uaddl, false)) [] (zd, zn_u, zm_u);
    uaddlt: G38(Sve2Form::Widening(WideningOp::Uaddl, true)) [] (zd, zn_u, zm_u);
    smullb: G38(Sve2Form::Widening(WideningOp::Smull, false)) [] (zd, zn_u, zm_u);
    smullt: G38(Sve2Form::Widening(WideningOp::Smull, true)) [] (zd, zn_u, zm_u);
    umullb: G38(Sve2Form::Widening(WideningOp::Umull, false)) [] (zd, zn_u, zm_u);
    umullt: G38(Sve2Form::Widening(WideningOp::Umull, true)) [] (zd, zn_u, zm_u);
    smlalb: G38(Sve2Form::Widening(WideningOp::Smlal, false)) [] (zd, zn_u, zm_u);
    smlalt: G38(Sve2Form::Widening(WideningOp::Smlal, true)) [] (zd, zn_u, zm_u);
    umlalb: G38(Sve2Form::Widening(WideningOp::Umlal, false)) [] (zd, zn_u, zm_u);
    umlalt: G38(Sve2Form::Widening(WideningOp::Umlal, true)) [] (zd, zn_u, zm_u);
};

/// The texts of words and doublewords.
pub static WORDS_AND_DOUBLEWORDS: [Wording<Operation>; 4] = words_and_doublewords! {
    sdiv: G26(PredicatedBinaryOp::Sdiv) [] (zd, pg slash m, zd, zn);
    udiv: G26(PredicatedBinaryOp::Udiv) [] (zd, pg slash m, zd, zn);
    sxth: G28(PredicatedUnaryOp::Sxth) [] (zd, pg slash m, zn);
    uxth: G28(PredicatedUnaryOp::Uxth) [] (zd, pg slash m, zn);
};

/// The texts with a general register of the width that the elements ask.
pub static BY_REGISTER: [Wording<Operation>; 21] = by_register! {
    dup: G30(CopyForm::Register) [] (zd, rn_sp);
    cpy: G30(CopyForm::PredicatedRegister) [] (zd, pg slash m, rn_sp);
    index: G30(CopyForm::Index(true, false)) [] (zd, rn, signed5b);
    index: G30(CopyForm::Index(false, true)) [] (zd, signed5, rm);
    index: G30(CopyForm::Index(true, true)) [] (zd, rn, rm);
    lasta: G32(ReductionForm::Last(false)) [] (rd, pg, zn);
    lastb: G32(ReductionForm::Last(true)) [] (rd, pg, zn);
};

/// The texts with the low part of a vector.
pub static LOW_PARTS: [Wording<Operation>; 28] = low_parts! {
    smaxv: G32(ReductionForm::Reduce(ReductionOp::Smaxv)) [] (vd, pg, zn);
    umaxv: G32(ReductionForm::Reduce(ReductionOp::Umaxv)) [] (vd, pg, zn);
    sminv: G32(ReductionForm::Reduce(ReductionOp::Sminv)) [] (vd, pg, zn);
    uminv: G32(ReductionForm::Reduce(ReductionOp::Uminv)) [] (vd, pg, zn);
    orv: G32(ReductionForm::Reduce(ReductionOp::Orv)) [] (vd, pg, zn);
    eorv: G32(ReductionForm::Reduce(ReductionOp::Eorv)) [] (vd, pg, zn);
    andv: G32(ReductionForm::Reduce(ReductionOp::Andv)) [] (vd, pg, zn);
};

/// The texts of logical operations on predicates, with and without flags.
pub static WITH_FLAGS: [Wording<Operation>; 14] = with_flags! {
    and ands And;
    bic bics Bic;
    eor eors Eor;
    orr orrs Orr;
    orn orns Orn;
    nor nors Nor;
    nand nands Nand;
};

/// The texts with numbers of elements, of bytes to doublewords.
pub static COUNTS: [Wording<Operation>; 24] = counts! {
    cntb cnth cntw cntd: G36(ElementForm::Count);
    incb inch incw incd: G36(ElementForm::Change(false));
    decb dech decw decd: G36(ElementForm::Change(true));
};

/// The texts of loads of vectors: mnemonic, DTYPE, the vector, and the shift of a register.
pub static LOADS: [Wording<Operation>; 48] = loads! {
    ld1b 0 (zd_b) ();
    ld1b 1 (zd_h) ();
    ld1b 2 (zd_s) ();
    ld1b 3 (zd_d) ();
    ld1sw 4 (zd_d) (, lsl amount_is_2);
    ld1h 5 (zd_h) (, lsl amount_is_1);
    ld1h 6 (zd_s) (, lsl amount_is_1);
    ld1h 7 (zd_d) (, lsl amount_is_1);
    ld1sh 8 (zd_d) (, lsl amount_is_1);
    ld1sh 9 (zd_s) (, lsl amount_is_1);
    ld1w 10 (zd_s) (, lsl amount_is_2);
    ld1w 11 (zd_d) (, lsl amount_is_2);
    ld1sb 12 (zd_d) ();
    ld1sb 13 (zd_s) ();
    ld1sb 14 (zd_h) ();
    ld1d 15 (zd_d) (, lsl amount_is_3);
};

/// The texts of stores of vectors.
pub static STORES: [Wording<Operation>; 15] = stores! {
    st1b StoreBytes [MEMORY_SIZE=0] [] (zt_e) ();
    st1h StoreHalfwords [MEMORY_SIZE=1 ELEMENT_SIZE=1] [ELEMENT_SIZE=1] (zd_h) (, lsl amount_is_1);
    st1h StoreHalfwords [MEMORY_SIZE=1 ELEMENT_SIZE=2] [ELEMENT_SIZE=2] (zt_sd) (, lsl amount_is_1);
    st1w StoreWords [MEMORY_SIZE=2 ELEMENT_SIZE=2] [ELEMENT_SIZE=2] (zt_sd) (, lsl amount_is_2);
    st1d StoreDoublewords [MEMORY_SIZE=3 ELEMENT_SIZE=3] [] (zd_d) (, lsl amount_is_3);
};

/// The texts of loads and stores of whole vectors and predicates.
pub static WHOLE_REGISTERS: [Wording<Operation>; 8] = whole_registers! {
    ldr Vector false (zd_z);
    str Vector true (zd_z);
    ldr Predicate false (pt);
    str Predicate true (pt);
};

/// The texts of loads and stores of slices of tiles.
pub static SLICES: [Wording<Operation>; 20] = slices! {
    ld1b st1b B (za_hb za_vb) index_b ();
    ld1h st1h H (za_hh za_vh) index_h (, lsl amount_is_1);
    ld1w st1w S (za_hs za_vs) index_s (, lsl amount_is_2);
    ld1d st1d D (za_hd za_vd) index_d (, lsl amount_is_3);
    ld1q st1q Q (za_hq za_vq) index_q (, lsl amount_is_4);
};

/// The texts of moves between slices and vectors.
pub static MOVES: [Wording<Operation>; 20] = moves! {
    B zd_b zn_b (za_hb za_vb) index_b (source_hb source_vb) source_index_b;
    H zd_h zn_h (za_hh za_vh) index_h (source_hh source_vh) source_index_h;
    S zd_s zn_s (za_hs za_vs) index_s (source_hs source_vs) source_index_s;
    D zd_d zn_d (za_hd za_vd) index_d (source_hd source_vd) source_index_d;
    Q zd_q zn_q (za_hq za_vq) index_q (source_hq source_vq) source_index_q;
};

/// The texts of outer products.
pub static PRODUCTS: [Wording<Operation>; 16] = products! {
    smopa smops Smopa;
    sumopa sumops Sumopa;
    usmopa usmops Usmopa;
    umopa umops Umopa;
};

/// The texts of one form each.
pub static PLAIN: [Wording<Operation>; 52] = plain! {
    and: G25(VectorLogicalOp::And) [] (zd_d, zn_d, zm_d);
    orr: G25(VectorLogicalOp::Orr) [] (zd_d, zn_d, zm_d);
    eor: G25(VectorLogicalOp::Eor) [] (zd_d, zn_d, zm_d);
    bic: G25(VectorLogicalOp::Bic) [] (zd_d, zn_d, zm_d);
    sxtw: G28(PredicatedUnaryOp::Sxtw) [SIZE=3] (zd_d, pg slash m, zn_d);
    uxtw: G28(PredicatedUnaryOp::Uxtw) [SIZE=3] (zd_d, pg slash m, zn_d);
    asr: G29(VectorShiftOp::Asr, ShiftSize::B) [] (zd_b, zn_b, right_b);
    asr: G29(VectorShiftOp::Asr, ShiftSize::H) [] (zd_h, zn_h, right_h);
    asr: G29(VectorShiftOp::Asr, ShiftSize::S) [] (zd_s, zn_s, right_s);
    asr: G29(VectorShiftOp::Asr, ShiftSize::D) [] (zd_d, zn_d, right_d);
    lsr: G29(VectorShiftOp::Lsr, ShiftSize::B) [] (zd_b, zn_b, right_b);
    lsr: G29(VectorShiftOp::Lsr, ShiftSize::H) [] (zd_h, zn_h, right_h);
    lsr: G29(VectorShiftOp::Lsr, ShiftSize::S) [] (zd_s, zn_s, right_s);
    lsr: G29(VectorShiftOp::Lsr, ShiftSize::D) [] (zd_d, zn_d, right_d);
    lsl: G29(VectorShiftOp::Lsl, ShiftSize::B) [] (zd_b, zn_b, left_b);
    lsl: G29(VectorShiftOp::Lsl, ShiftSize::H) [] (zd_h, zn_h, left_h);
    lsl: G29(VectorShiftOp::Lsl, ShiftSize::S) [] (zd_s, zn_s, left_s);
    lsl: G29(VectorShiftOp::Lsl, ShiftSize::D) [] (zd_d, zn_d, left_d);
    movprfx: G30(CopyForm::Prefix) [] (zd_z, zn_z);
    ext: G31(PermuteForm::Extract) [] (zd_b, zd_b, zn_b, extract8);
    saddv: G32(ReductionForm::Reduce(ReductionOp::Saddv)) [SIZE=0] (vd_d, pg, zn_bh);
    saddv: G32(ReductionForm::Reduce(ReductionOp::Saddv)) [SIZE=2] (vd_d, pg, zn_s);
    pfalse: G34(PredicateForm::False) [] (pd_b);
    ptest: G34(PredicateForm::Test) [] (pg4, pn_b);
    sel: G34(PredicateForm::Logical(PredicateLogicalOp::Sel)) [] (pd_b, pg4, pn_b, pm_b);
    setffr: G35(CountForm::SetFfr) [] ();
    rdffr: G35(CountForm::ReadFfr) [] (pd_b);
    wrffr: G35(CountForm::WriteFfr) [] (pn_b);
    rdvl: G36(ElementForm::Length) [] (xd, signed6);
    addvl: G36(ElementForm::AddLength(false)) [] (xd_sp, xm_sp, signed6);
    addpl: G36(ElementForm::AddLength(true)) [] (xd_sp, xm_sp, signed6);
    eor3: G38(Sve2Form::Ternary(TernaryLogicalOp::Eor3)) [] (zd_d, zd_d, zm_d, zn_d);
    bcax: G38(Sve2Form::Ternary(TernaryLogicalOp::Bcax)) [] (zd_d, zd_d, zm_d, zn_d);
    bsl: G38(Sve2Form::Ternary(TernaryLogicalOp::Bsl)) [] (zd_d, zd_d, zm_d, zn_d);
    smstart: G39(true, ModePart::Sm) [] (sm);
    smstart: G39(true, ModePart::Za) [] (za);
    smstart: G39(true, ModePart::Both) [] ();
    smstop: G39(false, ModePart::Sm) [] (sm);
    smstop: G39(false, ModePart::Za) [] (za);
    smstop: G39(false, ModePart::Both) [] ();
    zero: G40(ArrayForm::Zero) [] (zero_mask);
    ldr: G40(ArrayForm::Transfer(false)) [ARRAY_OFFSET=0] (za open rv, index_0 close, open xn_sp close);
    ldr: G40(ArrayForm::Transfer(false)) []
        (za open rv, index_array close, open xn_sp, array_offset, mul vl close);
    str: G40(ArrayForm::Transfer(true)) [ARRAY_OFFSET=0] (za open rv, index_0 close, open xn_sp close);
    str: G40(ArrayForm::Transfer(true)) []
        (za open rv, index_array close, open xn_sp, array_offset, mul vl close);
    addha: G43(false, false) [] (za_s, row_pn slash m, column_pm slash m, zn_s);
    addva: G43(true, false) [] (za_s, row_pn slash m, column_pm slash m, zn_s);
    addha: G43(false, true) [] (za_d, row_pn slash m, column_pm slash m, zn_d);
    addva: G43(true, true) [] (za_d, row_pn slash m, column_pm slash m, zn_d);
    rdsvl: G45(StreamingForm::Length) [] (xd, signed6);
    addsvl: G45(StreamingForm::AddLength(false)) [] (xd_sp, xm_sp, signed6);
    addspl: G45(StreamingForm::AddLength(true)) [] (xd_sp, xm_sp, signed6);
};
