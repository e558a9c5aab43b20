//! The texts of the operations, a line each: whether words are printed so or the text is an alias, its
//! mnemonic, the operation, the fields that it sets, and its operands, which hold the other fields. A set
//! number gives the bits of its field that no operand holds.
//!
//! Where a word has two texts of a mnemonic the first is printed, and of two that take the same tokens the
//! first is read.
use crate::item::{Setting, Text, Wording};
use crate::mnemonics::mnemonic;
use crate::operand_items::index_of;
use a64_table::fields::{
    ACQUIRE, BRANCH_COND, CAS_ACQUIRE, CAS_RELEASE, HINT, HW, IMM3, IMM6, IMM7, IMM9, IMM12, IMMS,
    N, OPC, OPTION, RA, RD, RELEASE, RM, RN, SCALED, SF, SH, SHIFT, SIZE,
};
use a64_table::{AddressForm, AtomicForm, BranchOp, MultiplyOp, Operation, SystemOp};
use sm_types::{
    AddSub, AtomicOp, BitfieldOp, BranchRegisterOp, CompareOp, LoadLiteralOp, Logical, MoveOp,
    OneSourceOp, PairIndex, PairOp, PcRelativeOp, SelectOp, SystemMoveOp, SystemRegister,
    TwoSourceOp,
};

// ---- a text

macro_rules! is_alias {
    (print) => { false };
    (alias) => { true };
}

// An operand of X registers, by its name without the width.
macro_rules! in_x {
    (rd) => { index_of!(xd) };
    (rd_sp) => { index_of!(xd_sp) };
    (rn) => { index_of!(xn) };
    (rn_sp) => { index_of!(xn_sp) };
    (rm) => { index_of!(xm) };
    (ra) => { index_of!(xa) };
    (rt) => { index_of!(xt) };
    (amount) => { index_of!(amount6) };
    (mask) => { index_of!(xmask) };
    (mask_or_negative) => { index_of!(xmask_or_negative) };
    (halfword) => { index_of!(xhalfword) };
    (inverted_halfword) => { index_of!(xinverted_halfword) };
    (halfword_shift) => { index_of!(halfword_shift64) };
    ($other:ident) => { index_of!($other) };
}

// The same of W registers.
macro_rules! in_w {
    (rd) => { index_of!(wd) };
    (rd_sp) => { index_of!(wd_sp) };
    (rn) => { index_of!(wn) };
    (rn_sp) => { index_of!(wn_sp) };
    (rm) => { index_of!(wm) };
    (ra) => { index_of!(wa) };
    (rt) => { index_of!(wt) };
    (sp) => { index_of!(wsp) };
    (amount) => { index_of!(amount5) };
    (mask) => { index_of!(wmask) };
    (mask_or_negative) => { index_of!(wmask_or_negative) };
    (halfword) => { index_of!(whalfword) };
    (inverted_halfword) => { index_of!(winverted_halfword) };
    (halfword_shift) => { index_of!(halfword_shift32) };
    ($other:ident) => { index_of!($other) };
}

// The indices of the operands of these names, and 0 up to 24.
macro_rules! twenty_four {
    ($of:ident [$($done:expr),*] [$none:literal $($nones:literal)*] $name:ident $($names:ident)*) => {
        twenty_four!($of [$($done,)* $of!($name)] [$($nones)*] $($names)*)
    };
    ($of:ident [$($done:expr),*] [$($none:literal)*]) => {
        [$($done,)* $($none),*]
    };
}

// The fields that are set, and none up to four.
macro_rules! four {
    ([$($done:expr),*] [$none:ident $($nones:ident)*] $field:ident=$number:literal $($rest:tt)*) => {
        four!([$($done,)* Some(Setting { field: $field, number: $number })] [$($nones)*] $($rest)*)
    };
    ([$($done:expr),*] [$($none:ident)*]) => {
        [$($done,)* $($none),*]
    };
}

// A text: what reads the names of its operands, whether it is printed, the parts of its mnemonic, and the
// rest.
macro_rules! text {
    (
        $of:ident $kind:ident [$($name:tt)*] $group:ident($($op:tt)*) [$($set:tt)*]
        ($($first:ident)* $(, $($more:ident)+)*)
    ) => {
        Wording {
            alias: is_alias!($kind),
            mnemonic: mnemonic!($($name)*),
            operation: Operation::$group($($op)*),
            set: four!([] [None None None None] $($set)*),
            operands: twenty_four!(
                $of [] [0 0 0 0 0 0 0 0 0 0 0 0 0 0 0 0 0 0 0 0 0 0 0 0] $($first)* $(comma $($more)+)*
            ),
        }
    };
}

// ---- the forms of a line

macro_rules! both {
    ($($kind:ident $name:ident: $group:ident($($op:tt)*) [$($set:tt)*] ($($item:tt)*);)*) => {
        [$(
            text!(in_x $kind [$name] $group($($op)*) [SF=1 $($set)*] ($($item)*)),
            text!(in_w $kind [$name] $group($($op)*) [SF=0 $($set)*] ($($item)*))
        ),*]
    };
}

macro_rules! single {
    ($($kind:ident $($name:ident).+: $group:ident($($op:tt)*) [$($set:tt)*] ($($item:tt)*);)*) => {
        [$(
            text!(index_of $kind [$($name).+] $group($($op)*) [$($set)*] ($($item)*))
        ),*]
    };
}

macro_rules! extended {
    ($($kind:ident $name:ident: $group:ident($($op:tt)*) [$($set:tt)*] ($($item:tt)*);)*) => {
        [$(
            text!(in_x $kind [$name] $group($($op)*) [SF=1 OPTION=3 IMM3=0 $($set)*] ($($item)*, xm, uxtx)),
            text!(in_x $kind [$name] $group($($op)*) [SF=1 OPTION=3 $($set)*]
                ($($item)*, xm, uxtx amount4)),
            text!(in_x $kind [$name] $group($($op)*) [SF=1 OPTION=7 IMM3=0 $($set)*] ($($item)*, xm, sxtx)),
            text!(in_x $kind [$name] $group($($op)*) [SF=1 OPTION=7 $($set)*]
                ($($item)*, xm, sxtx amount4)),
            text!(in_x $kind [$name] $group($($op)*) [SF=1 OPTION=0 IMM3=0 $($set)*]
                ($($item)*, wm, uxtb_to_uxtw)),
            text!(in_x $kind [$name] $group($($op)*) [SF=1 OPTION=0 $($set)*]
                ($($item)*, wm, uxtb_to_uxtw amount4)),
            text!(in_x $kind [$name] $group($($op)*) [SF=1 OPTION=4 IMM3=0 $($set)*]
                ($($item)*, wm, sxtb_to_sxtw)),
            text!(in_x $kind [$name] $group($($op)*) [SF=1 OPTION=4 $($set)*]
                ($($item)*, wm, sxtb_to_sxtw amount4)),
            text!(in_w $kind [$name] $group($($op)*) [SF=0 IMM3=0 $($set)*] ($($item)*, wm, extend)),
            text!(in_w $kind [$name] $group($($op)*) [SF=0 $($set)*] ($($item)*, wm, extend amount4))
        ),*]
    };
}

macro_rules! pairs {
    ($($name:ident: $op:ident $wide:literal ($($item:tt)*) $offset:ident;)*) => {
        [$(
            text!(index_of print [$name] G20(PairOp::$op, $wide, PairIndex::Offset) [IMM7=0]
                ($($item)*, open xn_sp close)),
            text!(index_of print [$name] G20(PairOp::$op, $wide, PairIndex::Offset) []
                ($($item)*, open xn_sp, $offset close)),
            text!(index_of print [$name] G20(PairOp::$op, $wide, PairIndex::PostIndex) []
                ($($item)*, open xn_sp_alone close, $offset)),
            text!(index_of print [$name] G20(PairOp::$op, $wide, PairIndex::PreIndex) []
                ($($item)*, open xn_sp_alone, $offset close bang))
        ),*]
    };
}

macro_rules! accesses {
    ($($name:ident $unscaled:ident [$($set:tt)*] ($rt:ident) $offset:ident $amount:ident;)*) => {
        [$(
            text!(index_of print [$name] G18(AddressForm::Offset) [IMM12=0 $($set)*] ($rt, open xn_sp close)),
            text!(index_of print [$name] G18(AddressForm::Offset) [$($set)*]
                ($rt, open xn_sp, $offset close)),
            text!(index_of print [$unscaled] G18(AddressForm::Unscaled) [IMM9=0 $($set)*]
                ($rt, open xn_sp close)),
            text!(index_of print [$unscaled] G18(AddressForm::Unscaled) [$($set)*]
                ($rt, open xn_sp, imm9 close)),
            text!(index_of print [$name] G18(AddressForm::PostIndex) [$($set)*]
                ($rt, open xn_sp_not_t close, imm9)),
            text!(index_of print [$name] G18(AddressForm::PreIndex) [$($set)*]
                ($rt, open xn_sp_not_t, imm9 close bang)),
            text!(index_of print [$name] G18(AddressForm::Register) [OPTION=3 SCALED=0 $($set)*]
                ($rt, open xn_sp, xm close)),
            text!(index_of print [$name] G18(AddressForm::Register) [OPTION=3 SCALED=1 $($set)*]
                ($rt, open xn_sp, xm, lsl $amount close)),
            text!(index_of print [$name] G18(AddressForm::Register) [OPTION=2 SCALED=0 $($set)*]
                ($rt, open xn_sp, wm, uxtw close)),
            text!(index_of print [$name] G18(AddressForm::Register) [OPTION=2 SCALED=1 $($set)*]
                ($rt, open xn_sp, wm, uxtw $amount close)),
            text!(index_of print [$name] G18(AddressForm::Register) [OPTION=6 SCALED=0 $($set)*]
                ($rt, open xn_sp, wm, sxtw close)),
            text!(index_of print [$name] G18(AddressForm::Register) [OPTION=6 SCALED=1 $($set)*]
                ($rt, open xn_sp, wm, sxtw $amount close)),
            text!(index_of print [$name] G18(AddressForm::Register) [OPTION=7 SCALED=0 $($set)*]
                ($rt, open xn_sp, xm, sxtx close)),
            text!(index_of print [$name] G18(AddressForm::Register) [OPTION=7 SCALED=1 $($set)*]
                ($rt, open xn_sp, xm, sxtx $amount close))
        ),*]
    };
}

macro_rules! sized {
    ($($name:ident: $group:ident($($op:tt)*);)*) => {
        [$(
            text!(index_of print [$name b] $group($($op)*) [SIZE=0] (wt, open xn_sp close)),
            text!(index_of print [$name h] $group($($op)*) [SIZE=1] (wt, open xn_sp close)),
            text!(index_of print [$name] $group($($op)*) [SIZE=2] (wt, open xn_sp close)),
            text!(index_of print [$name] $group($($op)*) [SIZE=3] (xt, open xn_sp close))
        ),*]
    };
}

macro_rules! ordered {
    ($($name:ident: $group:ident($($op:tt)*) $a:ident $l:ident;)*) => {
        [$(
            text!(index_of print [$name b] $group($($op)*) [SIZE=0 $a=0 $l=0] (ws, wt, open xn_sp close)),
            text!(index_of print [$name h] $group($($op)*) [SIZE=1 $a=0 $l=0] (ws, wt, open xn_sp close)),
            text!(index_of print [$name] $group($($op)*) [SIZE=2 $a=0 $l=0] (ws, wt, open xn_sp close)),
            text!(index_of print [$name] $group($($op)*) [SIZE=3 $a=0 $l=0] (xs, xt, open xn_sp close)),
            text!(index_of print [$name a b] $group($($op)*) [SIZE=0 $a=1 $l=0] (ws, wt, open xn_sp close)),
            text!(index_of print [$name a h] $group($($op)*) [SIZE=1 $a=1 $l=0] (ws, wt, open xn_sp close)),
            text!(index_of print [$name a] $group($($op)*) [SIZE=2 $a=1 $l=0] (ws, wt, open xn_sp close)),
            text!(index_of print [$name a] $group($($op)*) [SIZE=3 $a=1 $l=0] (xs, xt, open xn_sp close)),
            text!(index_of print [$name l b] $group($($op)*) [SIZE=0 $a=0 $l=1] (ws, wt, open xn_sp close)),
            text!(index_of print [$name l h] $group($($op)*) [SIZE=1 $a=0 $l=1] (ws, wt, open xn_sp close)),
            text!(index_of print [$name l] $group($($op)*) [SIZE=2 $a=0 $l=1] (ws, wt, open xn_sp close)),
            text!(index_of print [$name l] $group($($op)*) [SIZE=3 $a=0 $l=1] (xs, xt, open xn_sp close)),
            text!(index_of print [$name al b] $group($($op)*) [SIZE=0 $a=1 $l=1] (ws, wt, open xn_sp close)),
            text!(index_of print [$name al h] $group($($op)*) [SIZE=1 $a=1 $l=1] (ws, wt, open xn_sp close)),
            text!(index_of print [$name al] $group($($op)*) [SIZE=2 $a=1 $l=1] (ws, wt, open xn_sp close)),
            text!(index_of print [$name al] $group($($op)*) [SIZE=3 $a=1 $l=1] (xs, xt, open xn_sp close))
        ),*]
    };
}

/// The texts of both widths, with W registers where SF is 0 and X registers where it is 1.
pub static BOTH: [Wording<Operation>; 188] = both! {
    print add: G1(AddSub::Add) [SH=0] (rd_sp, rn_sp, imm12);
    print add: G1(AddSub::Add) [SH=1] (rd_sp, rn_sp, imm12, lsl twelve);
    print adds: G1(AddSub::Adds) [SH=0] (rd, rn_sp, imm12);
    print adds: G1(AddSub::Adds) [SH=1] (rd, rn_sp, imm12, lsl twelve);
    print sub: G1(AddSub::Sub) [SH=0] (rd_sp, rn_sp, imm12);
    print sub: G1(AddSub::Sub) [SH=1] (rd_sp, rn_sp, imm12, lsl twelve);
    print subs: G1(AddSub::Subs) [SH=0] (rd, rn_sp, imm12);
    print subs: G1(AddSub::Subs) [SH=1] (rd, rn_sp, imm12, lsl twelve);
    alias cmn: G1(AddSub::Adds) [RD=31 SH=0] (rn_sp, imm12);
    alias cmn: G1(AddSub::Adds) [RD=31 SH=1] (rn_sp, imm12, lsl twelve);
    alias cmp: G1(AddSub::Subs) [RD=31 SH=0] (rn_sp, imm12);
    alias cmp: G1(AddSub::Subs) [RD=31 SH=1] (rn_sp, imm12, lsl twelve);
    print add: G2(AddSub::Add) [SHIFT=0 IMM6=0] (rd, rn, rm);
    print add: G2(AddSub::Add) [] (rd, rn, rm, shift3 amount);
    print adds: G2(AddSub::Adds) [SHIFT=0 IMM6=0] (rd, rn, rm);
    print adds: G2(AddSub::Adds) [] (rd, rn, rm, shift3 amount);
    print sub: G2(AddSub::Sub) [SHIFT=0 IMM6=0] (rd, rn, rm);
    print sub: G2(AddSub::Sub) [] (rd, rn, rm, shift3 amount);
    print subs: G2(AddSub::Subs) [SHIFT=0 IMM6=0] (rd, rn, rm);
    print subs: G2(AddSub::Subs) [] (rd, rn, rm, shift3 amount);
    alias cmn: G2(AddSub::Adds) [RD=31 SHIFT=0 IMM6=0] (rn, rm);
    alias cmn: G2(AddSub::Adds) [RD=31] (rn, rm, shift3 amount);
    alias cmp: G2(AddSub::Subs) [RD=31 SHIFT=0 IMM6=0] (rn, rm);
    alias cmp: G2(AddSub::Subs) [RD=31] (rn, rm, shift3 amount);
    alias neg: G2(AddSub::Sub) [RN=31 SHIFT=0 IMM6=0] (rd, rm);
    alias neg: G2(AddSub::Sub) [RN=31] (rd, rm, shift3 amount);
    print and: G3(Logical::And, false) [SHIFT=0 IMM6=0] (rd, rn, rm);
    print and: G3(Logical::And, false) [] (rd, rn, rm, shift4 amount);
    print bic: G3(Logical::And, true) [SHIFT=0 IMM6=0] (rd, rn, rm);
    print bic: G3(Logical::And, true) [] (rd, rn, rm, shift4 amount);
    print orr: G3(Logical::Orr, false) [SHIFT=0 IMM6=0] (rd, rn, rm);
    print orr: G3(Logical::Orr, false) [] (rd, rn, rm, shift4 amount);
    print orn: G3(Logical::Orr, true) [SHIFT=0 IMM6=0] (rd, rn, rm);
    print orn: G3(Logical::Orr, true) [] (rd, rn, rm, shift4 amount);
    print eor: G3(Logical::Eor, false) [SHIFT=0 IMM6=0] (rd, rn, rm);
    print eor: G3(Logical::Eor, false) [] (rd, rn, rm, shift4 amount);
    print eon: G3(Logical::Eor, true) [SHIFT=0 IMM6=0] (rd, rn, rm);
    print eon: G3(Logical::Eor, true) [] (rd, rn, rm, shift4 amount);
    print ands: G3(Logical::Ands, false) [SHIFT=0 IMM6=0] (rd, rn, rm);
    print ands: G3(Logical::Ands, false) [] (rd, rn, rm, shift4 amount);
    print bics: G3(Logical::Ands, true) [SHIFT=0 IMM6=0] (rd, rn, rm);
    print bics: G3(Logical::Ands, true) [] (rd, rn, rm, shift4 amount);
    alias tst: G3(Logical::Ands, false) [RD=31 SHIFT=0 IMM6=0] (rn, rm);
    alias tst: G3(Logical::Ands, false) [RD=31] (rn, rm, shift4 amount);
    alias mvn: G3(Logical::Orr, true) [RN=31 SHIFT=0 IMM6=0] (rd, rm);
    alias mvn: G3(Logical::Orr, true) [RN=31] (rd, rm, shift4 amount);
    print and: G5(Logical::And) [N=0] (rd_sp, rn, mask);
    print orr: G5(Logical::Orr) [N=0] (rd_sp, rn, mask);
    print eor: G5(Logical::Eor) [N=0] (rd_sp, rn, mask);
    print ands: G5(Logical::Ands) [N=0] (rd, rn, mask);
    alias tst: G5(Logical::Ands) [RD=31 N=0] (rn, mask);
    print movn: G6(MoveOp::Movn) [HW=0] (rd, imm16);
    print movn: G6(MoveOp::Movn) [] (rd, imm16, lsl halfword_shift);
    print movz: G6(MoveOp::Movz) [HW=0] (rd, imm16);
    print movz: G6(MoveOp::Movz) [] (rd, imm16, lsl halfword_shift);
    print movk: G6(MoveOp::Movk) [HW=0] (rd, imm16);
    print movk: G6(MoveOp::Movk) [] (rd, imm16, lsl halfword_shift);
    alias mov: G3(Logical::Orr, false) [RN=31 SHIFT=0 IMM6=0] (rd, rm);
    alias mov: G1(AddSub::Add) [RD=31 SH=0 IMM12=0] (sp, rn_sp);
    alias mov: G1(AddSub::Add) [RN=31 SH=0 IMM12=0] (rd_sp, sp);
    alias mov: G6(MoveOp::Movz) [] (rd, halfword);
    alias mov: G6(MoveOp::Movn) [] (rd, inverted_halfword);
    alias mov: G5(Logical::Orr) [RN=31 N=0] (rd_sp, mask_or_negative);
    print cbz: G10(BranchOp::Cbz) [] (rt, words19);
    print cbnz: G10(BranchOp::Cbnz) [] (rt, words19);
    print adc: G12(AddSub::Add) [] (rd, rn, rm);
    print adcs: G12(AddSub::Adds) [] (rd, rn, rm);
    print sbc: G12(AddSub::Sub) [] (rd, rn, rm);
    print sbcs: G12(AddSub::Subs) [] (rd, rn, rm);
    print csel: G13(SelectOp::Csel) [] (rd, rn, rm, condition);
    print csinc: G13(SelectOp::Csinc) [] (rd, rn, rm, condition);
    print csinv: G13(SelectOp::Csinv) [] (rd, rn, rm, condition);
    print csneg: G13(SelectOp::Csneg) [] (rd, rn, rm, condition);
    alias cset: G13(SelectOp::Csinc) [RN=31 RM=31] (rd, opposite);
    print ccmn: G14(CompareOp::Ccmn, false) [] (rn, rm, flags, condition);
    print ccmn: G14(CompareOp::Ccmn, true) [] (rn, imm5, flags, condition);
    print ccmp: G14(CompareOp::Ccmp, false) [] (rn, rm, flags, condition);
    print ccmp: G14(CompareOp::Ccmp, true) [] (rn, imm5, flags, condition);
    print rbit: G15(OneSourceOp::Rbit) [] (rd, rn);
    print rev16: G15(OneSourceOp::Rev16) [] (rd, rn);
    print clz: G15(OneSourceOp::Clz) [] (rd, rn);
    print cls: G15(OneSourceOp::Cls) [] (rd, rn);
    print udiv: G16(TwoSourceOp::Udiv) [] (rd, rn, rm);
    print sdiv: G16(TwoSourceOp::Sdiv) [] (rd, rn, rm);
    print lslv: G16(TwoSourceOp::Lslv) [] (rd, rn, rm);
    print lsrv: G16(TwoSourceOp::Lsrv) [] (rd, rn, rm);
    print asrv: G16(TwoSourceOp::Asrv) [] (rd, rn, rm);
    print rorv: G16(TwoSourceOp::Rorv) [] (rd, rn, rm);
    alias lsl: G16(TwoSourceOp::Lslv) [] (rd, rn, rm);
    alias lsr: G16(TwoSourceOp::Lsrv) [] (rd, rn, rm);
    alias asr: G16(TwoSourceOp::Asrv) [] (rd, rn, rm);
    print madd: G17(MultiplyOp::Madd) [] (rd, rn, rm, ra);
    print msub: G17(MultiplyOp::Msub) [] (rd, rn, rm, ra);
    alias mul: G17(MultiplyOp::Madd) [RA=31] (rd, rn, rm);
};

/// The texts of one width.
pub static SINGLE: [Wording<Operation>; 68] = single! {
    print sbfm: G7(BitfieldOp::Sbfm, true) [] (xd, xn, immr6, imms6);
    print sbfm: G7(BitfieldOp::Sbfm, false) [] (wd, wn, immr5, imms5);
    print bfm: G7(BitfieldOp::Bfm, true) [] (xd, xn, immr6, imms6);
    print bfm: G7(BitfieldOp::Bfm, false) [] (wd, wn, immr5, imms5);
    print ubfm: G7(BitfieldOp::Ubfm, true) [] (xd, xn, immr6, imms6);
    print ubfm: G7(BitfieldOp::Ubfm, false) [] (wd, wn, immr5, imms5);
    alias lsl: G7(BitfieldOp::Ubfm, true) [] (xd, xn, xshift_left);
    alias lsl: G7(BitfieldOp::Ubfm, false) [] (wd, wn, wshift_left);
    alias lsr: G7(BitfieldOp::Ubfm, true) [IMMS=63] (xd, xn, immr6);
    alias lsr: G7(BitfieldOp::Ubfm, false) [IMMS=31] (wd, wn, immr5);
    alias asr: G7(BitfieldOp::Sbfm, true) [IMMS=63] (xd, xn, immr6);
    alias asr: G7(BitfieldOp::Sbfm, false) [IMMS=31] (wd, wn, immr5);
    print extr: G8(true) [] (xd, xn, xm, imms6);
    print extr: G8(false) [] (wd, wn, wm, imms5);
    print adr: G9(PcRelativeOp::Adr) [] (xd, bytes21);
    print adrp: G9(PcRelativeOp::Adrp) [] (xd, pages21);
    print b: G10(BranchOp::B) [] (words26);
    print bl: G10(BranchOp::Bl) [] (words26);
    print b.eq: G10(BranchOp::BCond) [BRANCH_COND=0] (words19);
    print b.ne: G10(BranchOp::BCond) [BRANCH_COND=1] (words19);
    print b.cs: G10(BranchOp::BCond) [BRANCH_COND=2] (words19);
    print b.cc: G10(BranchOp::BCond) [BRANCH_COND=3] (words19);
    print b.mi: G10(BranchOp::BCond) [BRANCH_COND=4] (words19);
    print b.pl: G10(BranchOp::BCond) [BRANCH_COND=5] (words19);
    print b.vs: G10(BranchOp::BCond) [BRANCH_COND=6] (words19);
    print b.vc: G10(BranchOp::BCond) [BRANCH_COND=7] (words19);
    print b.hi: G10(BranchOp::BCond) [BRANCH_COND=8] (words19);
    print b.ls: G10(BranchOp::BCond) [BRANCH_COND=9] (words19);
    print b.ge: G10(BranchOp::BCond) [BRANCH_COND=10] (words19);
    print b.lt: G10(BranchOp::BCond) [BRANCH_COND=11] (words19);
    print b.gt: G10(BranchOp::BCond) [BRANCH_COND=12] (words19);
    print b.le: G10(BranchOp::BCond) [BRANCH_COND=13] (words19);
    print b.al: G10(BranchOp::BCond) [BRANCH_COND=14] (words19);
    print b.nv: G10(BranchOp::BCond) [BRANCH_COND=15] (words19);
    print tbz: G10(BranchOp::Tbz) [] (xt, bit, words14);
    print tbnz: G10(BranchOp::Tbnz) [] (xt, bit, words14);
    print br: G11(BranchRegisterOp::Br) [] (xn);
    print blr: G11(BranchRegisterOp::Blr) [] (xn);
    print ret: G11(BranchRegisterOp::Ret) [] (xn);
    alias ret: G11(BranchRegisterOp::Ret) [RN=30] ();
    print rev32: G15(OneSourceOp::Rev32) [SF=1] (xd, xn);
    print rev: G15(OneSourceOp::Rev32) [SF=0] (wd, wn);
    print rev: G15(OneSourceOp::Rev64) [] (xd, xn);
    print smaddl: G17(MultiplyOp::Smaddl) [] (xd, wn, wm, xa);
    print smsubl: G17(MultiplyOp::Smsubl) [] (xd, wn, wm, xa);
    print umaddl: G17(MultiplyOp::Umaddl) [] (xd, wn, wm, xa);
    print umsubl: G17(MultiplyOp::Umsubl) [] (xd, wn, wm, xa);
    print smulh: G17(MultiplyOp::Smulh) [] (xd, xn, xm);
    print umulh: G17(MultiplyOp::Umulh) [] (xd, xn, xm);
    print ldr: G19(LoadLiteralOp::Word) [] (wt, words19);
    print ldr: G19(LoadLiteralOp::Doubleword) [] (xt, words19);
    print ldrsw: G19(LoadLiteralOp::SignedWord) [] (xt, words19);
    print svc: G22(SystemOp::Svc) [] (imm16);
    print brk: G22(SystemOp::Brk) [] (imm16);
    print udf: G22(SystemOp::Udf) [] (udf_imm16);
    print hint: G22(SystemOp::Hint) [] (hint);
    alias nop: G22(SystemOp::Hint) [HINT=0] ();
    print dmb: G22(SystemOp::Dmb) [] (crm);
    print dsb: G22(SystemOp::Dsb) [] (crm);
    print isb: G22(SystemOp::Isb) [] (crm);
    print mrs: G23(SystemMoveOp::Mrs, SystemRegister::Nzcv) [] (xt, nzcv);
    print mrs: G23(SystemMoveOp::Mrs, SystemRegister::TpidrEl0) [] (xt, tpidr_el0);
    print mrs: G23(SystemMoveOp::Mrs, SystemRegister::Tpidr2El0) [] (xt, tpidr2_el0);
    print mrs: G23(SystemMoveOp::Mrs, SystemRegister::Svcr) [] (xt, svcr);
    print msr: G23(SystemMoveOp::Msr, SystemRegister::Nzcv) [] (nzcv, xt);
    print msr: G23(SystemMoveOp::Msr, SystemRegister::TpidrEl0) [] (tpidr_el0, xt);
    print msr: G23(SystemMoveOp::Msr, SystemRegister::Tpidr2El0) [] (tpidr2_el0, xt);
    print msr: G23(SystemMoveOp::Msr, SystemRegister::Svcr) [] (svcr, xt);
};

/// The loads and stores of a pair.
pub static PAIRS: [Wording<Operation>; 16] = pairs! {
    stp: Stp false (wt, wt2) imm7_4;
    ldp: Ldp false (wt, wt2_not_t) imm7_4;
    stp: Stp true (xt, xt2) imm7_8;
    ldp: Ldp true (xt, xt2_not_t) imm7_8;
};

/// The texts with an extended register.
pub static EXTENDED: [Wording<Operation>; 60] = extended! {
    print add: G4(AddSub::Add) [] (rd_sp, rn_sp);
    print adds: G4(AddSub::Adds) [] (rd, rn_sp);
    print sub: G4(AddSub::Sub) [] (rd_sp, rn_sp);
    print subs: G4(AddSub::Subs) [] (rd, rn_sp);
    alias cmn: G4(AddSub::Adds) [RD=31] (rn_sp);
    alias cmp: G4(AddSub::Subs) [RD=31] (rn_sp);
};

/// The loads and stores of one register: the mnemonic, the mnemonic without a scale, and what tells the
/// offset.
pub static ACCESSES: [Wording<Operation>; 182] = accesses! {
    strb sturb [SIZE=0 OPC=0] (wt) imm12 amount_is_0;
    ldrb ldurb [SIZE=0 OPC=1] (wt) imm12 amount_is_0;
    ldrsb ldursb [SIZE=0 OPC=2] (xt) imm12 amount_is_0;
    ldrsb ldursb [SIZE=0 OPC=3] (wt) imm12 amount_is_0;
    strh sturh [SIZE=1 OPC=0] (wt) imm12_2 amount_is_1;
    ldrh ldurh [SIZE=1 OPC=1] (wt) imm12_2 amount_is_1;
    ldrsh ldursh [SIZE=1 OPC=2] (xt) imm12_2 amount_is_1;
    ldrsh ldursh [SIZE=1 OPC=3] (wt) imm12_2 amount_is_1;
    str stur [SIZE=2 OPC=0] (wt) imm12_4 amount_is_2;
    ldr ldur [SIZE=2 OPC=1] (wt) imm12_4 amount_is_2;
    ldrsw ldursw [SIZE=2 OPC=2] (xt) imm12_4 amount_is_2;
    str stur [SIZE=3 OPC=0] (xt) imm12_8 amount_is_3;
    ldr ldur [SIZE=3 OPC=1] (xt) imm12_8 amount_is_3;
};

/// The ordered accesses.
pub static SIZED: [Wording<Operation>; 8] = sized! {
    ldar: G21(AtomicForm::Ldar);
    stlr: G21(AtomicForm::Stlr);
};

/// The atomic accesses in each size and order, with the fields of the order.
pub static ORDERED: [Wording<Operation>; 160] = ordered! {
    cas: G21(AtomicForm::Cas) CAS_ACQUIRE CAS_RELEASE;
    ldadd: G21(AtomicForm::Update(AtomicOp::Add)) ACQUIRE RELEASE;
    ldclr: G21(AtomicForm::Update(AtomicOp::Clear)) ACQUIRE RELEASE;
    ldeor: G21(AtomicForm::Update(AtomicOp::Eor)) ACQUIRE RELEASE;
    ldset: G21(AtomicForm::Update(AtomicOp::Set)) ACQUIRE RELEASE;
    ldsmax: G21(AtomicForm::Update(AtomicOp::Smax)) ACQUIRE RELEASE;
    ldsmin: G21(AtomicForm::Update(AtomicOp::Smin)) ACQUIRE RELEASE;
    ldumax: G21(AtomicForm::Update(AtomicOp::Umax)) ACQUIRE RELEASE;
    ldumin: G21(AtomicForm::Update(AtomicOp::Umin)) ACQUIRE RELEASE;
    swp: G21(AtomicForm::Swap) ACQUIRE RELEASE;
};

pub(crate) use four;
pub(crate) use is_alias;
pub(crate) use text;
pub(crate) use twenty_four;
