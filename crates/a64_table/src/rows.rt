//! The rows of the table, in the manual's order.
use crate::fields::{
    ACQUIRE, BIT, BRANCH_COND, CAS_ACQUIRE, CAS_RELEASE, COND, CRM, HINT, HW, IMM3, IMM5, IMM6,
    IMM7, IMM9, IMM12, IMM14, IMM16, IMM19, IMM21, IMM26, IMMR, IMMS, N, NONE, NZCV, OPC, OPTION,
    RA, RD, RELEASE, RM, RN, RS, RT, RT2, SCALED, SF, SH, SHIFT, SIZE, UDF_IMM16,
};
use crate::operation::{AddressForm, AtomicForm, BranchOp, MultiplyOp, Operation, SystemOp};
use insn_forms::{Fields, Line};
use sm_types::{
    AddSub, AtomicOp, BitfieldOp, BranchRegisterOp, CompareOp, Group, LoadLiteralOp, Logical,
    MoveOp, OneSourceOp, PairIndex, PairOp, PcRelativeOp, Row, SelectOp, SystemMoveOp,
    SystemRegister, TwoSourceOp,
};

// The rows: which bits are fixed, their values, the group with its operation, and the fields in the order of
// the operands.
macro_rules! table {
    ($then:ident) => {
        $then! {
            0x7F800000 0x11000000 G1(AddSub::Add) [SF RD RN IMM12 SH];
            0x7F800000 0x31000000 G1(AddSub::Adds) [SF RD RN IMM12 SH];
            0x7F800000 0x51000000 G1(AddSub::Sub) [SF RD RN IMM12 SH];
            0x7F800000 0x71000000 G1(AddSub::Subs) [SF RD RN IMM12 SH];
            0x7F200000 0x0B000000 G2(AddSub::Add) [SF RD RN RM SHIFT IMM6];
            0x7F200000 0x2B000000 G2(AddSub::Adds) [SF RD RN RM SHIFT IMM6];
            0x7F200000 0x4B000000 G2(AddSub::Sub) [SF RD RN RM SHIFT IMM6];
            0x7F200000 0x6B000000 G2(AddSub::Subs) [SF RD RN RM SHIFT IMM6];
            0x7F200000 0x0A000000 G3(Logical::And, false) [SF RD RN RM SHIFT IMM6];
            0x7F200000 0x0A200000 G3(Logical::And, true) [SF RD RN RM SHIFT IMM6];
            0x7F200000 0x2A000000 G3(Logical::Orr, false) [SF RD RN RM SHIFT IMM6];
            0x7F200000 0x2A200000 G3(Logical::Orr, true) [SF RD RN RM SHIFT IMM6];
            0x7F200000 0x4A000000 G3(Logical::Eor, false) [SF RD RN RM SHIFT IMM6];
            0x7F200000 0x4A200000 G3(Logical::Eor, true) [SF RD RN RM SHIFT IMM6];
            0x7F200000 0x6A000000 G3(Logical::Ands, false) [SF RD RN RM SHIFT IMM6];
            0x7F200000 0x6A200000 G3(Logical::Ands, true) [SF RD RN RM SHIFT IMM6];
            0x7FE00000 0x0B200000 G4(AddSub::Add) [SF RD RN RM OPTION IMM3];
            0x7FE00000 0x2B200000 G4(AddSub::Adds) [SF RD RN RM OPTION IMM3];
            0x7FE00000 0x4B200000 G4(AddSub::Sub) [SF RD RN RM OPTION IMM3];
            0x7FE00000 0x6B200000 G4(AddSub::Subs) [SF RD RN RM OPTION IMM3];
            0x7F800000 0x12000000 G5(Logical::And) [SF RD RN N IMMR IMMS];
            0x7F800000 0x32000000 G5(Logical::Orr) [SF RD RN N IMMR IMMS];
            0x7F800000 0x52000000 G5(Logical::Eor) [SF RD RN N IMMR IMMS];
            0x7F800000 0x72000000 G5(Logical::Ands) [SF RD RN N IMMR IMMS];
            0x7F800000 0x12800000 G6(MoveOp::Movn) [SF RD IMM16 HW];
            0x7F800000 0x52800000 G6(MoveOp::Movz) [SF RD IMM16 HW];
            0x7F800000 0x72800000 G6(MoveOp::Movk) [SF RD IMM16 HW];
            0xFFC00000 0x13000000 G7(BitfieldOp::Sbfm, false) [RD RN IMMR IMMS];
            0xFFC00000 0x93400000 G7(BitfieldOp::Sbfm, true) [RD RN IMMR IMMS];
            0xFFC00000 0x33000000 G7(BitfieldOp::Bfm, false) [RD RN IMMR IMMS];
            0xFFC00000 0xB3400000 G7(BitfieldOp::Bfm, true) [RD RN IMMR IMMS];
            0xFFC00000 0x53000000 G7(BitfieldOp::Ubfm, false) [RD RN IMMR IMMS];
            0xFFC00000 0xD3400000 G7(BitfieldOp::Ubfm, true) [RD RN IMMR IMMS];
            0xFFE00000 0x13800000 G8(false) [RD RN RM IMMS];
            0xFFE00000 0x93C00000 G8(true) [RD RN RM IMMS];
            0x9F000000 0x10000000 G9(PcRelativeOp::Adr) [RD IMM21];
            0x9F000000 0x90000000 G9(PcRelativeOp::Adrp) [RD IMM21];
            0xFC000000 0x14000000 G10(BranchOp::B) [IMM26];
            0xFC000000 0x94000000 G10(BranchOp::Bl) [IMM26];
            0xFF000010 0x54000000 G10(BranchOp::BCond) [BRANCH_COND IMM19];
            0x7F000000 0x34000000 G10(BranchOp::Cbz) [SF RT IMM19];
            0x7F000000 0x35000000 G10(BranchOp::Cbnz) [SF RT IMM19];
            0x7F000000 0x36000000 G10(BranchOp::Tbz) [RT BIT IMM14];
            0x7F000000 0x37000000 G10(BranchOp::Tbnz) [RT BIT IMM14];
            0xFFFFFC1F 0xD61F0000 G11(BranchRegisterOp::Br) [RN];
            0xFFFFFC1F 0xD63F0000 G11(BranchRegisterOp::Blr) [RN];
            0xFFFFFC1F 0xD65F0000 G11(BranchRegisterOp::Ret) [RN];
            0x7FE0FC00 0x1A000000 G12(AddSub::Add) [SF RD RN RM];
            0x7FE0FC00 0x3A000000 G12(AddSub::Adds) [SF RD RN RM];
            0x7FE0FC00 0x5A000000 G12(AddSub::Sub) [SF RD RN RM];
            0x7FE0FC00 0x7A000000 G12(AddSub::Subs) [SF RD RN RM];
            0x7FE00C00 0x1A800000 G13(SelectOp::Csel) [SF RD RN RM COND];
            0x7FE00C00 0x1A800400 G13(SelectOp::Csinc) [SF RD RN RM COND];
            0x7FE00C00 0x5A800000 G13(SelectOp::Csinv) [SF RD RN RM COND];
            0x7FE00C00 0x5A800400 G13(SelectOp::Csneg) [SF RD RN RM COND];
            0x7FE00C10 0x3A400000 G14(CompareOp::Ccmn, false) [SF RN RM NZCV COND];
            0x7FE00C10 0x3A400800 G14(CompareOp::Ccmn, true) [SF RN IMM5 NZCV COND];
            0x7FE00C10 0x7A400000 G14(CompareOp::Ccmp, false) [SF RN RM NZCV COND];
            0x7FE00C10 0x7A400800 G14(CompareOp::Ccmp, true) [SF RN IMM5 NZCV COND];
            0x7FFFFC00 0x5AC00000 G15(OneSourceOp::Rbit) [SF RD RN];
            0x7FFFFC00 0x5AC00400 G15(OneSourceOp::Rev16) [SF RD RN];
            0x7FFFFC00 0x5AC00800 G15(OneSourceOp::Rev32) [SF RD RN];
            0xFFFFFC00 0xDAC00C00 G15(OneSourceOp::Rev64) [RD RN];
            0x7FFFFC00 0x5AC01000 G15(OneSourceOp::Clz) [SF RD RN];
            0x7FFFFC00 0x5AC01400 G15(OneSourceOp::Cls) [SF RD RN];
            0x7FE0FC00 0x1AC00800 G16(TwoSourceOp::Udiv) [SF RD RN RM];
            0x7FE0FC00 0x1AC00C00 G16(TwoSourceOp::Sdiv) [SF RD RN RM];
            0x7FE0FC00 0x1AC02000 G16(TwoSourceOp::Lslv) [SF RD RN RM];
            0x7FE0FC00 0x1AC02400 G16(TwoSourceOp::Lsrv) [SF RD RN RM];
            0x7FE0FC00 0x1AC02800 G16(TwoSourceOp::Asrv) [SF RD RN RM];
            0x7FE0FC00 0x1AC02C00 G16(TwoSourceOp::Rorv) [SF RD RN RM];
            0x7FE08000 0x1B000000 G17(MultiplyOp::Madd) [SF RD RN RM RA];
            0x7FE08000 0x1B008000 G17(MultiplyOp::Msub) [SF RD RN RM RA];
            0xFFE08000 0x9B200000 G17(MultiplyOp::Smaddl) [RD RN RM RA];
            0xFFE08000 0x9B208000 G17(MultiplyOp::Smsubl) [RD RN RM RA];
            0xFFE08000 0x9BA00000 G17(MultiplyOp::Umaddl) [RD RN RM RA];
            0xFFE08000 0x9BA08000 G17(MultiplyOp::Umsubl) [RD RN RM RA];
            0xFFE0FC00 0x9B407C00 G17(MultiplyOp::Smulh) [RD RN RM];
            0xFFE0FC00 0x9BC07C00 G17(MultiplyOp::Umulh) [RD RN RM];
            0x3F000000 0x39000000 G18(AddressForm::Offset) [SIZE OPC RT RN IMM12];
            0x3F200C00 0x38000000 G18(AddressForm::Unscaled) [SIZE OPC RT RN IMM9];
            0x3F200C00 0x38000400 G18(AddressForm::PostIndex) [SIZE OPC RT RN IMM9];
            0x3F200C00 0x38000C00 G18(AddressForm::PreIndex) [SIZE OPC RT RN IMM9];
            0x3F200C00 0x38200800 G18(AddressForm::Register) [SIZE OPC RT RN RM OPTION SCALED];
            0xFF000000 0x18000000 G19(LoadLiteralOp::Word) [RT IMM19];
            0xFF000000 0x58000000 G19(LoadLiteralOp::Doubleword) [RT IMM19];
            0xFF000000 0x98000000 G19(LoadLiteralOp::SignedWord) [RT IMM19];
            0xFFC00000 0x28800000 G20(PairOp::Stp, false, PairIndex::PostIndex) [RT RT2 RN IMM7];
            0xFFC00000 0x29000000 G20(PairOp::Stp, false, PairIndex::Offset) [RT RT2 RN IMM7];
            0xFFC00000 0x29800000 G20(PairOp::Stp, false, PairIndex::PreIndex) [RT RT2 RN IMM7];
            0xFFC00000 0x28C00000 G20(PairOp::Ldp, false, PairIndex::PostIndex) [RT RT2 RN IMM7];
            0xFFC00000 0x29400000 G20(PairOp::Ldp, false, PairIndex::Offset) [RT RT2 RN IMM7];
            0xFFC00000 0x29C00000 G20(PairOp::Ldp, false, PairIndex::PreIndex) [RT RT2 RN IMM7];
            0xFFC00000 0xA8800000 G20(PairOp::Stp, true, PairIndex::PostIndex) [RT RT2 RN IMM7];
            0xFFC00000 0xA9000000 G20(PairOp::Stp, true, PairIndex::Offset) [RT RT2 RN IMM7];
            0xFFC00000 0xA9800000 G20(PairOp::Stp, true, PairIndex::PreIndex) [RT RT2 RN IMM7];
            0xFFC00000 0xA8C00000 G20(PairOp::Ldp, true, PairIndex::PostIndex) [RT RT2 RN IMM7];
            0xFFC00000 0xA9400000 G20(PairOp::Ldp, true, PairIndex::Offset) [RT RT2 RN IMM7];
            0xFFC00000 0xA9C00000 G20(PairOp::Ldp, true, PairIndex::PreIndex) [RT RT2 RN IMM7];
            0x3FFFFC00 0x08DFFC00 G21(AtomicForm::Ldar) [SIZE RT RN];
            0x3FFFFC00 0x089FFC00 G21(AtomicForm::Stlr) [SIZE RT RN];
            0x3FA07C00 0x08A07C00 G21(AtomicForm::Cas) [SIZE CAS_ACQUIRE CAS_RELEASE RS RT RN];
            0x3F20FC00 0x38200000 G21(AtomicForm::Update(AtomicOp::Add)) [SIZE ACQUIRE RELEASE RS RT RN];
            0x3F20FC00 0x38201000 G21(AtomicForm::Update(AtomicOp::Clear)) [SIZE ACQUIRE RELEASE RS RT RN];
            0x3F20FC00 0x38202000 G21(AtomicForm::Update(AtomicOp::Eor)) [SIZE ACQUIRE RELEASE RS RT RN];
            0x3F20FC00 0x38203000 G21(AtomicForm::Update(AtomicOp::Set)) [SIZE ACQUIRE RELEASE RS RT RN];
            0x3F20FC00 0x38204000 G21(AtomicForm::Update(AtomicOp::Smax)) [SIZE ACQUIRE RELEASE RS RT RN];
            0x3F20FC00 0x38205000 G21(AtomicForm::Update(AtomicOp::Smin)) [SIZE ACQUIRE RELEASE RS RT RN];
            0x3F20FC00 0x38206000 G21(AtomicForm::Update(AtomicOp::Umax)) [SIZE ACQUIRE RELEASE RS RT RN];
            0x3F20FC00 0x38207000 G21(AtomicForm::Update(AtomicOp::Umin)) [SIZE ACQUIRE RELEASE RS RT RN];
            0x3F20FC00 0x38208000 G21(AtomicForm::Swap) [SIZE ACQUIRE RELEASE RS RT RN];
            0xFFE0001F 0xD4000001 G22(SystemOp::Svc) [IMM16];
            0xFFE0001F 0xD4200000 G22(SystemOp::Brk) [IMM16];
            0xFFFF0000 0x00000000 G22(SystemOp::Udf) [UDF_IMM16];
            0xFFFFF01F 0xD503201F G22(SystemOp::Hint) [HINT];
            0xFFFFF0FF 0xD50330BF G22(SystemOp::Dmb) [CRM];
            0xFFFFF0FF 0xD503309F G22(SystemOp::Dsb) [CRM];
            0xFFFFF0FF 0xD50330DF G22(SystemOp::Isb) [CRM];
            0xFFFFFFE0 0xD53B4200 G23(SystemMoveOp::Mrs, SystemRegister::Nzcv) [RT];
            0xFFFFFFE0 0xD53BD040 G23(SystemMoveOp::Mrs, SystemRegister::TpidrEl0) [RT];
            0xFFFFFFE0 0xD53BD0A0 G23(SystemMoveOp::Mrs, SystemRegister::Tpidr2El0) [RT];
            0xFFFFFFE0 0xD53B4240 G23(SystemMoveOp::Mrs, SystemRegister::Svcr) [RT];
            0xFFFFFFE0 0xD51B4200 G23(SystemMoveOp::Msr, SystemRegister::Nzcv) [RT];
            0xFFFFFFE0 0xD51BD040 G23(SystemMoveOp::Msr, SystemRegister::TpidrEl0) [RT];
            0xFFFFFFE0 0xD51BD0A0 G23(SystemMoveOp::Msr, SystemRegister::Tpidr2El0) [RT];
            0xFFFFFFE0 0xD51B4240 G23(SystemMoveOp::Msr, SystemRegister::Svcr) [RT];
        }
    };
}

macro_rules! rows {
    ($($mask:literal $value:literal $group:ident($($op:tt)*) [$($field:ident)*];)*) => {
        [$(Row { mask: $mask, value: $value, group: Group::$group }),*]
    };
}

// Eight fields: those that are listed, and none.
macro_rules! eight {
    ($a:ident $b:ident $c:ident $d:ident $e:ident $f:ident $g:ident $h:ident) => {
        Fields { a: $a, b: $b, c: $c, d: $d, e: $e, f: $f, g: $g, h: $h }
    };
    ($($field:ident)*) => { eight!($($field)* NONE) };
}

macro_rules! lines {
    ($($mask:literal $value:literal $group:ident($($op:tt)*) [$($field:ident)*];)*) => {
        [$(Line {
            mask: $mask, value: $value, operation: Operation::$group($($op)*), fields: eight!($($field)*)
        }),*]
    };
}

/// The rows of the scalar instructions: mask, value and group.
pub static SCALAR_ROWS: [Row; 126] = table!(rows);

/// The same with their operations and the places of their fields.
pub static SCALAR_LINES: [Line<Operation>; 126] = table!(lines);
