//! The rows of the vector instructions.
use crate::fields;
use crate::operation::{
    AccessForm, ArrayForm, CompareForm, CopyForm, CountForm, ElementForm, PermuteForm,
    PredicateForm, ReductionForm, ShiftSize, StreamingForm, Sve2Form, VectorOperation,
};
use insn_forms::{Fields, Line};
use sm_types::{
    AddImmediateOp, CompareImmediateOp, CompareVectorsOp, Elem, Group, InterleaveOp, ModePart,
    MultiplyAddOp, OuterProductOp, PredicateLogicalOp, PredicatedBinaryOp, PredicatedUnaryOp,
    ReductionOp, Row, TernaryLogicalOp, VectorArithmeticOp, VectorLogicalOp, VectorMultiplyOp,
    VectorShiftOp, WideningOp,
};

// The rows: which bits are fixed, their values, the group with its operation, and the fields in the order of
// the operands.
macro_rules! table {
    ($then:ident) => {
        $then! {
            0xFF20FC00 0x04200000 G24(VectorArithmeticOp::Add) [SIZE ZD ZN ZM];
            0xFF20FC00 0x04200400 G24(VectorArithmeticOp::Sub) [SIZE ZD ZN ZM];
            0xFF20FC00 0x04201000 G24(VectorArithmeticOp::Sqadd) [SIZE ZD ZN ZM];
            0xFF20FC00 0x04201400 G24(VectorArithmeticOp::Uqadd) [SIZE ZD ZN ZM];
            0xFF20FC00 0x04201800 G24(VectorArithmeticOp::Sqsub) [SIZE ZD ZN ZM];
            0xFF20FC00 0x04201C00 G24(VectorArithmeticOp::Uqsub) [SIZE ZD ZN ZM];
            0xFFE0FC00 0x04203000 G25(VectorLogicalOp::And) [ZD ZN ZM];
            0xFFE0FC00 0x04603000 G25(VectorLogicalOp::Orr) [ZD ZN ZM];
            0xFFE0FC00 0x04A03000 G25(VectorLogicalOp::Eor) [ZD ZN ZM];
            0xFFE0FC00 0x04E03000 G25(VectorLogicalOp::Bic) [ZD ZN ZM];
            0xFF3FE000 0x04000000 G26(PredicatedBinaryOp::Add) [SIZE ZDN PG ZM_LOW];
            0xFF3FE000 0x04010000 G26(PredicatedBinaryOp::Sub) [SIZE ZDN PG ZM_LOW];
            0xFF3FE000 0x04030000 G26(PredicatedBinaryOp::Subr) [SIZE ZDN PG ZM_LOW];
            0xFF3FE000 0x04080000 G26(PredicatedBinaryOp::Smax) [SIZE ZDN PG ZM_LOW];
            0xFF3FE000 0x04090000 G26(PredicatedBinaryOp::Umax) [SIZE ZDN PG ZM_LOW];
            0xFF3FE000 0x040A0000 G26(PredicatedBinaryOp::Smin) [SIZE ZDN PG ZM_LOW];
            0xFF3FE000 0x040B0000 G26(PredicatedBinaryOp::Umin) [SIZE ZDN PG ZM_LOW];
            0xFF3FE000 0x040C0000 G26(PredicatedBinaryOp::Sabd) [SIZE ZDN PG ZM_LOW];
            0xFF3FE000 0x040D0000 G26(PredicatedBinaryOp::Uabd) [SIZE ZDN PG ZM_LOW];
            0xFF3FE000 0x04100000 G26(PredicatedBinaryOp::Mul) [SIZE ZDN PG ZM_LOW];
            0xFF3FE000 0x04120000 G26(PredicatedBinaryOp::Smulh) [SIZE ZDN PG ZM_LOW];
            0xFF3FE000 0x04130000 G26(PredicatedBinaryOp::Umulh) [SIZE ZDN PG ZM_LOW];
            0xFF3FE000 0x04140000 G26(PredicatedBinaryOp::Sdiv) [SIZE ZDN PG ZM_LOW];
            0xFF3FE000 0x04150000 G26(PredicatedBinaryOp::Udiv) [SIZE ZDN PG ZM_LOW];
            0xFF3FE000 0x04180000 G26(PredicatedBinaryOp::Orr) [SIZE ZDN PG ZM_LOW];
            0xFF3FE000 0x04190000 G26(PredicatedBinaryOp::Eor) [SIZE ZDN PG ZM_LOW];
            0xFF3FE000 0x041A0000 G26(PredicatedBinaryOp::And) [SIZE ZDN PG ZM_LOW];
            0xFF3FE000 0x041B0000 G26(PredicatedBinaryOp::Bic) [SIZE ZDN PG ZM_LOW];
            0xFF3FE000 0x04108000 G26(PredicatedBinaryOp::Asr) [SIZE ZDN PG ZM_LOW];
            0xFF3FE000 0x04118000 G26(PredicatedBinaryOp::Lsr) [SIZE ZDN PG ZM_LOW];
            0xFF3FE000 0x04138000 G26(PredicatedBinaryOp::Lsl) [SIZE ZDN PG ZM_LOW];
            0xFF20E000 0x04004000 G27(MultiplyAddOp::Mla) [SIZE ZDA PG ZN ZM];
            0xFF20E000 0x04006000 G27(MultiplyAddOp::Mls) [SIZE ZDA PG ZN ZM];
            0xFF3FE000 0x0416A000 G28(PredicatedUnaryOp::Abs) [SIZE ZD PG ZN];
            0xFF3FE000 0x0417A000 G28(PredicatedUnaryOp::Neg) [SIZE ZD PG ZN];
            0xFF3FE000 0x0418A000 G28(PredicatedUnaryOp::Cls) [SIZE ZD PG ZN];
            0xFF3FE000 0x0419A000 G28(PredicatedUnaryOp::Clz) [SIZE ZD PG ZN];
            0xFF3FE000 0x041AA000 G28(PredicatedUnaryOp::Cnt) [SIZE ZD PG ZN];
            0xFF3FE000 0x041BA000 G28(PredicatedUnaryOp::Cnot) [SIZE ZD PG ZN];
            0xFF3FE000 0x041EA000 G28(PredicatedUnaryOp::Not) [SIZE ZD PG ZN];
            0xFF3FE000 0x0410A000 G28(PredicatedUnaryOp::Sxtb) [SIZE ZD PG ZN];
            0xFF3FE000 0x0411A000 G28(PredicatedUnaryOp::Uxtb) [SIZE ZD PG ZN];
            0xFF3FE000 0x0412A000 G28(PredicatedUnaryOp::Sxth) [SIZE ZD PG ZN];
            0xFF3FE000 0x0413A000 G28(PredicatedUnaryOp::Uxth) [SIZE ZD PG ZN];
            0xFF3FE000 0x0414A000 G28(PredicatedUnaryOp::Sxtw) [SIZE ZD PG ZN];
            0xFF3FE000 0x0415A000 G28(PredicatedUnaryOp::Uxtw) [SIZE ZD PG ZN];
            0xFFF8FC00 0x04289000 G29(VectorShiftOp::Asr, ShiftSize::B) [ZD ZN AMOUNT_B];
            0xFFF0FC00 0x04309000 G29(VectorShiftOp::Asr, ShiftSize::H) [ZD ZN AMOUNT_H];
            0xFFE0FC00 0x04609000 G29(VectorShiftOp::Asr, ShiftSize::S) [ZD ZN AMOUNT_S];
            0xFFA0FC00 0x04A09000 G29(VectorShiftOp::Asr, ShiftSize::D) [ZD ZN AMOUNT_D];
            0xFFF8FC00 0x04289400 G29(VectorShiftOp::Lsr, ShiftSize::B) [ZD ZN AMOUNT_B];
            0xFFF0FC00 0x04309400 G29(VectorShiftOp::Lsr, ShiftSize::H) [ZD ZN AMOUNT_H];
            0xFFE0FC00 0x04609400 G29(VectorShiftOp::Lsr, ShiftSize::S) [ZD ZN AMOUNT_S];
            0xFFA0FC00 0x04A09400 G29(VectorShiftOp::Lsr, ShiftSize::D) [ZD ZN AMOUNT_D];
            0xFFF8FC00 0x04289C00 G29(VectorShiftOp::Lsl, ShiftSize::B) [ZD ZN AMOUNT_B];
            0xFFF0FC00 0x04309C00 G29(VectorShiftOp::Lsl, ShiftSize::H) [ZD ZN AMOUNT_H];
            0xFFE0FC00 0x04609C00 G29(VectorShiftOp::Lsl, ShiftSize::S) [ZD ZN AMOUNT_S];
            0xFFA0FC00 0x04A09C00 G29(VectorShiftOp::Lsl, ShiftSize::D) [ZD ZN AMOUNT_D];
            0xFF3FFC00 0x05203800 G30(CopyForm::Register) [SIZE ZD RN];
            0xFF3FE000 0x0528A000 G30(CopyForm::PredicatedRegister) [SIZE ZD PG RN];
            0xFF3FC000 0x2538C000 G30(CopyForm::Immediate) [SIZE ZD IMM8 SH];
            0xFF308000 0x05100000 G30(CopyForm::PredicatedImmediate) [SIZE ZD CPY_PG MERGING IMM8 SH];
            0xFF20FC00 0x04204000 G30(CopyForm::Index(false, false)) [SIZE ZD IMM5 IMM5B];
            0xFF20FC00 0x04204400 G30(CopyForm::Index(true, false)) [SIZE ZD RN IMM5B];
            0xFF20FC00 0x04204800 G30(CopyForm::Index(false, true)) [SIZE ZD IMM5 RM];
            0xFF20FC00 0x04204C00 G30(CopyForm::Index(true, true)) [SIZE ZD RN RM];
            0xFF3FC000 0x2520C000 G30(CopyForm::AddImmediate(AddImmediateOp::Add)) [SIZE ZDN IMM8 SH];
            0xFF3FC000 0x2521C000 G30(CopyForm::AddImmediate(AddImmediateOp::Sub)) [SIZE ZDN IMM8 SH];
            0xFF3FC000 0x2523C000 G30(CopyForm::AddImmediate(AddImmediateOp::Subr)) [SIZE ZDN IMM8 SH];
            0xFF3FE000 0x2530C000 G30(CopyForm::MultiplyImmediate) [SIZE ZDN IMM8];
            0xFF20C000 0x0520C000 G30(CopyForm::Select) [SIZE ZD PG4 ZN ZM];
            0xFFFFFC00 0x0420BC00 G30(CopyForm::Prefix) [ZD ZN];
            0xFF20FC00 0x05206000 G31(PermuteForm::Interleave(InterleaveOp::Zip1)) [SIZE ZD ZN ZM];
            0xFF20FC00 0x05206400 G31(PermuteForm::Interleave(InterleaveOp::Zip2)) [SIZE ZD ZN ZM];
            0xFF20FC00 0x05206800 G31(PermuteForm::Interleave(InterleaveOp::Uzp1)) [SIZE ZD ZN ZM];
            0xFF20FC00 0x05206C00 G31(PermuteForm::Interleave(InterleaveOp::Uzp2)) [SIZE ZD ZN ZM];
            0xFF20FC00 0x05207000 G31(PermuteForm::Interleave(InterleaveOp::Trn1)) [SIZE ZD ZN ZM];
            0xFF20FC00 0x05207400 G31(PermuteForm::Interleave(InterleaveOp::Trn2)) [SIZE ZD ZN ZM];
            0xFF3FFC00 0x05383800 G31(PermuteForm::Reverse) [SIZE ZD ZN];
            0xFF20FC00 0x05203000 G31(PermuteForm::Table) [SIZE ZD ZN ZM];
            0xFFE0E000 0x05200000 G31(PermuteForm::Extract) [ZDN ZM_LOW EXT_IMM8];
            0xFF3FFC00 0x05303800 G31(PermuteForm::Unpack(true, false)) [SIZE ZD ZN];
            0xFF3FFC00 0x05313800 G31(PermuteForm::Unpack(true, true)) [SIZE ZD ZN];
            0xFF3FFC00 0x05323800 G31(PermuteForm::Unpack(false, false)) [SIZE ZD ZN];
            0xFF3FFC00 0x05333800 G31(PermuteForm::Unpack(false, true)) [SIZE ZD ZN];
            0xFF3FE000 0x0520A000 G32(ReductionForm::Last(false)) [SIZE RD PG ZN];
            0xFF3FE000 0x0521A000 G32(ReductionForm::Last(true)) [SIZE RD PG ZN];
            0xFF3FE000 0x04002000 G32(ReductionForm::Reduce(ReductionOp::Saddv)) [SIZE VD PG ZN];
            0xFF3FE000 0x04012000 G32(ReductionForm::Reduce(ReductionOp::Uaddv)) [SIZE VD PG ZN];
            0xFF3FE000 0x04082000 G32(ReductionForm::Reduce(ReductionOp::Smaxv)) [SIZE VD PG ZN];
            0xFF3FE000 0x04092000 G32(ReductionForm::Reduce(ReductionOp::Umaxv)) [SIZE VD PG ZN];
            0xFF3FE000 0x040A2000 G32(ReductionForm::Reduce(ReductionOp::Sminv)) [SIZE VD PG ZN];
            0xFF3FE000 0x040B2000 G32(ReductionForm::Reduce(ReductionOp::Uminv)) [SIZE VD PG ZN];
            0xFF3FE000 0x04182000 G32(ReductionForm::Reduce(ReductionOp::Orv)) [SIZE VD PG ZN];
            0xFF3FE000 0x04192000 G32(ReductionForm::Reduce(ReductionOp::Eorv)) [SIZE VD PG ZN];
            0xFF3FE000 0x041A2000 G32(ReductionForm::Reduce(ReductionOp::Andv)) [SIZE VD PG ZN];
            0xFF20E010 0x24000000 G33(CompareForm::Vectors(CompareVectorsOp::Hs)) [SIZE PD PG ZN ZM];
            0xFF20E010 0x24000010 G33(CompareForm::Vectors(CompareVectorsOp::Hi)) [SIZE PD PG ZN ZM];
            0xFF20E010 0x24008000 G33(CompareForm::Vectors(CompareVectorsOp::Ge)) [SIZE PD PG ZN ZM];
            0xFF20E010 0x24008010 G33(CompareForm::Vectors(CompareVectorsOp::Gt)) [SIZE PD PG ZN ZM];
            0xFF20E010 0x2400A000 G33(CompareForm::Vectors(CompareVectorsOp::Eq)) [SIZE PD PG ZN ZM];
            0xFF20E010 0x2400A010 G33(CompareForm::Vectors(CompareVectorsOp::Ne)) [SIZE PD PG ZN ZM];
            0xFF20E010 0x25000000 G33(CompareForm::Immediate(CompareImmediateOp::Ge)) [SIZE PD PG ZN IMM5B];
            0xFF20E010 0x25000010 G33(CompareForm::Immediate(CompareImmediateOp::Gt)) [SIZE PD PG ZN IMM5B];
            0xFF20E010 0x25002000 G33(CompareForm::Immediate(CompareImmediateOp::Lt)) [SIZE PD PG ZN IMM5B];
            0xFF20E010 0x25002010 G33(CompareForm::Immediate(CompareImmediateOp::Le)) [SIZE PD PG ZN IMM5B];
            0xFF20E010 0x25008000 G33(CompareForm::Immediate(CompareImmediateOp::Eq)) [SIZE PD PG ZN IMM5B];
            0xFF20E010 0x25008010 G33(CompareForm::Immediate(CompareImmediateOp::Ne)) [SIZE PD PG ZN IMM5B];
            0xFF3FFC10 0x2518E000 G34(PredicateForm::True) [SIZE PD PATTERN];
            0xFFFFFFF0 0x2518E400 G34(PredicateForm::False) [PD];
            0xFFFFC21F 0x2550C000 G34(PredicateForm::Test) [PG4 PN];
            0xFFB0C210 0x25004000 G34(PredicateForm::Logical(PredicateLogicalOp::And)) [FLAGS PD PG4 PN PM];
            0xFFB0C210 0x25004010 G34(PredicateForm::Logical(PredicateLogicalOp::Bic)) [FLAGS PD PG4 PN PM];
            0xFFB0C210 0x25004200 G34(PredicateForm::Logical(PredicateLogicalOp::Eor)) [FLAGS PD PG4 PN PM];
            0xFFF0C210 0x25004210 G34(PredicateForm::Logical(PredicateLogicalOp::Sel)) [PD PG4 PN PM];
            0xFFB0C210 0x25804000 G34(PredicateForm::Logical(PredicateLogicalOp::Orr)) [FLAGS PD PG4 PN PM];
            0xFFB0C210 0x25804010 G34(PredicateForm::Logical(PredicateLogicalOp::Orn)) [FLAGS PD PG4 PN PM];
            0xFFB0C210 0x25804200 G34(PredicateForm::Logical(PredicateLogicalOp::Nor)) [FLAGS PD PG4 PN PM];
            0xFFB0C210 0x25804210 G34(PredicateForm::Logical(PredicateLogicalOp::Nand)) [FLAGS PD PG4 PN PM];
            0xFF20EC10 0x25200400 G35(CountForm::While(true)) [SF SIZE PD RN RM];
            0xFF20EC10 0x25200C00 G35(CountForm::While(false)) [SF SIZE PD RN RM];
            0xFF3FC200 0x25208000 G35(CountForm::Active) [SIZE RD PG4 PN];
            0xFFFFFFFF 0x252C9000 G35(CountForm::SetFfr) [];
            0xFFFFFFF0 0x2519F000 G35(CountForm::ReadFfr) [PD];
            0xFFFFFE1F 0x25289000 G35(CountForm::WriteFfr) [PN];
            0xFF30FC00 0x0420E000 G36(ElementForm::Count) [SIZE RD PATTERN MULTIPLIER];
            0xFF30FC00 0x0430E000 G36(ElementForm::Change(false)) [SIZE RD PATTERN MULTIPLIER];
            0xFF30FC00 0x0430E400 G36(ElementForm::Change(true)) [SIZE RD PATTERN MULTIPLIER];
            0xFFFFF800 0x04BF5000 G36(ElementForm::Length) [RD IMM6];
            0xFFE0F800 0x04205000 G36(ElementForm::AddLength(false)) [RD RN_HIGH IMM6];
            0xFFE0F800 0x04605000 G36(ElementForm::AddLength(true)) [RD RN_HIGH IMM6];
            0xFE10E000 0xA400A000 G37(AccessForm::LoadVectors) [DTYPE ZT PG RN IMM4];
            0xFE00E000 0xA4004000 G37(AccessForm::LoadRegister) [DTYPE ZT PG RN RM];
            0xFE10E000 0xE400E000 G37(AccessForm::StoreVectors) [MEMORY_SIZE ELEMENT_SIZE ZT PG RN IMM4];
            0xFF80E000 0xE4004000 G37(AccessForm::StoreBytes) [ELEMENT_SIZE ZT PG RN RM];
            0xFF80E000 0xE4804000 G37(AccessForm::StoreHalfwords) [ELEMENT_SIZE ZT PG RN RM];
            0xFF80E000 0xE5004000 G37(AccessForm::StoreWords) [ELEMENT_SIZE ZT PG RN RM];
            0xFFE0E000 0xE5E04000 G37(AccessForm::StoreDoublewords) [ZT PG RN RM];
            0xFFC0E000 0x85804000 G37(AccessForm::Vector(false)) [ZT RN IMM9];
            0xFFC0E000 0xE5804000 G37(AccessForm::Vector(true)) [ZT RN IMM9];
            0xFFC0E010 0x85800000 G37(AccessForm::Predicate(false)) [PT RN IMM9];
            0xFFC0E010 0xE5800000 G37(AccessForm::Predicate(true)) [PT RN IMM9];
            0xFF20FC00 0x04206000 G38(Sve2Form::Multiply(VectorMultiplyOp::Mul)) [SIZE ZD ZN ZM];
            0xFF20FC00 0x04206800 G38(Sve2Form::Multiply(VectorMultiplyOp::Smulh)) [SIZE ZD ZN ZM];
            0xFF20FC00 0x04206C00 G38(Sve2Form::Multiply(VectorMultiplyOp::Umulh)) [SIZE ZD ZN ZM];
            0xFFE0FC00 0x04203800 G38(Sve2Form::Ternary(TernaryLogicalOp::Eor3)) [ZDN ZM ZK];
            0xFFE0FC00 0x04603800 G38(Sve2Form::Ternary(TernaryLogicalOp::Bcax)) [ZDN ZM ZK];
            0xFFE0FC00 0x04203C00 G38(Sve2Form::Ternary(TernaryLogicalOp::Bsl)) [ZDN ZM ZK];
            0xFF20FC00 0x45000000 G38(Sve2Form::Widening(WideningOp::Saddl, false)) [SIZE ZD ZN ZM];
            0xFF20FC00 0x45000400 G38(Sve2Form::Widening(WideningOp::Saddl, true)) [SIZE ZD ZN ZM];
            0xFF20FC00 0x45000800 G38(Sve2Form::Widening(WideningOp::Uaddl, false)) [SIZE ZD ZN ZM];
            0xFF20FC00 0x45000C00 G38(Sve2Form::Widening(WideningOp::Uaddl, true)) [SIZE ZD ZN ZM];
            0xFF20FC00 0x45007000 G38(Sve2Form::Widening(WideningOp::Smull, false)) [SIZE ZD ZN ZM];
            0xFF20FC00 0x45007400 G38(Sve2Form::Widening(WideningOp::Smull, true)) [SIZE ZD ZN ZM];
            0xFF20FC00 0x45007800 G38(Sve2Form::Widening(WideningOp::Umull, false)) [SIZE ZD ZN ZM];
            0xFF20FC00 0x45007C00 G38(Sve2Form::Widening(WideningOp::Umull, true)) [SIZE ZD ZN ZM];
            0xFF20FC00 0x44004000 G38(Sve2Form::Widening(WideningOp::Smlal, false)) [SIZE ZD ZN ZM];
            0xFF20FC00 0x44004400 G38(Sve2Form::Widening(WideningOp::Smlal, true)) [SIZE ZD ZN ZM];
            0xFF20FC00 0x44004800 G38(Sve2Form::Widening(WideningOp::Umlal, false)) [SIZE ZD ZN ZM];
            0xFF20FC00 0x44004C00 G38(Sve2Form::Widening(WideningOp::Umlal, true)) [SIZE ZD ZN ZM];
            0xFFFFFFFF 0xD503437F G39(true, ModePart::Sm) [];
            0xFFFFFFFF 0xD503457F G39(true, ModePart::Za) [];
            0xFFFFFFFF 0xD503477F G39(true, ModePart::Both) [];
            0xFFFFFFFF 0xD503427F G39(false, ModePart::Sm) [];
            0xFFFFFFFF 0xD503447F G39(false, ModePart::Za) [];
            0xFFFFFFFF 0xD503467F G39(false, ModePart::Both) [];
            0xFFFFFF00 0xC0080000 G40(ArrayForm::Zero) [ZERO_MASK];
            0xFFFF9C10 0xE1000000 G40(ArrayForm::Transfer(false)) [RV ARRAY_OFFSET RN];
            0xFFFF9C10 0xE1200000 G40(ArrayForm::Transfer(true)) [RV ARRAY_OFFSET RN];
            0xFFE00010 0xE0000000 G41(false, Elem::B) [TILE_B VERTICAL RV OFFSET_B PG RN RM];
            0xFFE00010 0xE0400000 G41(false, Elem::H) [TILE_H VERTICAL RV OFFSET_H PG RN RM];
            0xFFE00010 0xE0800000 G41(false, Elem::S) [TILE_S VERTICAL RV OFFSET_S PG RN RM];
            0xFFE00010 0xE0C00000 G41(false, Elem::D) [TILE_D VERTICAL RV OFFSET_D PG RN RM];
            0xFFE00010 0xE1C00000 G41(false, Elem::Q) [TILE_Q VERTICAL RV OFFSET_Q PG RN RM];
            0xFFE00010 0xE0200000 G41(true, Elem::B) [TILE_B VERTICAL RV OFFSET_B PG RN RM];
            0xFFE00010 0xE0600000 G41(true, Elem::H) [TILE_H VERTICAL RV OFFSET_H PG RN RM];
            0xFFE00010 0xE0A00000 G41(true, Elem::S) [TILE_S VERTICAL RV OFFSET_S PG RN RM];
            0xFFE00010 0xE0E00000 G41(true, Elem::D) [TILE_D VERTICAL RV OFFSET_D PG RN RM];
            0xFFE00010 0xE1E00000 G41(true, Elem::Q) [TILE_Q VERTICAL RV OFFSET_Q PG RN RM];
            0xFFFF0010 0xC0000000 G42(true, Elem::B) [TILE_B VERTICAL RV OFFSET_B PG ZN];
            0xFFFF0010 0xC0400000 G42(true, Elem::H) [TILE_H VERTICAL RV OFFSET_H PG ZN];
            0xFFFF0010 0xC0800000 G42(true, Elem::S) [TILE_S VERTICAL RV OFFSET_S PG ZN];
            0xFFFF0010 0xC0C00000 G42(true, Elem::D) [TILE_D VERTICAL RV OFFSET_D PG ZN];
            0xFFFF0010 0xC0C10000 G42(true, Elem::Q) [TILE_Q VERTICAL RV OFFSET_Q PG ZN];
            0xFFFF0200 0xC0020000 G42(false, Elem::B) [ZD PG SOURCE_TILE_B VERTICAL RV SOURCE_OFFSET_B];
            0xFFFF0200 0xC0420000 G42(false, Elem::H) [ZD PG SOURCE_TILE_H VERTICAL RV SOURCE_OFFSET_H];
            0xFFFF0200 0xC0820000 G42(false, Elem::S) [ZD PG SOURCE_TILE_S VERTICAL RV SOURCE_OFFSET_S];
            0xFFFF0200 0xC0C20000 G42(false, Elem::D) [ZD PG SOURCE_TILE_D VERTICAL RV SOURCE_OFFSET_D];
            0xFFFF0200 0xC0C30000 G42(false, Elem::Q) [ZD PG SOURCE_TILE_Q VERTICAL RV SOURCE_OFFSET_Q];
            0xFFFF001C 0xC0900000 G43(false, false) [ZADA_S ROW_PN COLUMN_PM ZN];
            0xFFFF001C 0xC0910000 G43(true, false) [ZADA_S ROW_PN COLUMN_PM ZN];
            0xFFFF0018 0xC0D00000 G43(false, true) [ZADA_D ROW_PN COLUMN_PM ZN];
            0xFFFF0018 0xC0D10000 G43(true, true) [ZADA_D ROW_PN COLUMN_PM ZN];
            0xFFE0000C 0xA0800000 G44(OuterProductOp::Smopa, false) [SUBTRACT ZADA_S ROW_PN COLUMN_PM ZN ZM];
            0xFFE0000C 0xA0A00000 G44(OuterProductOp::Sumopa, false) [SUBTRACT ZADA_S ROW_PN COLUMN_PM ZN ZM];
            0xFFE0000C 0xA1800000 G44(OuterProductOp::Usmopa, false) [SUBTRACT ZADA_S ROW_PN COLUMN_PM ZN ZM];
            0xFFE0000C 0xA1A00000 G44(OuterProductOp::Umopa, false) [SUBTRACT ZADA_S ROW_PN COLUMN_PM ZN ZM];
            0xFFE00008 0xA0C00000 G44(OuterProductOp::Smopa, true) [SUBTRACT ZADA_D ROW_PN COLUMN_PM ZN ZM];
            0xFFE00008 0xA0E00000 G44(OuterProductOp::Sumopa, true) [SUBTRACT ZADA_D ROW_PN COLUMN_PM ZN ZM];
            0xFFE00008 0xA1C00000 G44(OuterProductOp::Usmopa, true) [SUBTRACT ZADA_D ROW_PN COLUMN_PM ZN ZM];
            0xFFE00008 0xA1E00000 G44(OuterProductOp::Umopa, true) [SUBTRACT ZADA_D ROW_PN COLUMN_PM ZN ZM];
            0xFFFFF800 0x04BF5800 G45(StreamingForm::Length) [RD IMM6];
            0xFFE0F800 0x04205800 G45(StreamingForm::AddLength(false)) [RD RN_HIGH IMM6];
            0xFFE0F800 0x04605800 G45(StreamingForm::AddLength(true)) [RD RN_HIGH IMM6];
        }
    };
}

macro_rules! rows {
    ($($mask:literal $value:literal $group:ident($($op:tt)*) [$($field:ident)*];)*) => {
        [$(Row { mask: $mask, value: $value, group: Group::$group }),*]
    };
}

// Eight fields: those that are listed, and none.
macro_rules! eight {
    ($a:ident $b:ident $c:ident $d:ident $e:ident $f:ident $g:ident $h:ident) => {
        Fields {
            a: fields::$a, b: fields::$b, c: fields::$c, d: fields::$d,
            e: fields::$e, f: fields::$f, g: fields::$g, h: fields::$h,
        }
    };
    ($($field:ident)*) => { eight!($($field)* NONE) };
}

macro_rules! lines {
    ($($mask:literal $value:literal $group:ident($($op:tt)*) [$($field:ident)*];)*) => {
        [$(Line {
            mask: $mask, value: $value,
            operation: VectorOperation::$group($($op)*), fields: eight!($($field)*)
        }),*]
    };
}

/// The rows of the vector instructions: mask, value and group.
pub static VECTOR_ROWS: [Row; 204] = table!(rows);

/// The same with their operations and the places of their fields.
pub static VECTOR_LINES: [Line<VectorOperation>; 204] = table!(lines);
