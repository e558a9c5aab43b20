//! The operation of an instruction and the numbers of its row's fields.
#![tactic(auto, unfolding(
// The parts of an instruction, with zeros up to eight numbers.
crate::specs::Parts::parts_of, insn_forms::specs::Forms::padded,
// The numbers that are not those of the instruction.
crate::specs::Parts::number_from, crate::specs::Parts::shift_number, crate::specs::Parts::slice_numbers,
// The parts of shifts, moves and copies.
crate::specs::Parts::shift_parts, crate::specs::Parts::move_parts, crate::specs::Parts::copy_parts,
// Those of permutations, reductions and comparisons.
crate::specs::Parts::permute_parts, crate::specs::Parts::reduction_parts, crate::specs::Parts::compare_parts,
// Those of predicates and counts.
crate::specs::Parts::predicate_parts, crate::specs::Parts::count_parts, crate::specs::Parts::element_parts,
// Those of accesses, SVE2 and ZA.
crate::specs::Parts::access_parts, crate::specs::Parts::sve2_parts, crate::specs::Parts::array_parts,
// Those of the streaming length.
crate::specs::Parts::streaming_parts))]

ghost use Rattle.std.specs.Prelude.{◌≡◌, ◌<◌};
ghost use Rattle.insn_forms.specs.declared.number.Number.TheVariants.{Unsigned};
ghost use Rattle.insn_forms.specs.Forms.{flag_number, unsigned_number};
ghost use Rattle.sve_table.specs.Parts.{access_parts, array_parts, compare_parts, copy_parts, count_parts};
ghost use Rattle.sve_table.specs.Parts.{element_parts, move_parts, number_from, parts_of, permute_parts};
ghost use Rattle.sve_table.specs.Parts.{predicate_parts, reduction_parts, shift_number, shift_parts};
ghost use Rattle.sve_table.specs.Parts.{streaming_parts, sve2_parts};

use crate::operation::{
    AccessForm, ArrayForm, CompareForm, CopyForm, CountForm, ElementForm, PermuteForm,
    PredicateForm, ReductionForm, ShiftSize, StreamingForm, Sve2Form, VectorOperation,
};
use insn_forms::{Number, Parts, count, flag};
use sm_types::{
    ArrayAccess, Elem, ElementCount, IndexPart, Insn, Predicate, PredicateCount,
    PredicateLogicalOp, StreamingLength, Sve2, TileMove, TileSlice, VectorAccess, VectorCompare,
    VectorCopy, VectorOffset, VectorPermute, VectorReduction, VectorShift, VectorShiftOp,
};

const NO: Number = Number::Unsigned(0);

// An operation with eight numbers: those that are listed, and zeros.
macro_rules! says {
    ($group:ident($($op:expr),*); $a:expr, $b:expr, $c:expr, $d:expr, $e:expr, $f:expr, $g:expr, $h:expr) => {
        Some(Parts {
            operation: VectorOperation::$group($($op),*), numbers: [$a, $b, $c, $d, $e, $f, $g, $h]
        })
    };
    ($group:ident($($op:expr),*);) => { says!($group($($op),*); NO) };
    ($group:ident($($op:expr),*); $($number:expr),*) => { says!($group($($op),*); $($number,)* NO) };
}

// What a case says: nothing, or its operation and its numbers.
macro_rules! case {
    (none) => { None };
    ($group:ident($op:expr): $($number:expr),*) => { says!($group($op); $($number),*) };
}

// A line for each case of an instruction.
macro_rules! by_case {
    ($it:expr; $($case:pat => $kind:ident $(($op:expr): $($number:expr),*)?;)*) => {
        match $it { $($case => case!($kind $(($op): $($number),*)?),)* }
    };
}

/// The operation of an instruction, and the numbers of its row's fields in the order of the row; `None` for
/// the scalar instructions, and for vector instructions that no row has.
pub fn parts_of(insn: &Insn) -> Option<Parts<VectorOperation>>
    ensures { result ≡ parts_of insn.now }
{
    match insn {
        Insn::VectorArithmetic(x) =>
            says!(G24(x.op); count(x.size as u8), count(x.zd), count(x.zn), count(x.zm)),
        Insn::VectorLogical(x) => says!(G25(x.op); count(x.zd), count(x.zn), count(x.zm)),
        Insn::PredicatedBinary(x) =>
            says!(G26(x.op); count(x.size as u8), count(x.zdn), count(x.pg), count(x.zm)),
        Insn::MultiplyAdd(x) =>
            says!(G27(x.op); count(x.size as u8), count(x.zda), count(x.pg), count(x.zn), count(x.zm)),
        Insn::PredicatedUnary(x) =>
            says!(G28(x.op); count(x.size as u8), count(x.zd), count(x.pg), count(x.zn)),
        Insn::VectorShift(x) => shift_parts(x, x.size),
        Insn::VectorCopy(x) => copy_parts(x),
        Insn::VectorPermute(x) => permute_parts(x),
        Insn::VectorReduction(x) => reduction_parts(x),
        Insn::VectorCompare(x) => compare_parts(x),
        Insn::Predicate(x) => predicate_parts(x),
        Insn::PredicateCount(x) => count_parts(x),
        Insn::ElementCount(x) => element_parts(x),
        Insn::VectorAccess(x) => access_parts(x),
        Insn::Sve2(x) => sve2_parts(x),
        Insn::Mode(x) => says!(G39(x.start, x.part);),
        Insn::ArrayAccess(x) => array_parts(x),
        Insn::TileAccess(x) => {
            let (tile, vertical, rv, offset) = slice_numbers(&x.slice);
            says!(G41(x.store, x.slice.size);
                tile, vertical, rv, offset, count(x.pg), count(x.rn), count(x.rm))
        }
        Insn::TileMove(x) => move_parts(x),
        Insn::TileAdd(x) =>
            says!(G43(x.vertical, x.wide); count(x.tile), count(x.pn), count(x.pm), count(x.zn)),
        Insn::OuterProduct(x) => says!(G44(x.op, x.wide);
                flag(x.subtract), count(x.tile), count(x.pn), count(x.pm), count(x.zn), count(x.zm)),
        Insn::StreamingLength(x) => streaming_parts(x),
        _ => None,
    }
}

/// The number in a field of so many bits that counts from `least` on; below it, one that the field cannot
/// have.
fn number_from(least: u8, bits: u32, it: u8) -> Number
    requires { bits < 8 }
    ensures { result ≡ Unsigned (number_from least bits it) }
{
    Number::Unsigned(if least <= it {
        u32::from(it - least)
    } else {
        1 << bits
    })
}

/// The number of a shift's amount.
fn shift_number(op: VectorShiftOp, width: u8, amount: u8) -> Number
    ensures { result ≡ Unsigned (shift_number op width amount) }
{
    let number = match op {
        VectorShiftOp::Lsl => amount,
        VectorShiftOp::Asr | VectorShiftOp::Lsr => if amount <= width {
            width - amount
        } else {
            width
        },
    };
    Number::Unsigned(u32::from(number))
}

/// The same of a shift, by its elements.
fn shift_parts(x: &VectorShift, size: Elem) -> Option<Parts<VectorOperation>>
    ensures { result ≡ shift_parts x.now size }
{
    let zd = count(x.zd);
    let zn = count(x.zn);
    match size {
        Elem::B => says!(G29(x.op, ShiftSize::B); zd, zn, shift_number(x.op, 8, x.amount)),
        Elem::H => says!(G29(x.op, ShiftSize::H); zd, zn, shift_number(x.op, 16, x.amount)),
        Elem::S => says!(G29(x.op, ShiftSize::S); zd, zn, shift_number(x.op, 32, x.amount)),
        Elem::D => says!(G29(x.op, ShiftSize::D); zd, zn, shift_number(x.op, 64, x.amount)),
        Elem::Q => None,
    }
}

/// The same of a move of a slice.
fn move_parts(x: &TileMove) -> Option<Parts<VectorOperation>>
    ensures { result ≡ move_parts x.now x.now.to_tile }
{
    let (tile, vertical, rv, offset) = slice_numbers(&x.slice);
    if x.to_tile {
        says!(G42(true, x.slice.size); tile, vertical, rv, offset, count(x.pg), count(x.z))
    } else {
        says!(G42(false, x.slice.size); count(x.z), count(x.pg), tile, vertical, rv, offset)
    }
}

/// The numbers of a slice.
fn slice_numbers(x: &TileSlice) -> (Number, Number, Number, Number)
    ensures tile { result.0 ≡ unsigned_number x.now.tile }
    ensures vertical { result.1 ≡ flag_number x.now.vertical }
    ensures register { result.2 ≡ unsigned_number (number_from 12 2 x.now.rv) }
    ensures offset { result.3 ≡ unsigned_number x.now.offset }
{
    (
        count(x.tile),
        flag(x.vertical),
        number_from(12, 2, x.rv),
        count(x.offset),
    )
}

/// The same of a copy, or an operation with an immediate.
fn copy_parts(insn: &VectorCopy) -> Option<Parts<VectorOperation>>
    ensures { result ≡ copy_parts insn.now }
{
    by_case!(*insn;
        VectorCopy::Register { size, rn, zd } =>
            G30(CopyForm::Register): count(size as u8), count(zd), count(rn);
        VectorCopy::PredicatedRegister { size, pg, rn, zd } =>
            G30(CopyForm::PredicatedRegister): count(size as u8), count(zd), count(pg), count(rn);
        VectorCopy::Immediate { size, shifted, imm, zd } =>
            G30(CopyForm::Immediate): count(size as u8), count(zd), Number::Signed(imm), flag(shifted);
        VectorCopy::PredicatedImmediate { size, pg, merging, shifted, imm, zd } =>
            G30(CopyForm::PredicatedImmediate): count(size as u8), count(zd), count(pg), flag(merging),
                Number::Signed(imm), flag(shifted);
        VectorCopy::Index {
            size, start: IndexPart::Immediate(start), step: IndexPart::Immediate(step), zd
        } =>
            G30(CopyForm::Index(false, false)): count(size as u8), count(zd), Number::Signed(start),
                Number::Signed(step);
        VectorCopy::Index { size, start: IndexPart::Register(start), step: IndexPart::Immediate(step), zd } =>
            G30(CopyForm::Index(true, false)): count(size as u8), count(zd), count(start),
                Number::Signed(step);
        VectorCopy::Index { size, start: IndexPart::Immediate(start), step: IndexPart::Register(step), zd } =>
            G30(CopyForm::Index(false, true)): count(size as u8), count(zd), Number::Signed(start),
                count(step);
        VectorCopy::Index { size, start: IndexPart::Register(start), step: IndexPart::Register(step), zd } =>
            G30(CopyForm::Index(true, true)): count(size as u8), count(zd), count(start), count(step);
        VectorCopy::AddImmediate { op, size, shifted, imm, zdn } =>
            G30(CopyForm::AddImmediate(op)): count(size as u8), count(zdn), count(imm), flag(shifted);
        VectorCopy::MultiplyImmediate { size, imm, zdn } =>
            G30(CopyForm::MultiplyImmediate): count(size as u8), count(zdn), Number::Signed(imm);
        VectorCopy::Select { size, zm, pg, zn, zd } =>
            G30(CopyForm::Select): count(size as u8), count(zd), count(pg), count(zn), count(zm);
        VectorCopy::Prefix { zn, zd } => G30(CopyForm::Prefix): count(zd), count(zn);
    )
}

/// The same of a permutation.
fn permute_parts(insn: &VectorPermute) -> Option<Parts<VectorOperation>>
    ensures { result ≡ permute_parts insn.now }
{
    by_case!(*insn;
        VectorPermute::Interleave { op, size, zm, zn, zd } =>
            G31(PermuteForm::Interleave(op)): count(size as u8), count(zd), count(zn), count(zm);
        VectorPermute::Reverse { size, zn, zd } =>
            G31(PermuteForm::Reverse): count(size as u8), count(zd), count(zn);
        VectorPermute::Table { size, zm, zn, zd } =>
            G31(PermuteForm::Table): count(size as u8), count(zd), count(zn), count(zm);
        VectorPermute::Extract { amount, zm, zdn } =>
            G31(PermuteForm::Extract): count(zdn), count(zm), count(amount);
        VectorPermute::Unpack { signed, high, size, zn, zd } =>
            G31(PermuteForm::Unpack(signed, high)): count(size as u8), count(zd), count(zn);
    )
}

/// The same of a reduction.
fn reduction_parts(insn: &VectorReduction) -> Option<Parts<VectorOperation>>
    ensures { result ≡ reduction_parts insn.now }
{
    by_case!(*insn;
        VectorReduction::Last { active, size, pg, zn, rd } =>
            G32(ReductionForm::Last(active)): count(size as u8), count(rd), count(pg), count(zn);
        VectorReduction::Reduce { op, size, pg, zn, vd } =>
            G32(ReductionForm::Reduce(op)): count(size as u8), count(vd), count(pg), count(zn);
    )
}

/// The same of a comparison.
fn compare_parts(insn: &VectorCompare) -> Option<Parts<VectorOperation>>
    ensures { result ≡ compare_parts insn.now }
{
    by_case!(*insn;
        VectorCompare::Vectors { op, size, zm, pg, zn, pd } =>
            G33(CompareForm::Vectors(op)): count(size as u8), count(pd), count(pg), count(zn), count(zm);
        VectorCompare::Immediate { op, size, imm, pg, zn, pd } =>
            G33(CompareForm::Immediate(op)): count(size as u8), count(pd), count(pg), count(zn),
                Number::Signed(imm);
    )
}

/// The same of an operation on predicates; `None` for a selection that sets flags.
fn predicate_parts(insn: &Predicate) -> Option<Parts<VectorOperation>>
    ensures { result ≡ predicate_parts insn.now }
{
    by_case!(*insn;
        Predicate::True { size, pattern, pd } =>
            G34(PredicateForm::True): count(size as u8), count(pd), count(pattern);
        Predicate::False { pd } => G34(PredicateForm::False): count(pd);
        Predicate::Test { pg, pn } => G34(PredicateForm::Test): count(pg), count(pn);
        Predicate::Logical { op: PredicateLogicalOp::Sel, flags: false, pm, pg, pn, pd } =>
            G34(PredicateForm::Logical(PredicateLogicalOp::Sel)): count(pd), count(pg), count(pn), count(pm);
        Predicate::Logical { op: PredicateLogicalOp::Sel, flags: true, .. } => none;
        Predicate::Logical { op, flags, pm, pg, pn, pd } =>
            G34(PredicateForm::Logical(op)): flag(flags), count(pd), count(pg), count(pn), count(pm);
    )
}

/// The same of a predicate of a loop, a number of active elements or an access to the first-fault register.
fn count_parts(insn: &PredicateCount) -> Option<Parts<VectorOperation>>
    ensures { result ≡ count_parts insn.now }
{
    by_case!(*insn;
        PredicateCount::While { signed, wide, size, rm, rn, pd } =>
            G35(CountForm::While(signed)): flag(wide), count(size as u8), count(pd), count(rn), count(rm);
        PredicateCount::Active { size, pg, pn, rd } =>
            G35(CountForm::Active): count(size as u8), count(rd), count(pg), count(pn);
        PredicateCount::SetFfr => G35(CountForm::SetFfr):;
        PredicateCount::ReadFfr { pd } => G35(CountForm::ReadFfr): count(pd);
        PredicateCount::WriteFfr { pn } => G35(CountForm::WriteFfr): count(pn);
    )
}

/// The same of a number of elements.
fn element_parts(insn: &ElementCount) -> Option<Parts<VectorOperation>>
    ensures { result ≡ element_parts insn.now }
{
    by_case!(*insn;
        ElementCount::Count { size, pattern, multiplier, rd } =>
            G36(ElementForm::Count): count(size as u8), count(rd), count(pattern),
                number_from(1, 4, multiplier);
        ElementCount::Change { decrement, size, pattern, multiplier, rd } =>
            G36(ElementForm::Change(decrement)): count(size as u8), count(rd), count(pattern),
                number_from(1, 4, multiplier);
        ElementCount::Length { imm, rd } =>
            G36(ElementForm::Length): count(rd), Number::Signed(imm);
        ElementCount::AddLength { predicate, imm, rn, rd } =>
            G36(ElementForm::AddLength(predicate)): count(rd), count(rn), Number::Signed(imm);
    )
}

/// The same of a load or store; `None` for a store by a register that no row has.
fn access_parts(insn: &VectorAccess) -> Option<Parts<VectorOperation>>
    ensures { result ≡ access_parts insn.now }
{
    by_case!(*insn;
        VectorAccess::Load { kind, offset: VectorOffset::Vectors(offset), pg, rn, zt } =>
            G37(AccessForm::LoadVectors): count(kind as u8), count(zt), count(pg), count(rn),
                Number::Signed(offset);
        VectorAccess::Load { kind, offset: VectorOffset::Register(rm), pg, rn, zt } =>
            G37(AccessForm::LoadRegister): count(kind as u8), count(zt), count(pg), count(rn), count(rm);
        VectorAccess::Store { memory, element, offset: VectorOffset::Vectors(offset), pg, rn, zt } =>
            G37(AccessForm::StoreVectors): count(memory as u8), count(element as u8), count(zt), count(pg),
                count(rn), Number::Signed(offset);
        VectorAccess::Store { memory: Elem::B, element, offset: VectorOffset::Register(rm), pg, rn, zt } =>
            G37(AccessForm::StoreBytes): count(element as u8), count(zt), count(pg), count(rn),
                count(rm);
        VectorAccess::Store { memory: Elem::H, element, offset: VectorOffset::Register(rm), pg, rn, zt } =>
            G37(AccessForm::StoreHalfwords): count(element as u8), count(zt), count(pg), count(rn),
                count(rm);
        VectorAccess::Store { memory: Elem::S, element, offset: VectorOffset::Register(rm), pg, rn, zt } =>
            G37(AccessForm::StoreWords): count(element as u8), count(zt), count(pg), count(rn),
                count(rm);
        VectorAccess::Store {
            memory: Elem::D, element: Elem::D, offset: VectorOffset::Register(rm), pg, rn, zt
        } =>
            G37(AccessForm::StoreDoublewords): count(zt), count(pg), count(rn), count(rm);
        VectorAccess::Store { offset: VectorOffset::Register(_), .. } => none;
        VectorAccess::Vector { store, vectors, rn, zt } =>
            G37(AccessForm::Vector(store)): count(zt), count(rn), Number::Signed(vectors);
        VectorAccess::Predicate { store, vectors, rn, pt } =>
            G37(AccessForm::Predicate(store)): count(pt), count(rn), Number::Signed(vectors);
    )
}

/// The same of an operation of SVE2.
fn sve2_parts(insn: &Sve2) -> Option<Parts<VectorOperation>>
    ensures { result ≡ sve2_parts insn.now }
{
    by_case!(*insn;
        Sve2::Multiply { op, size, zm, zn, zd } =>
            G38(Sve2Form::Multiply(op)): count(size as u8), count(zd), count(zn), count(zm);
        Sve2::Ternary { op, zm, zk, zdn } =>
            G38(Sve2Form::Ternary(op)): count(zdn), count(zm), count(zk);
        Sve2::Widening { op, top, size, zm, zn, zd } =>
            G38(Sve2Form::Widening(op, top)): count(size as u8), count(zd), count(zn), count(zm);
    )
}

/// The same of an operation on whole vectors of ZA.
fn array_parts(insn: &ArrayAccess) -> Option<Parts<VectorOperation>>
    ensures { result ≡ array_parts insn.now }
{
    by_case!(*insn;
        ArrayAccess::Zero { mask } => G40(ArrayForm::Zero): count(mask);
        ArrayAccess::Transfer { store, rv, offset, rn } =>
            G40(ArrayForm::Transfer(store)): number_from(12, 2, rv), count(offset), count(rn);
    )
}

/// The same of an operation by the streaming vector length.
fn streaming_parts(insn: &StreamingLength) -> Option<Parts<VectorOperation>>
    ensures { result ≡ streaming_parts insn.now }
{
    by_case!(*insn;
        StreamingLength::Length { imm, rd } =>
            G45(StreamingForm::Length): count(rd), Number::Signed(imm);
        StreamingLength::AddLength { predicate, imm, rn, rd } =>
            G45(StreamingForm::AddLength(predicate)): count(rd), count(rn), Number::Signed(imm);
    )
}
