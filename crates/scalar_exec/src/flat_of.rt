//! The flat instruction of each instruction.
ghost use Rattle.sm_types.specs.declared.insn.Insn.TheVariants as insn;
ghost use Rattle.scalar_exec.specs.Flat.{IsFlatOf};

use crate::flat::Flat;
use crate::payloads::{
    Base, BitFields, Extended, Factors, Halfword, Immediate, LeftShifted, OffsetAccess, Registers,
    Selection, Shifted,
};
use sm_types::{
    AccessSize, AddSub, AddSubExtended, AddSubImmediate, AddSubRegister, Address, BitfieldMove,
    BitfieldOp, Branch, BranchRegister, BranchRegisterOp, Condition, ConditionalSelect,
    ExtendedRegister, Insn, LoadStore, LoadStoreOp, LoadStorePair, Logical, LogicalImmediate,
    LogicalRegister, MoveOp, MoveWide, Multiply, PairOp, PcRelative, PcRelativeOp, SelectOp,
    ShiftKind, ShiftedRegister, TwoSource, TwoSourceOp,
};

/// A sum with an immediate.
fn flat_sum_immediate(x: &AddSubImmediate) -> Flat
    ensures { IsFlatOf result (insn.AddSubImmediate x.now) }
{
    let AddSubImmediate {
        op,
        wide,
        shifted,
        imm,
        rn,
        rd,
    } = *x;
    let fields = Immediate { imm, rn, rd };
    match (op, wide, shifted) {
        (AddSub::Add, true, false) => Flat::AddImmediate(fields),
        (AddSub::Sub, true, false) => Flat::SubImmediate(fields),
        (AddSub::Adds, true, false) => Flat::AddsImmediate(fields),
        (AddSub::Subs, true, false) => Flat::SubsImmediate(fields),
        (AddSub::Add, false, false) => Flat::NarrowAddImmediate(fields),
        (AddSub::Sub, false, false) => Flat::NarrowSubImmediate(fields),
        (AddSub::Adds, false, false) => Flat::NarrowAddsImmediate(fields),
        (AddSub::Subs, false, false) => Flat::NarrowSubsImmediate(fields),
        _ => Flat::Scalar,
    }
}

/// A sum of two registers.
fn flat_sum_register(x: &AddSubRegister) -> Flat
    ensures { IsFlatOf result (insn.AddSubRegister x.now) }
{
    let AddSubRegister {
        op,
        wide,
        operand,
        rn,
        rd,
    } = *x;
    let ShiftedRegister { rm, shift, amount } = operand;
    let fields = Registers { rm, rn, rd };
    let shifted = LeftShifted { amount, rm, rn, rd };
    match (op, wide, shift, amount) {
        (AddSub::Add, true, ShiftKind::Lsl, 0) => Flat::Add(fields),
        (AddSub::Sub, true, ShiftKind::Lsl, 0) => Flat::Sub(fields),
        (AddSub::Adds, true, ShiftKind::Lsl, 0) => Flat::Adds(fields),
        (AddSub::Subs, true, ShiftKind::Lsl, 0) => Flat::Subs(fields),
        (AddSub::Add, false, ShiftKind::Lsl, 0) => Flat::NarrowAdd(fields),
        (AddSub::Sub, false, ShiftKind::Lsl, 0) => Flat::NarrowSub(fields),
        (AddSub::Adds, false, ShiftKind::Lsl, 0) => Flat::NarrowAdds(fields),
        (AddSub::Subs, false, ShiftKind::Lsl, 0) => Flat::NarrowSubs(fields),
        (AddSub::Add, true, ShiftKind::Lsl, _) => Flat::AddShifted(shifted),
        (AddSub::Sub, true, ShiftKind::Lsl, _) => Flat::SubShifted(shifted),
        _ => Flat::Scalar,
    }
}

/// A sum with an extended register.
fn flat_sum_extended(x: &AddSubExtended) -> Flat
    ensures { IsFlatOf result (insn.AddSubExtended x.now) }
{
    let AddSubExtended {
        op,
        wide,
        operand,
        rn,
        rd,
    } = *x;
    let ExtendedRegister { rm, extend, amount } = operand;
    let fields = Extended {
        extend,
        amount,
        rm,
        rn,
        rd,
    };
    match (op, wide) {
        (AddSub::Add, true) => Flat::AddExtended(fields),
        _ => Flat::Scalar,
    }
}

/// A logical operation on two registers.
fn flat_logical(x: &LogicalRegister) -> Flat
    ensures { IsFlatOf result (insn.LogicalRegister x.now) }
{
    let LogicalRegister {
        op,
        wide,
        inverted,
        operand,
        rn,
        rd,
    } = *x;
    let ShiftedRegister { rm, shift, amount } = operand;
    let fields = Registers { rm, rn, rd };
    let shifted = Shifted {
        shift,
        amount,
        rm,
        rn,
        rd,
    };
    match (op, wide, inverted, shift, amount) {
        (Logical::And, true, false, ShiftKind::Lsl, 0) => Flat::And(fields),
        (Logical::Orr, true, false, ShiftKind::Lsl, 0) => Flat::Orr(fields),
        (Logical::Eor, true, false, ShiftKind::Lsl, 0) => Flat::Eor(fields),
        (Logical::Ands, true, false, ShiftKind::Lsl, 0) => Flat::Ands(fields),
        (Logical::And, false, false, ShiftKind::Lsl, 0) => Flat::NarrowAnd(fields),
        (Logical::Orr, false, false, ShiftKind::Lsl, 0) => Flat::NarrowOrr(fields),
        (Logical::Eor, false, false, ShiftKind::Lsl, 0) => Flat::NarrowEor(fields),
        (Logical::Ands, false, false, ShiftKind::Lsl, 0) => Flat::NarrowAnds(fields),
        (Logical::And, true, true, ShiftKind::Lsl, 0) => Flat::Bic(fields),
        (Logical::Orr, true, true, ShiftKind::Lsl, 0) => Flat::Orn(fields),
        (Logical::And, true, false, _, _) => Flat::AndShifted(shifted),
        (Logical::Orr, true, false, _, _) => Flat::OrrShifted(shifted),
        (Logical::Eor, true, false, _, _) => Flat::EorShifted(shifted),
        _ => Flat::Scalar,
    }
}

/// A logical operation with a mask.
fn flat_mask(x: &LogicalImmediate) -> Flat
    ensures { IsFlatOf result (insn.LogicalImmediate x.now) }
{
    let LogicalImmediate {
        op,
        wide,
        n,
        immr,
        imms,
        rn,
        rd,
    } = *x;
    let fields = BitFields { immr, imms, rn, rd };
    match (op, wide, n) {
        (Logical::And, true, true) => Flat::AndMask(fields),
        (Logical::Orr, true, true) => Flat::OrrMask(fields),
        (Logical::Eor, true, true) => Flat::EorMask(fields),
        (Logical::Ands, true, true) => Flat::AndsMask(fields),
        (Logical::And, false, false) => Flat::NarrowAndMask(fields),
        (Logical::Orr, false, false) => Flat::NarrowOrrMask(fields),
        (Logical::Eor, false, false) => Flat::NarrowEorMask(fields),
        (Logical::Ands, false, false) => Flat::NarrowAndsMask(fields),
        _ => Flat::Scalar,
    }
}

/// A move of a halfword.
fn flat_halfword(x: &MoveWide) -> Flat
    ensures { IsFlatOf result (insn.MoveWide x.now) }
{
    let MoveWide {
        op,
        wide,
        hw,
        imm,
        rd,
    } = *x;
    let fields = Halfword { hw, rd, imm };
    match (op, wide) {
        (MoveOp::Movz, true) => Flat::Movz(fields),
        (MoveOp::Movn, true) => Flat::Movn(fields),
        (MoveOp::Movk, true) => Flat::Movk(fields),
        (MoveOp::Movz, false) => Flat::NarrowMovz(fields),
        (MoveOp::Movn, false) => Flat::NarrowMovn(fields),
        (MoveOp::Movk, false) => Flat::NarrowMovk(fields),
    }
}

/// A move of a bit field.
fn flat_field(x: &BitfieldMove) -> Flat
    ensures { IsFlatOf result (insn.BitfieldMove x.now) }
{
    let BitfieldMove {
        op,
        wide,
        immr,
        imms,
        rn,
        rd,
    } = *x;
    let fields = BitFields { immr, imms, rn, rd };
    match (op, wide) {
        (BitfieldOp::Ubfm, true) => Flat::Ubfm(fields),
        (BitfieldOp::Sbfm, true) => Flat::Sbfm(fields),
        (BitfieldOp::Ubfm, false) => Flat::NarrowUbfm(fields),
        (BitfieldOp::Sbfm, false) => Flat::NarrowSbfm(fields),
        _ => Flat::Scalar,
    }
}

/// A selection by a condition.
fn flat_select(x: &ConditionalSelect) -> Flat
    ensures { IsFlatOf result (insn.ConditionalSelect x.now) }
{
    let ConditionalSelect {
        op,
        wide,
        condition,
        rm,
        rn,
        rd,
    } = *x;
    let fields = Selection {
        condition,
        rm,
        rn,
        rd,
    };
    match (op, wide) {
        (SelectOp::Csel, true) => Flat::Csel(fields),
        (SelectOp::Csinc, true) => Flat::Csinc(fields),
        (SelectOp::Csinv, true) => Flat::Csinv(fields),
        (SelectOp::Csneg, true) => Flat::Csneg(fields),
        (SelectOp::Csel, false) => Flat::NarrowCsel(fields),
        (SelectOp::Csinc, false) => Flat::NarrowCsinc(fields),
        (SelectOp::Csinv, false) => Flat::NarrowCsinv(fields),
        (SelectOp::Csneg, false) => Flat::NarrowCsneg(fields),
    }
}

/// A quotient, or a shift by a register.
fn flat_two_sources(x: &TwoSource) -> Flat
    ensures { IsFlatOf result (insn.TwoSource x.now) }
{
    let TwoSource {
        op,
        wide,
        rm,
        rn,
        rd,
    } = *x;
    let fields = Registers { rm, rn, rd };
    match (op, wide) {
        (TwoSourceOp::Udiv, true) => Flat::Udiv(fields),
        (TwoSourceOp::Sdiv, true) => Flat::Sdiv(fields),
        (TwoSourceOp::Lslv, true) => Flat::Lslv(fields),
        (TwoSourceOp::Lsrv, true) => Flat::Lsrv(fields),
        (TwoSourceOp::Asrv, true) => Flat::Asrv(fields),
        (TwoSourceOp::Rorv, true) => Flat::Rorv(fields),
        (TwoSourceOp::Udiv, false) => Flat::NarrowUdiv(fields),
        (TwoSourceOp::Sdiv, false) => Flat::NarrowSdiv(fields),
        (TwoSourceOp::Lslv, false) => Flat::NarrowLslv(fields),
        (TwoSourceOp::Lsrv, false) => Flat::NarrowLsrv(fields),
        (TwoSourceOp::Asrv, false) => Flat::NarrowAsrv(fields),
        (TwoSourceOp::Rorv, false) => Flat::NarrowRorv(fields),
    }
}

/// A product.
fn flat_multiply(x: &Multiply) -> Flat
    ensures { IsFlatOf result (insn.Multiply x.now) }
{
    match *x {
        Multiply::Same {
            subtract: false,
            wide: true,
            rm,
            ra,
            rn,
            rd,
        } => Flat::MultiplyAdd(Factors { rm, ra, rn, rd }),
        Multiply::Same {
            subtract: true,
            wide: true,
            rm,
            ra,
            rn,
            rd,
        } => Flat::MultiplySubtract(Factors { rm, ra, rn, rd }),
        Multiply::Same {
            subtract: false,
            wide: false,
            rm,
            ra,
            rn,
            rd,
        } => Flat::NarrowMultiplyAdd(Factors { rm, ra, rn, rd }),
        Multiply::Same {
            subtract: true,
            wide: false,
            rm,
            ra,
            rn,
            rd,
        } => Flat::NarrowMultiplySubtract(Factors { rm, ra, rn, rd }),
        Multiply::Long {
            subtract: false,
            signed: false,
            rm,
            ra,
            rn,
            rd,
        } => Flat::Umaddl(Factors { rm, ra, rn, rd }),
        Multiply::Long {
            subtract: false,
            signed: true,
            rm,
            ra,
            rn,
            rd,
        } => Flat::Smaddl(Factors { rm, ra, rn, rd }),
        Multiply::High {
            signed: false,
            rm,
            rn,
            rd,
        } => Flat::Umulh(Registers { rm, rn, rd }),
        Multiply::High {
            signed: true,
            rm,
            rn,
            rd,
        } => Flat::Smulh(Registers { rm, rn, rd }),
        _ => Flat::Scalar,
    }
}

/// A branch to an address at a distance.
fn flat_branch(x: &Branch) -> Flat
    ensures { IsFlatOf result (insn.Branch x.now) }
{
    match *x {
        Branch::Unconditional { link: false, words } => Flat::Jump { words },
        Branch::Unconditional { link: true, words } => Flat::Call { words },
        Branch::Conditional {
            condition: Condition::Eq,
            words,
        } => Flat::IfEqual { words },
        Branch::Conditional {
            condition: Condition::Ne,
            words,
        } => Flat::IfUnequal { words },
        Branch::Conditional { condition, words } => Flat::If { condition, words },
        Branch::Compare {
            nonzero: false,
            wide: true,
            words,
            rt,
        } => Flat::IfZero { rt, words },
        Branch::Compare {
            nonzero: true,
            wide: true,
            words,
            rt,
        } => Flat::IfNonzero { rt, words },
        Branch::Compare {
            nonzero: false,
            wide: false,
            words,
            rt,
        } => Flat::NarrowIfZero { rt, words },
        Branch::Compare {
            nonzero: true,
            wide: false,
            words,
            rt,
        } => Flat::NarrowIfNonzero { rt, words },
        Branch::TestBit {
            nonzero: false,
            bit,
            words,
            rt,
        } => Flat::IfClear { bit, rt, words },
        Branch::TestBit {
            nonzero: true,
            bit,
            words,
            rt,
        } => Flat::IfSet { bit, rt, words },
    }
}

/// A branch to the address in a register.
fn flat_branch_to(x: &BranchRegister) -> Flat
    ensures { IsFlatOf result (insn.BranchRegister x.now) }
{
    let BranchRegister { op, rn } = *x;
    match op {
        BranchRegisterOp::Br => Flat::JumpTo { rn },
        BranchRegisterOp::Blr => Flat::CallTo { rn },
        BranchRegisterOp::Ret => Flat::Return { rn },
    }
}

/// An address relative to PC.
fn flat_address(x: &PcRelative) -> Flat
    ensures { IsFlatOf result (insn.PcRelative x.now) }
{
    let PcRelative { op, imm, rd } = *x;
    match op {
        PcRelativeOp::Adr => Flat::Address { rd, imm },
        PcRelativeOp::Adrp => Flat::PageAddress { rd, imm },
    }
}

/// A load or a store of one register.
fn flat_access(x: &LoadStore) -> Flat
    ensures { IsFlatOf result (insn.LoadStore x.now) }
{
    let LoadStore {
        op,
        size,
        address,
        rn,
        rt,
    } = *x;
    match (op, size, address) {
        (LoadStoreOp::Load, AccessSize::Doubleword, Address::Offset { imm }) =>
            Flat::LoadDoubleword(OffsetAccess { imm, rn, rt }),
        (LoadStoreOp::Load, AccessSize::Word, Address::Offset { imm }) => Flat::LoadWord(
            OffsetAccess { imm, rn, rt },
        ),
        (LoadStoreOp::Load, AccessSize::Halfword, Address::Offset { imm }) => Flat::LoadHalfword(
            OffsetAccess { imm, rn, rt },
        ),
        (LoadStoreOp::Load, AccessSize::Byte, Address::Offset { imm }) => Flat::LoadByte(
            OffsetAccess { imm, rn, rt },
        ),
        (LoadStoreOp::LoadSignedTo64, AccessSize::Word, Address::Offset { imm }) =>
            Flat::LoadSignedWord(OffsetAccess { imm, rn, rt }),
        (LoadStoreOp::LoadSignedTo64, AccessSize::Halfword, Address::Offset { imm }) =>
            Flat::LoadSignedHalfword(OffsetAccess { imm, rn, rt }),
        (LoadStoreOp::LoadSignedTo64, AccessSize::Byte, Address::Offset { imm }) =>
            Flat::LoadSignedByte(OffsetAccess { imm, rn, rt }),
        (LoadStoreOp::LoadSignedTo32, AccessSize::Halfword, Address::Offset { imm }) =>
            Flat::NarrowLoadSignedHalfword(OffsetAccess { imm, rn, rt }),
        (LoadStoreOp::LoadSignedTo32, AccessSize::Byte, Address::Offset { imm }) =>
            Flat::NarrowLoadSignedByte(OffsetAccess { imm, rn, rt }),
        (LoadStoreOp::Store, AccessSize::Doubleword, Address::Offset { imm }) =>
            Flat::StoreDoubleword(OffsetAccess { imm, rn, rt }),
        (LoadStoreOp::Store, AccessSize::Word, Address::Offset { imm }) => Flat::StoreWord(
            OffsetAccess { imm, rn, rt },
        ),
        (LoadStoreOp::Store, AccessSize::Halfword, Address::Offset { imm }) => Flat::StoreHalfword(
            OffsetAccess { imm, rn, rt },
        ),
        (LoadStoreOp::Store, AccessSize::Byte, Address::Offset { imm }) => Flat::StoreByte(
            OffsetAccess { imm, rn, rt },
        ),
        (LoadStoreOp::Load, AccessSize::Doubleword, _) => Flat::LoadDoublewordAt(
            Base { rn, rt },
            address,
        ),
        (LoadStoreOp::Load, AccessSize::Word, _) => Flat::LoadWordAt(Base { rn, rt }, address),
        (LoadStoreOp::Load, AccessSize::Halfword, _) => Flat::LoadHalfwordAt(
            Base { rn, rt },
            address,
        ),
        (LoadStoreOp::Load, AccessSize::Byte, _) => Flat::LoadByteAt(Base { rn, rt }, address),
        (LoadStoreOp::Store, AccessSize::Doubleword, _) => Flat::StoreDoublewordAt(
            Base { rn, rt },
            address,
        ),
        (LoadStoreOp::Store, AccessSize::Word, _) => Flat::StoreWordAt(Base { rn, rt }, address),
        (LoadStoreOp::Store, AccessSize::Halfword, _) => Flat::StoreHalfwordAt(
            Base { rn, rt },
            address,
        ),
        (LoadStoreOp::Store, AccessSize::Byte, _) => Flat::StoreByteAt(Base { rn, rt }, address),
        _ => Flat::Load,
    }
}

/// A load or a store of two registers.
fn flat_pair(x: &LoadStorePair) -> Flat
    ensures { IsFlatOf result (insn.LoadStorePair x.now) }
{
    match x.op {
        PairOp::Ldp => Flat::Load,
        PairOp::Stp => Flat::Store,
    }
}

/// The flat one of an instruction.
pub fn flatten(insn: &Insn) -> Flat
    ensures { IsFlatOf result insn.now }
{
    match insn {
        Insn::AddSubImmediate(x) => flat_sum_immediate(x),
        Insn::AddSubRegister(x) => flat_sum_register(x),
        Insn::AddSubExtended(x) => flat_sum_extended(x),
        Insn::LogicalRegister(x) => flat_logical(x),
        Insn::LogicalImmediate(x) => flat_mask(x),
        Insn::MoveWide(x) => flat_halfword(x),
        Insn::BitfieldMove(x) => flat_field(x),
        Insn::ConditionalSelect(x) => flat_select(x),
        Insn::TwoSource(x) => flat_two_sources(x),
        Insn::Multiply(x) => flat_multiply(x),
        Insn::Branch(x) => flat_branch(x),
        Insn::BranchRegister(x) => flat_branch_to(x),
        Insn::PcRelative(x) => flat_address(x),
        Insn::LoadStore(x) => flat_access(x),
        Insn::LoadStorePair(x) => flat_pair(x),
        Insn::LoadLiteral(_) => Flat::Load,
        Insn::ConditionalCompare(_) => Flat::Scalar,
        Insn::Extract(_) => Flat::Scalar,
        Insn::AddSubCarry(_) => Flat::Scalar,
        Insn::OneSource(_) => Flat::Scalar,
        _ => Flat::Other,
    }
}
