//! The operation of an instruction and the numbers of its row's fields.
#![tactic(auto, unfolding(
// The parts of an instruction, with zeros up to eight numbers.
crate::specs::Parts::parts_of, insn_forms::specs::Forms::padded,
// Those of branches and compares.
crate::specs::Parts::branch_parts, crate::specs::Parts::compare_parts, crate::specs::Parts::compare_says,
// Those of operations on one register.
crate::specs::Parts::one_source_parts, crate::specs::Parts::doubleword_parts,
// Those of multiplications, and of atomic accesses and the system.
crate::specs::Parts::multiply_parts, crate::specs::Parts::atomic_parts, crate::specs::Parts::system_parts,
// Those of loads and stores.
crate::specs::Parts::load_store_parts, crate::specs::Parts::load_store_says))]

ghost use Rattle.std.specs.Prelude.{◌≡◌};
ghost use Rattle.insn_forms.specs.declared.number.Number.TheVariants.{Unsigned};
ghost use Rattle.a64_table.specs.Parts.{atomic_parts, branch_parts, compare_parts, doubleword_parts};
ghost use Rattle.a64_table.specs.Parts.{load_store_parts, multiply_parts, one_source_parts};
ghost use Rattle.a64_table.specs.Parts.{parts_of, system_parts};

use crate::operation::{AddressForm, AtomicForm, BranchOp, MultiplyOp, Operation, SystemOp};
use insn_forms::{Number, Parts, count, flag};
use sm_types::{
    Address, Atomic, Branch, CompareOperand, ConditionalCompare, Insn, LoadStore, Multiply,
    OneSource, OneSourceOp, System,
};

const NO: Number = Number::Unsigned(0);

// An operation with eight numbers: those that are listed, and zeros.
macro_rules! says {
    ($group:ident($($op:expr),*); $a:expr, $b:expr, $c:expr, $d:expr, $e:expr, $f:expr, $g:expr, $h:expr) => {
        Some(Parts { operation: Operation::$group($($op),*), numbers: [$a, $b, $c, $d, $e, $f, $g, $h] })
    };
    ($group:ident($($op:expr),*); $($number:expr),*) => { says!($group($($op),*); $($number,)* NO) };
}

// The groups that have no rows here, and then a line for each of the others.
macro_rules! by_group {
    ($insn:expr; none: $($none:ident),*; $($group:ident($x:ident) => $parts:expr,)*) => {
        match $insn { $(Insn::$group($x) => $parts,)* $(Insn::$none(_))|* => None }
    };
}

// A line for each case of an instruction: its operation and its numbers.
macro_rules! by_case {
    ($it:expr; $($case:pat => $group:ident($op:expr): $($number:expr),*;)*) => {
        match $it { $($case => says!($group($op); $($number),*),)* }
    };
}

/// A number of 16 bits.
#[inline(always)]
fn wide_count(it: u16) -> Number
    ensures { result ≡ Unsigned it }
{
    Number::Unsigned(u32::from(it))
}

/// The operation of an instruction, and the numbers of its row's fields in the order of the row; `None` for a
/// doubleword that is reversed at 32 bits, and for a vector instruction.
pub fn parts_of(insn: &Insn) -> Option<Parts<Operation>>
    ensures { result ≡ parts_of insn.now }
{
    by_group!(insn;
        none: VectorArithmetic, VectorLogical, PredicatedBinary, MultiplyAdd, PredicatedUnary, VectorShift,
            VectorCopy, VectorPermute, VectorReduction, VectorCompare, Predicate, PredicateCount,
            ElementCount, VectorAccess, Sve2, Mode, ArrayAccess, TileAccess, TileMove, TileAdd, OuterProduct,
            StreamingLength;
        AddSubImmediate(x) =>
            says!(G1(x.op); flag(x.wide), count(x.rd), count(x.rn), wide_count(x.imm), flag(x.shifted)),
        AddSubRegister(x) => says!(G2(x.op); flag(x.wide), count(x.rd), count(x.rn),
                count(x.operand.rm), count(x.operand.shift as u8), count(x.operand.amount)),
        LogicalRegister(x) => says!(G3(x.op, x.inverted); flag(x.wide), count(x.rd), count(x.rn),
                count(x.operand.rm), count(x.operand.shift as u8), count(x.operand.amount)),
        AddSubExtended(x) => says!(G4(x.op); flag(x.wide), count(x.rd), count(x.rn),
                count(x.operand.rm), count(x.operand.extend as u8), count(x.operand.amount)),
        LogicalImmediate(x) =>
            says!(G5(x.op); flag(x.wide), count(x.rd), count(x.rn), flag(x.n), count(x.immr), count(x.imms)),
        MoveWide(x) => says!(G6(x.op); flag(x.wide), count(x.rd), wide_count(x.imm), count(x.hw)),
        BitfieldMove(x) => says!(G7(x.op, x.wide); count(x.rd), count(x.rn), count(x.immr), count(x.imms)),
        Extract(x) => says!(G8(x.wide); count(x.rd), count(x.rn), count(x.rm), count(x.lsb)),
        PcRelative(x) => says!(G9(x.op); count(x.rd), Number::Signed(x.imm)),
        Branch(x) => branch_parts(x),
        BranchRegister(x) => says!(G11(x.op); count(x.rn)),
        AddSubCarry(x) => says!(G12(x.op); flag(x.wide), count(x.rd), count(x.rn), count(x.rm)),
        ConditionalSelect(x) =>
            says!(G13(x.op); flag(x.wide), count(x.rd), count(x.rn), count(x.rm), count(x.condition as u8)),
        ConditionalCompare(x) => compare_parts(x, x.operand),
        OneSource(x) => one_source_parts(x, x.op),
        TwoSource(x) => says!(G16(x.op); flag(x.wide), count(x.rd), count(x.rn), count(x.rm)),
        Multiply(x) => multiply_parts(x),
        LoadStore(x) => load_store_parts(x, x.address),
        LoadLiteral(x) => says!(G19(x.op); count(x.rt), Number::Signed(x.words)),
        LoadStorePair(x) => says!(G20(x.op, x.wide, x.index);
                count(x.rt), count(x.rt2), count(x.rn), Number::Signed(x.offset)),
        Atomic(x) => atomic_parts(x),
        System(x) => system_parts(x),
        SystemMove(x) => says!(G23(x.op, x.register); count(x.rt)),
    )
}

/// The same of a branch.
fn branch_parts(insn: &Branch) -> Option<Parts<Operation>>
    ensures { result ≡ branch_parts insn.now }
{
    by_case!(*insn;
        Branch::Unconditional { link: false, words } => G10(BranchOp::B): Number::Signed(words);
        Branch::Unconditional { link: true, words } => G10(BranchOp::Bl): Number::Signed(words);
        Branch::Conditional { condition, words } =>
            G10(BranchOp::BCond): count(condition as u8), Number::Signed(words);
        Branch::Compare { nonzero: false, wide, words, rt } =>
            G10(BranchOp::Cbz): flag(wide), count(rt), Number::Signed(words);
        Branch::Compare { nonzero: true, wide, words, rt } =>
            G10(BranchOp::Cbnz): flag(wide), count(rt), Number::Signed(words);
        Branch::TestBit { nonzero: false, bit, words, rt } =>
            G10(BranchOp::Tbz): count(rt), count(bit), Number::Signed(words);
        Branch::TestBit { nonzero: true, bit, words, rt } =>
            G10(BranchOp::Tbnz): count(rt), count(bit), Number::Signed(words);
    )
}

/// The same of a conditional compare, by its second operand.
fn compare_parts(x: &ConditionalCompare, second: CompareOperand) -> Option<Parts<Operation>>
    ensures { result ≡ compare_parts x.now second }
{
    let wide = flag(x.wide);
    let rn = count(x.rn);
    let nzcv = count(x.nzcv);
    let condition = count(x.condition as u8);
    match second {
        CompareOperand::Register(rm) =>
            says!(G14(x.op, false); wide, rn, count(rm), nzcv, condition),
        CompareOperand::Immediate(imm) =>
            says!(G14(x.op, true); wide, rn, count(imm), nzcv, condition),
    }
}

/// The same of an operation on one register.
fn one_source_parts(x: &OneSource, op: OneSourceOp) -> Option<Parts<Operation>>
    ensures { result ≡ one_source_parts x.now op }
{
    match op {
        OneSourceOp::Rev64 => doubleword_parts(x),
        _ => says!(G15(op); flag(x.wide), count(x.rd), count(x.rn)),
    }
}

/// The same of the reversal of a doubleword.
fn doubleword_parts(x: &OneSource) -> Option<Parts<Operation>>
    ensures { result ≡ doubleword_parts x.now x.now.wide }
{
    if x.wide {
        says!(G15(OneSourceOp::Rev64); count(x.rd), count(x.rn))
    } else {
        None
    }
}

/// The same of a multiplication: of one width, long or high, and added or subtracted.
fn multiply_parts(insn: &Multiply) -> Option<Parts<Operation>>
    ensures { result ≡ multiply_parts insn.now }
{
    by_case!(*insn;
        Multiply::Same { subtract: false, wide, rm, ra, rn, rd } =>
            G17(MultiplyOp::Madd): flag(wide), count(rd), count(rn), count(rm), count(ra);
        Multiply::Same { subtract: true, wide, rm, ra, rn, rd } =>
            G17(MultiplyOp::Msub): flag(wide), count(rd), count(rn), count(rm), count(ra);
        Multiply::Long { subtract: false, signed: true, rm, ra, rn, rd } =>
            G17(MultiplyOp::Smaddl): count(rd), count(rn), count(rm), count(ra);
        Multiply::Long { subtract: true, signed: true, rm, ra, rn, rd } =>
            G17(MultiplyOp::Smsubl): count(rd), count(rn), count(rm), count(ra);
        Multiply::Long { subtract: false, signed: false, rm, ra, rn, rd } =>
            G17(MultiplyOp::Umaddl): count(rd), count(rn), count(rm), count(ra);
        Multiply::Long { subtract: true, signed: false, rm, ra, rn, rd } =>
            G17(MultiplyOp::Umsubl): count(rd), count(rn), count(rm), count(ra);
        Multiply::High { signed: true, rm, rn, rd } =>
            G17(MultiplyOp::Smulh): count(rd), count(rn), count(rm);
        Multiply::High { signed: false, rm, rn, rd } =>
            G17(MultiplyOp::Umulh): count(rd), count(rn), count(rm);
    )
}

/// The same of a load or store, by its address.
fn load_store_parts(x: &LoadStore, address: Address) -> Option<Parts<Operation>>
    ensures { result ≡ load_store_parts x.now address }
{
    let size = count(x.size as u8);
    let op = count(x.op as u8);
    let rt = count(x.rt);
    let rn = count(x.rn);
    by_case!(address;
        Address::Offset { imm } => G18(AddressForm::Offset): size, op, rt, rn, wide_count(imm);
        Address::Unscaled { offset } => G18(AddressForm::Unscaled): size, op, rt, rn, Number::Signed(offset);
        Address::PostIndex { offset } =>
            G18(AddressForm::PostIndex): size, op, rt, rn, Number::Signed(offset);
        Address::PreIndex { offset } => G18(AddressForm::PreIndex): size, op, rt, rn, Number::Signed(offset);
        Address::Register { rm, extend, scaled } =>
            G18(AddressForm::Register): size, op, rt, rn, count(rm), count(extend as u8), flag(scaled);
    )
}

/// The same of an ordered or atomic access.
fn atomic_parts(insn: &Atomic) -> Option<Parts<Operation>>
    ensures { result ≡ atomic_parts insn.now }
{
    by_case!(*insn;
        Atomic::Ldar { size, rn, rt } => G21(AtomicForm::Ldar): count(size as u8), count(rt), count(rn);
        Atomic::Stlr { size, rn, rt } => G21(AtomicForm::Stlr): count(size as u8), count(rt), count(rn);
        Atomic::Cas { size, acquire, release, rs, rn, rt } =>
            G21(AtomicForm::Cas): count(size as u8), flag(acquire), flag(release),
                count(rs), count(rt), count(rn);
        Atomic::Swap { size, acquire, release, rs, rn, rt } =>
            G21(AtomicForm::Swap): count(size as u8), flag(acquire), flag(release),
                count(rs), count(rt), count(rn);
        Atomic::Update { op, size, acquire, release, rs, rn, rt } =>
            G21(AtomicForm::Update(op)): count(size as u8), flag(acquire), flag(release),
                count(rs), count(rt), count(rn);
    )
}

/// The same of an exception, hint or barrier.
fn system_parts(insn: &System) -> Option<Parts<Operation>>
    ensures { result ≡ system_parts insn.now }
{
    by_case!(*insn;
        System::Svc(imm) => G22(SystemOp::Svc): wide_count(imm);
        System::Brk(imm) => G22(SystemOp::Brk): wide_count(imm);
        System::Udf(imm) => G22(SystemOp::Udf): wide_count(imm);
        System::Hint(number) => G22(SystemOp::Hint): count(number);
        System::Dmb(option) => G22(SystemOp::Dmb): count(option);
        System::Dsb(option) => G22(SystemOp::Dsb): count(option);
        System::Isb(option) => G22(SystemOp::Isb): count(option);
    )
}
