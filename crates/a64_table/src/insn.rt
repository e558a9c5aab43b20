//! The instruction of an operation with a word's fields.
#![tactic(auto, unfolding(
// The table and its conditions.
crate::specs::Table::scalar, crate::specs::Conditions::fits_of,
// The fields of a word.
insn_forms::specs::Fields::is_field, insn_forms::specs::Fields::mask_of,
// The instruction of each group, and what its operands are.
crate::specs::Named::named, crate::specs::Named::shifted_register, crate::specs::Named::extended_register,
// Branches, second operands of compares, and the width of operations on one register.
crate::specs::Named::named_branch, crate::specs::Named::compare_operand, crate::specs::Named::is_wide_source,
// Multiplications, and addresses of loads and stores.
crate::specs::Named::named_multiply, crate::specs::Named::named_address,
// Atomic accesses and the system.
crate::specs::Named::named_atomic, crate::specs::Named::named_system))]

ghost use Rattle.std.specs.Prelude.{◌≡◌, Option, Some, None, if◌then◌else◌};
ghost use Rattle.insn_forms.specs.Tables.{given, numbers_in, signed_numbers_in};
ghost use Rattle.a64_table.specs.Named.{compare_operand, extended_register, is_wide_source, long_multiply};
ghost use Rattle.a64_table.specs.Named.{named_address, named_atomic, named_branch, named_multiply};
ghost use Rattle.a64_table.specs.Named.{named_system, same_multiply, shifted_register};
ghost use Rattle.a64_table.specs.Table.{scalar};

use crate::conditions::condition;
use crate::fields::{
    ACQUIRE, BIT, BRANCH_COND, CAS_ACQUIRE, CAS_RELEASE, COND, CRM, HINT, HW, IMM3, IMM5, IMM6,
    IMM7, IMM9, IMM12, IMM14, IMM16, IMM19, IMM21, IMM26, IMMR, IMMS, N, NZCV, OPC, OPTION, RA, RD,
    RELEASE, RM, RN, RS, RT, RT2, SCALED, SF, SH, SHIFT, SIZE, UDF_IMM16,
};
use crate::operation::{AddressForm, AtomicForm, BranchOp, MultiplyOp, Operation, SystemOp};
use crate::values::{access_size_of, condition_of, extend_of, load_store_op_of, shift_of};
use insn_forms::{byte, half, one, signed_number as signed};
use sm_types::{
    AddSubCarry, AddSubExtended, AddSubImmediate, AddSubRegister, Address, Atomic, BitfieldMove,
    Branch, BranchRegister, CompareOperand, ConditionalCompare, ConditionalSelect,
    ExtendedRegister, Extract, Insn, LoadLiteral, LoadStore, LoadStorePair, LogicalImmediate,
    LogicalRegister, MoveWide, Multiply, OneSource, OneSourceOp, PcRelative, ShiftedRegister,
    System, SystemMove, TwoSource,
};

// What is given, and then what is read of the word: how it is kept, and its field.
macro_rules! read {
    ($word:ident $($kind:ident)::+ {
        $($given:ident $(: $value:expr)?),*; $($name:ident: $way:ident $($field:ident)?),*
    }) => {
        $($kind)::+ { $($given $(: $value)?,)* $($name: $way($($field,)? $word)),* }
    };
}

// The instruction of a group: a struct of given and of read fields, or what a function makes.
macro_rules! insn {
    ($word:ident $kind:ident { $($fields:tt)* }) => { Insn::$kind(read!($word $kind { $($fields)* })) };
    ($word:ident $kind:ident ($made:ident $op:ident)) => { Insn::$kind($made($op, $word)) };
}

// One line for each group: its operation, and its instruction where the word meets the operation's condition.
macro_rules! by_group {
    ($operation:ident $word:ident { $($group:ident($($op:ident),*) $kind:ident $fields:tt;)* }) => {
        match $operation {
            $(Operation::$group($($op),*) => when(
                condition(Operation::$group($($op),*), $word), insn!($word $kind $fields)
            ),)*
        }
    };
}

/// The instruction that the operation gives the word; `None` where the word does not meet its condition.
#[inline(always)]
pub fn insn_given(operation: Operation, word: u32) -> Option<Insn>
    ensures { result ≡ given scalar operation word }
{
    by_group!(operation word {
        G1(op) AddSubImmediate {
            op; wide: one SF, shifted: one SH, imm: half IMM12, rn: byte RN, rd: byte RD };
        G2(op) AddSubRegister { op; wide: one SF, operand: shifted_register, rn: byte RN, rd: byte RD };
        G3(op, inverted) LogicalRegister {
            op, inverted; wide: one SF, operand: shifted_register, rn: byte RN, rd: byte RD };
        G4(op) AddSubExtended { op; wide: one SF, operand: extended_register, rn: byte RN, rd: byte RD };
        G5(op) LogicalImmediate {
            op; wide: one SF, n: one N, immr: byte IMMR, imms: byte IMMS, rn: byte RN, rd: byte RD };
        G6(op) MoveWide { op; wide: one SF, hw: byte HW, imm: half IMM16, rd: byte RD };
        G7(op, wide) BitfieldMove { op, wide; immr: byte IMMR, imms: byte IMMS, rn: byte RN, rd: byte RD };
        G8(wide) Extract { wide; rm: byte RM, lsb: byte IMMS, rn: byte RN, rd: byte RD };
        G9(op) PcRelative { op; imm: signed IMM21, rd: byte RD };
        G10(op) Branch (branch op);
        G11(op) BranchRegister { op; rn: byte RN };
        G12(op) AddSubCarry { op; wide: one SF, rm: byte RM, rn: byte RN, rd: byte RD };
        G13(op) ConditionalSelect {
            op; wide: one SF, condition: condition_of COND, rm: byte RM, rn: byte RN, rd: byte RD };
        G14(op, immediate) ConditionalCompare {
            op; wide: one SF, operand: compare_operand immediate, condition: condition_of COND,
            nzcv: byte NZCV, rn: byte RN };
        G15(op) OneSource { op; wide: wide_source op, rn: byte RN, rd: byte RD };
        G16(op) TwoSource { op; wide: one SF, rm: byte RM, rn: byte RN, rd: byte RD };
        G17(op) Multiply (multiply op);
        G18(form) LoadStore {
            ; op: load_store_op_of OPC, size: access_size_of SIZE, address: address form,
            rn: byte RN, rt: byte RT };
        G19(op) LoadLiteral { op; words: signed IMM19, rt: byte RT };
        G20(op, wide, index) LoadStorePair {
            op, wide, index; offset: signed IMM7, rn: byte RN, rt: byte RT, rt2: byte RT2 };
        G21(form) Atomic (atomic form);
        G22(op) System (system op);
        G23(op, register) SystemMove { op, register; rt: byte RT };
    })
}

/// The instruction where the condition holds.
#[inline(always)]
fn when(holds: bool, insn: Insn) -> Option<Insn>
    ensures { result ≡ (if holds then Some insn else None) }
{
    if holds { Some(insn) } else { None }
}

/// A register shifted by an amount.
#[inline(always)]
fn shifted_register(word: u32) -> ShiftedRegister
    ensures { result ≡ shifted_register (numbers_in word) }
{
    read!(word ShiftedRegister {; rm: byte RM, shift: shift_of SHIFT, amount: byte IMM6 })
}

/// A register extended, then shifted left.
#[inline(always)]
fn extended_register(word: u32) -> ExtendedRegister
    ensures { result ≡ extended_register (numbers_in word) }
{
    read!(word ExtendedRegister {; rm: byte RM, extend: extend_of OPTION, amount: byte IMM3 })
}

/// The branch of the operation.
#[inline(always)]
fn branch(op: BranchOp, word: u32) -> Branch
    ensures { result ≡ named_branch op (numbers_in word) (signed_numbers_in word) }
{
    match op {
        BranchOp::B => read!(word Branch::Unconditional { link: false; words: signed IMM26 }),
        BranchOp::Bl => read!(word Branch::Unconditional { link: true; words: signed IMM26 }),
        BranchOp::BCond =>
            read!(word Branch::Conditional {; condition: condition_of BRANCH_COND, words: signed IMM19 }),
        BranchOp::Cbz =>
            read!(word Branch::Compare { nonzero: false; wide: one SF, words: signed IMM19, rt: byte RT }),
        BranchOp::Cbnz =>
            read!(word Branch::Compare { nonzero: true; wide: one SF, words: signed IMM19, rt: byte RT }),
        BranchOp::Tbz =>
            read!(word Branch::TestBit { nonzero: false; bit: byte BIT, words: signed IMM14, rt: byte RT }),
        BranchOp::Tbnz =>
            read!(word Branch::TestBit { nonzero: true; bit: byte BIT, words: signed IMM14, rt: byte RT }),
    }
}

/// The second operand of a conditional compare.
#[inline(always)]
fn compare_operand(immediate: bool, word: u32) -> CompareOperand
    ensures { result ≡ compare_operand immediate (numbers_in word) }
{
    if immediate {
        CompareOperand::Immediate(byte(IMM5, word))
    } else {
        CompareOperand::Register(byte(RM, word))
    }
}

/// Whether an operation on one register is of 64 bits.
#[inline(always)]
fn wide_source(op: OneSourceOp, word: u32) -> bool
    ensures { result ≡ is_wide_source op (numbers_in word) }
{
    match op {
        OneSourceOp::Rev64 => true,
        _ => one(SF, word),
    }
}

/// The multiplication of the operation: of one width, long or high, and added or subtracted.
#[inline(always)]
fn multiply(op: MultiplyOp, word: u32) -> Multiply
    ensures { result ≡ named_multiply op (numbers_in word) }
{
    match op {
        MultiplyOp::Madd => same(false, word),
        MultiplyOp::Msub => same(true, word),
        MultiplyOp::Smaddl => long(false, true, word),
        MultiplyOp::Smsubl => long(true, true, word),
        MultiplyOp::Umaddl => long(false, false, word),
        MultiplyOp::Umsubl => long(true, false, word),
        MultiplyOp::Smulh =>
            read!(word Multiply::High { signed: true; rm: byte RM, rn: byte RN, rd: byte RD }),
        MultiplyOp::Umulh =>
            read!(word Multiply::High { signed: false; rm: byte RM, rn: byte RN, rd: byte RD }),
    }
}

/// A multiplication of one width.
#[inline(always)]
fn same(subtract: bool, word: u32) -> Multiply
    ensures { result ≡ same_multiply subtract (numbers_in word) }
{
    read!(word Multiply::Same { subtract; wide: one SF, rm: byte RM, ra: byte RA, rn: byte RN, rd: byte RD })
}

/// A long multiplication.
#[inline(always)]
fn long(subtract: bool, signed: bool, word: u32) -> Multiply
    ensures { result ≡ long_multiply subtract signed (numbers_in word) }
{
    read!(word Multiply::Long { subtract, signed; rm: byte RM, ra: byte RA, rn: byte RN, rd: byte RD })
}

/// The address of the form.
#[inline(always)]
fn address(form: AddressForm, word: u32) -> Address
    ensures { result ≡ named_address form (numbers_in word) (signed_numbers_in word) }
{
    match form {
        AddressForm::Offset => read!(word Address::Offset {; imm: half IMM12 }),
        AddressForm::Unscaled => read!(word Address::Unscaled {; offset: signed IMM9 }),
        AddressForm::PostIndex => read!(word Address::PostIndex {; offset: signed IMM9 }),
        AddressForm::PreIndex => read!(word Address::PreIndex {; offset: signed IMM9 }),
        AddressForm::Register =>
            read!(word Address::Register {; rm: byte RM, extend: extend_of OPTION, scaled: one SCALED }),
    }
}

/// The ordered or atomic access of the form.
#[inline(always)]
fn atomic(form: AtomicForm, word: u32) -> Atomic
    ensures { result ≡ named_atomic form (numbers_in word) }
{
    match form {
        AtomicForm::Ldar =>
            read!(word Atomic::Ldar {; size: access_size_of SIZE, rn: byte RN, rt: byte RT }),
        AtomicForm::Stlr =>
            read!(word Atomic::Stlr {; size: access_size_of SIZE, rn: byte RN, rt: byte RT }),
        AtomicForm::Cas => read!(word Atomic::Cas {
            ; size: access_size_of SIZE, acquire: one CAS_ACQUIRE, release: one CAS_RELEASE,
            rs: byte RS, rn: byte RN, rt: byte RT
        }),
        AtomicForm::Swap => read!(word Atomic::Swap {
            ; size: access_size_of SIZE, acquire: one ACQUIRE, release: one RELEASE,
            rs: byte RS, rn: byte RN, rt: byte RT
        }),
        AtomicForm::Update(op) => read!(word Atomic::Update {
            op; size: access_size_of SIZE, acquire: one ACQUIRE, release: one RELEASE,
            rs: byte RS, rn: byte RN, rt: byte RT
        }),
    }
}

/// The exception, hint or barrier of the operation.
#[inline(always)]
fn system(op: SystemOp, word: u32) -> System
    ensures { result ≡ named_system op (numbers_in word) }
{
    match op {
        SystemOp::Svc => System::Svc(half(IMM16, word)),
        SystemOp::Brk => System::Brk(half(IMM16, word)),
        SystemOp::Udf => System::Udf(half(UDF_IMM16, word)),
        SystemOp::Hint => System::Hint(byte(HINT, word)),
        SystemOp::Dmb => System::Dmb(byte(CRM, word)),
        SystemOp::Dsb => System::Dsb(byte(CRM, word)),
        SystemOp::Isb => System::Isb(byte(CRM, word)),
    }
}
