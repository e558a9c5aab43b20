//! Instructions with PC apart from the other registers: each gives the distance of the next instruction from
//! the address that its own is a distance from. PC itself is neither read nor written.
ghost use Rattle.std.specs.Prelude.{◌≡◌, ◌<◌, ◌+◌, ◌%◌, ◌^◌, ℕ, true};
ghost use Rattle.a64_table.specs.Ranges.{IsAddSubImmediate, IsAddSubRegister, IsAddSubExtended, IsBranch};
ghost use Rattle.a64_table.specs.Ranges.{IsLogicalRegister, IsLogicalImmediate, IsMoveWide, IsBitfieldMove};
ghost use Rattle.a64_table.specs.Ranges.{IsConditionalSelect, IsConditionalCompare, IsTwoSource, IsMultiply};
ghost use Rattle.a64_table.specs.Ranges.{IsPcRelative, IsAddSubCarry, IsExtract, IsOneSource};
ghost use Rattle.scalar_exec.specs.Registers.{with_x, next_address};
ghost use Rattle.scalar_exec.specs.Branches.{branch_if};
ghost use Rattle.scalar_exec.specs.Apart.{at_distance, Steps, linked_by};
ghost use Rattle.sm_types.specs.declared.insn.Insn.TheVariants as insn;

use crate::branches::{branch_target, relative};
use crate::conditional::{exec_conditional_compare, exec_conditional_select, holds};
use crate::logic::{exec_logical_immediate, exec_logical_register};
use crate::moves::{exec_bitfield_move, exec_extract, exec_move_wide};
use crate::multiply::exec_multiply;
use crate::registers::{next_address, read_x, register, write_x};
use crate::sources::{exec_one_source, exec_two_source};
use crate::sums::{
    exec_add_sub_carry, exec_add_sub_extended, exec_add_sub_immediate, exec_add_sub_register,
};
use sm_types::{
    AddSubCarry, AddSubExtended, AddSubImmediate, AddSubRegister, BitfieldMove, Branch,
    BranchRegister, BranchRegisterOp, ConditionalCompare, ConditionalSelect, Extract,
    LogicalImmediate, LogicalRegister, MoveWide, Multiply, OneSource, PcRelative, Scalars,
    TwoSource,
};

/// Adds or subtracts an immediate.
#[inline(always)]
pub fn step_add_sub_immediate(s: &mut Scalars, x: &AddSubImmediate, at: u64) -> u64
    requires { IsAddSubImmediate x.now }
    ensures { (base : ℕ) → Steps (insn.AddSubImmediate x.now) base at result s.old s.new }
{
    exec_add_sub_immediate(s, x);
    next_address(at)
}

/// Adds or subtracts a shifted register.
#[inline(always)]
pub fn step_add_sub_register(s: &mut Scalars, x: &AddSubRegister, at: u64) -> u64
    requires { IsAddSubRegister x.now }
    ensures { (base : ℕ) → Steps (insn.AddSubRegister x.now) base at result s.old s.new }
{
    exec_add_sub_register(s, x);
    next_address(at)
}

/// Adds or subtracts an extended register.
#[inline(always)]
pub fn step_add_sub_extended(s: &mut Scalars, x: &AddSubExtended, at: u64) -> u64
    requires { IsAddSubExtended x.now }
    ensures { (base : ℕ) → Steps (insn.AddSubExtended x.now) base at result s.old s.new }
{
    exec_add_sub_extended(s, x);
    next_address(at)
}

/// Adds or subtracts a register with the carry flag.
#[inline(always)]
pub fn step_add_sub_carry(s: &mut Scalars, x: &AddSubCarry, at: u64) -> u64
    requires { IsAddSubCarry x.now }
    ensures { (base : ℕ) → Steps (insn.AddSubCarry x.now) base at result s.old s.new }
{
    exec_add_sub_carry(s, x);
    next_address(at)
}

/// Combines a register with a shifted register.
#[inline(always)]
pub fn step_logical_register(s: &mut Scalars, x: &LogicalRegister, at: u64) -> u64
    requires { IsLogicalRegister x.now }
    ensures { (base : ℕ) → Steps (insn.LogicalRegister x.now) base at result s.old s.new }
{
    exec_logical_register(s, x);
    next_address(at)
}

/// Combines a register with a mask.
#[inline(always)]
pub fn step_logical_immediate(s: &mut Scalars, x: &LogicalImmediate, at: u64) -> u64
    requires { IsLogicalImmediate x.now }
    ensures { (base : ℕ) → Steps (insn.LogicalImmediate x.now) base at result s.old s.new }
{
    exec_logical_immediate(s, x);
    next_address(at)
}

/// Moves a halfword.
#[inline(always)]
pub fn step_move_wide(s: &mut Scalars, x: &MoveWide, at: u64) -> u64
    requires { IsMoveWide x.now }
    ensures { (base : ℕ) → Steps (insn.MoveWide x.now) base at result s.old s.new }
{
    exec_move_wide(s, x);
    next_address(at)
}

/// Moves a bit field.
#[inline(always)]
pub fn step_bitfield_move(s: &mut Scalars, x: &BitfieldMove, at: u64) -> u64
    requires { IsBitfieldMove x.now }
    ensures { (base : ℕ) → Steps (insn.BitfieldMove x.now) base at result s.old s.new }
{
    exec_bitfield_move(s, x);
    next_address(at)
}

/// Extracts a word from two registers.
#[inline(always)]
pub fn step_extract(s: &mut Scalars, x: &Extract, at: u64) -> u64
    requires { IsExtract x.now }
    ensures { (base : ℕ) → Steps (insn.Extract x.now) base at result s.old s.new }
{
    exec_extract(s, x);
    next_address(at)
}

/// Takes one of two registers by a condition.
#[inline(always)]
pub fn step_conditional_select(s: &mut Scalars, x: &ConditionalSelect, at: u64) -> u64
    requires { IsConditionalSelect x.now }
    ensures { (base : ℕ) → Steps (insn.ConditionalSelect x.now) base at result s.old s.new }
{
    exec_conditional_select(s, x);
    next_address(at)
}

/// Compares where a condition holds.
#[inline(always)]
pub fn step_conditional_compare(s: &mut Scalars, x: &ConditionalCompare, at: u64) -> u64
    requires { IsConditionalCompare x.now }
    ensures { (base : ℕ) → Steps (insn.ConditionalCompare x.now) base at result s.old s.new }
{
    exec_conditional_compare(s, x);
    next_address(at)
}

/// Reverses or counts the bits of a register.
#[inline(always)]
pub fn step_one_source(s: &mut Scalars, x: &OneSource, at: u64) -> u64
    requires { IsOneSource x.now }
    ensures { (base : ℕ) → Steps (insn.OneSource x.now) base at result s.old s.new }
{
    exec_one_source(s, x);
    next_address(at)
}

/// Divides, or shifts by a register.
#[inline(always)]
pub fn step_two_source(s: &mut Scalars, x: &TwoSource, at: u64) -> u64
    requires { IsTwoSource x.now }
    ensures { (base : ℕ) → Steps (insn.TwoSource x.now) base at result s.old s.new }
{
    exec_two_source(s, x);
    next_address(at)
}

/// Multiplies registers.
#[inline(always)]
pub fn step_multiply(s: &mut Scalars, x: &Multiply, at: u64) -> u64
    requires { IsMultiply x.now }
    ensures { (base : ℕ) → Steps (insn.Multiply x.now) base at result s.old s.new }
{
    exec_multiply(s, x);
    next_address(at)
}

/// PC.
#[inline(always)]
fn pc_at(base: u64, at: u64) -> u64
    ensures { result ≡ (base + at) % 2 ^ 64 }
{
    base.wrapping_add(at)
}

/// Sets X30 to the address of the next instruction.
#[inline(always)]
fn link_at(s: &mut Scalars, base: u64, at: u64)
    ensures { s.new ≡ with_x s.old 30 (next_address ((base + at) % 2 ^ 64)) }
{
    write_x(s, 30, next_address(pc_at(base, at)));
}

/// To the target where the branch is taken, else on.
#[inline(always)]
fn step_if(s: &Scalars, taken: bool, words: i32, at: u64) -> u64
    ensures { (base : ℕ) → at_distance base result s.now
        ≡ branch_if taken words (at_distance base at s.now) }
{
    if taken {
        branch_target(at, words)
    } else {
        next_address(at)
    }
}

/// Branches, and sets X30.
#[inline(always)]
fn step_call(s: &mut Scalars, words: i32, base: u64, at: u64) -> u64
    ensures { Steps (insn.Branch (Branch.Unconditional true words)) base at result s.old s.new }
{
    link_at(s, base, at);
    branch_target(at, words)
}

/// Branches to an address at a distance.
#[inline(always)]
#[tactic(auto, using(crate::proofs::AnyPc::holds_any), unfolding(
// The step, and the registers that it reads.
crate::specs::Step::scalar_step, crate::specs::Branches::branch, crate::specs::Registers::x_of,))]
pub fn step_branch(s: &mut Scalars, x: &Branch, base: u64, at: u64) -> u64
    requires { IsBranch x.now }
    ensures { Steps (insn.Branch x.now) base at result s.old s.new }
{
    match *x {
        Branch::Unconditional { link: true, words } => step_call(s, words, base, at),
        Branch::Unconditional { link: false, words } => branch_target(at, words),
        Branch::Conditional { condition, words } => step_if(s, holds(condition, s), words, at),
        Branch::Compare {
            nonzero,
            wide,
            words,
            rt,
        } => step_if(s, nonzero == (register(s, rt, wide) != 0), words, at),
        Branch::TestBit {
            nonzero,
            bit,
            words,
            rt,
        } => step_if(s, nonzero == (read_x(s, rt) >> bit & 1 == 1), words, at),
    }
}

/// Sets X30 where the branch does.
#[inline(always)]
fn link_by(s: &mut Scalars, op: BranchRegisterOp, base: u64, at: u64)
    ensures { s.new ≡ linked_by op ((base + at) % 2 ^ 64) s.old }
{
    match op {
        BranchRegisterOp::Br => {}
        BranchRegisterOp::Blr => link_at(s, base, at),
        BranchRegisterOp::Ret => {}
    }
}

/// Branches to the address in a register.
#[inline(always)]
pub fn step_branch_register(s: &mut Scalars, x: &BranchRegister, base: u64, at: u64) -> u64
    requires { x.now.rn < 32 }
    ensures { Steps (insn.BranchRegister x.now) base at result s.old s.new }
{
    let target = read_x(s, x.rn);
    link_by(s, x.op, base, at);
    target.wrapping_sub(base)
}

/// An address relative to PC goes to a register.
#[inline(always)]
pub fn step_pc_relative(s: &mut Scalars, x: &PcRelative, base: u64, at: u64) -> u64
    requires { IsPcRelative x.now }
    ensures { Steps (insn.PcRelative x.now) base at result s.old s.new }
{
    let value = relative(x.op, pc_at(base, at), x.imm);
    write_x(s, x.rd, value);
    next_address(at)
}
