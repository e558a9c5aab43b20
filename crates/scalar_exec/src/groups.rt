//! Instructions of the scalar registers alone that have no flat form, with PC apart from the other registers: but for
//! branches and addresses relative to PC each group is a call of its own.
ghost use Rattle.std.specs.Prelude.{IsTrue, ℕ};
ghost use Rattle.a64_table.specs.Ranges.{IsInRow};
ghost use Rattle.scalar_exec.specs.Step.{is_scalar};
ghost use Rattle.scalar_exec.specs.Apart.{Steps};
ghost use Rattle.sm_types.specs.declared.insn.Insn.TheVariants as insn;

use crate::apart::{
    step_add_sub_carry, step_add_sub_extended, step_add_sub_immediate, step_add_sub_register,
    step_bitfield_move, step_branch, step_branch_register, step_conditional_compare,
    step_conditional_select, step_extract, step_logical_immediate, step_logical_register,
    step_move_wide, step_multiply, step_one_source, step_pc_relative, step_two_source,
};
use sm_types::{
    AddSubCarry, AddSubExtended, AddSubImmediate, AddSubRegister, BitfieldMove, ConditionalCompare,
    ConditionalSelect, Extract, Insn, LogicalImmediate, LogicalRegister, MoveWide, Multiply,
    OneSource, Scalars, TwoSource,
};

/// Adds or subtracts an immediate.
#[inline(never)]
fn add_sub_immediate(s: &mut Scalars, x: &AddSubImmediate, at: u64) -> u64
    requires { IsInRow (insn.AddSubImmediate x.now) }
    ensures { (base : ℕ) → Steps (insn.AddSubImmediate x.now) base at result s.old s.new }
{
    step_add_sub_immediate(s, x, at)
}

/// Adds or subtracts a shifted register.
#[inline(never)]
fn add_sub_register(s: &mut Scalars, x: &AddSubRegister, at: u64) -> u64
    requires { IsInRow (insn.AddSubRegister x.now) }
    ensures { (base : ℕ) → Steps (insn.AddSubRegister x.now) base at result s.old s.new }
{
    step_add_sub_register(s, x, at)
}

/// Adds or subtracts an extended register.
#[inline(never)]
fn add_sub_extended(s: &mut Scalars, x: &AddSubExtended, at: u64) -> u64
    requires { IsInRow (insn.AddSubExtended x.now) }
    ensures { (base : ℕ) → Steps (insn.AddSubExtended x.now) base at result s.old s.new }
{
    step_add_sub_extended(s, x, at)
}

/// Adds or subtracts a register with the carry flag.
#[inline(never)]
fn add_sub_carry(s: &mut Scalars, x: &AddSubCarry, at: u64) -> u64
    requires { IsInRow (insn.AddSubCarry x.now) }
    ensures { (base : ℕ) → Steps (insn.AddSubCarry x.now) base at result s.old s.new }
{
    step_add_sub_carry(s, x, at)
}

/// Combines a register with a shifted register.
#[inline(never)]
fn logical_register(s: &mut Scalars, x: &LogicalRegister, at: u64) -> u64
    requires { IsInRow (insn.LogicalRegister x.now) }
    ensures { (base : ℕ) → Steps (insn.LogicalRegister x.now) base at result s.old s.new }
{
    step_logical_register(s, x, at)
}

/// Combines a register with a mask.
#[inline(never)]
fn logical_immediate(s: &mut Scalars, x: &LogicalImmediate, at: u64) -> u64
    requires { IsInRow (insn.LogicalImmediate x.now) }
    ensures { (base : ℕ) → Steps (insn.LogicalImmediate x.now) base at result s.old s.new }
{
    step_logical_immediate(s, x, at)
}

/// Moves a halfword.
#[inline(never)]
fn move_wide(s: &mut Scalars, x: &MoveWide, at: u64) -> u64
    requires { IsInRow (insn.MoveWide x.now) }
    ensures { (base : ℕ) → Steps (insn.MoveWide x.now) base at result s.old s.new }
{
    step_move_wide(s, x, at)
}

/// Moves a bit field.
#[inline(never)]
fn bitfield_move(s: &mut Scalars, x: &BitfieldMove, at: u64) -> u64
    requires { IsInRow (insn.BitfieldMove x.now) }
    ensures { (base : ℕ) → Steps (insn.BitfieldMove x.now) base at result s.old s.new }
{
    step_bitfield_move(s, x, at)
}

/// Extracts a word from two registers.
#[inline(never)]
fn extract(s: &mut Scalars, x: &Extract, at: u64) -> u64
    requires { IsInRow (insn.Extract x.now) }
    ensures { (base : ℕ) → Steps (insn.Extract x.now) base at result s.old s.new }
{
    step_extract(s, x, at)
}

/// Takes one of two registers by a condition.
#[inline(never)]
fn conditional_select(s: &mut Scalars, x: &ConditionalSelect, at: u64) -> u64
    requires { IsInRow (insn.ConditionalSelect x.now) }
    ensures { (base : ℕ) → Steps (insn.ConditionalSelect x.now) base at result s.old s.new }
{
    step_conditional_select(s, x, at)
}

/// Compares where a condition holds.
#[inline(never)]
fn conditional_compare(s: &mut Scalars, x: &ConditionalCompare, at: u64) -> u64
    requires { IsInRow (insn.ConditionalCompare x.now) }
    ensures { (base : ℕ) → Steps (insn.ConditionalCompare x.now) base at result s.old s.new }
{
    step_conditional_compare(s, x, at)
}

/// Reverses or counts the bits of a register.
#[inline(never)]
fn one_source(s: &mut Scalars, x: &OneSource, at: u64) -> u64
    requires { IsInRow (insn.OneSource x.now) }
    ensures { (base : ℕ) → Steps (insn.OneSource x.now) base at result s.old s.new }
{
    step_one_source(s, x, at)
}

/// Divides, or shifts by a register.
#[inline(never)]
fn two_source(s: &mut Scalars, x: &TwoSource, at: u64) -> u64
    requires { IsInRow (insn.TwoSource x.now) }
    ensures { (base : ℕ) → Steps (insn.TwoSource x.now) base at result s.old s.new }
{
    step_two_source(s, x, at)
}

/// Multiplies registers.
#[inline(never)]
fn multiply(s: &mut Scalars, x: &Multiply, at: u64) -> u64
    requires { IsInRow (insn.Multiply x.now) }
    ensures { (base : ℕ) → Steps (insn.Multiply x.now) base at result s.old s.new }
{
    step_multiply(s, x, at)
}

/// Executes an instruction that reads and writes scalar registers alone, with PC at a distance from an address:
/// gives the distance of the next one. PC itself is neither read nor written.
#[inline(never)]
pub fn exec_group_at(s: &mut Scalars, insn: &Insn, base: u64, at: u64) -> u64
    requires scalar { IsTrue (is_scalar insn.now) }
    requires ranges { IsInRow insn.now }
    ensures { Steps insn.now base at result s.old s.new }
{
    match insn {
        Insn::AddSubImmediate(x) => add_sub_immediate(s, x, at),
        Insn::AddSubRegister(x) => add_sub_register(s, x, at),
        Insn::AddSubExtended(x) => add_sub_extended(s, x, at),
        Insn::AddSubCarry(x) => add_sub_carry(s, x, at),
        Insn::LogicalRegister(x) => logical_register(s, x, at),
        Insn::LogicalImmediate(x) => logical_immediate(s, x, at),
        Insn::MoveWide(x) => move_wide(s, x, at),
        Insn::BitfieldMove(x) => bitfield_move(s, x, at),
        Insn::Extract(x) => extract(s, x, at),
        Insn::ConditionalSelect(x) => conditional_select(s, x, at),
        Insn::ConditionalCompare(x) => conditional_compare(s, x, at),
        Insn::OneSource(x) => one_source(s, x, at),
        Insn::TwoSource(x) => two_source(s, x, at),
        Insn::Multiply(x) => multiply(s, x, at),
        Insn::PcRelative(x) => step_pc_relative(s, x, base, at),
        Insn::Branch(x) => step_branch(s, x, base, at),
        Insn::BranchRegister(x) => step_branch_register(s, x, base, at),
        _ => unreachable!(),
    }
}
