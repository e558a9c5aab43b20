//! The scalar instructions.
ghost use Rattle.std.specs.Prelude.{◌≡◌, IsTrue};
ghost use Rattle.a64_table.specs.Ranges.{IsInRow};
ghost use Rattle.scalar_exec.specs.Step.{is_scalar, scalar_step, flowed};

use crate::branches::{exec_branch, exec_branch_register, exec_pc_relative};
use crate::conditional::{exec_conditional_compare, exec_conditional_select};
use crate::logic::{exec_logical_immediate, exec_logical_register};
use crate::moves::{exec_bitfield_move, exec_extract, exec_move_wide};
use crate::multiply::exec_multiply;
use crate::sources::{exec_one_source, exec_two_source};
use crate::sums::{
    exec_add_sub_carry, exec_add_sub_extended, exec_add_sub_immediate, exec_add_sub_register,
};
use sm_types::{Insn, Scalars};

/// Where PC goes after an instruction.
#[derive(Clone, Copy, Debug, PartialEq, Eq)]
pub enum Flow {
    /// To the next instruction.
    Next,
    /// To this address.
    Jump(u64),
}

/// Executes an instruction that reads and writes scalar registers alone, with its fields in their ranges: all
/// registers are as it leaves them, but PC, which the caller moves as the answer says.
#[inline(always)]
#[tactic(auto, unfolding(crate::specs::Step::scalar_step, crate::specs::Step::flowed))]
pub fn exec_scalar(s: &mut Scalars, insn: &Insn) -> Flow
    requires scalar { IsTrue (is_scalar insn.now) }
    requires ranges { IsInRow insn.now }
    ensures value { flowed s.new result ≡ scalar_step insn.now s.old }
    ensures place { s.new.pc ≡ s.old.pc }
{
    match insn {
        Insn::AddSubImmediate(x) => exec_add_sub_immediate(s, x),
        Insn::AddSubRegister(x) => exec_add_sub_register(s, x),
        Insn::LogicalRegister(x) => exec_logical_register(s, x),
        Insn::AddSubExtended(x) => exec_add_sub_extended(s, x),
        Insn::LogicalImmediate(x) => exec_logical_immediate(s, x),
        Insn::MoveWide(x) => exec_move_wide(s, x),
        Insn::BitfieldMove(x) => exec_bitfield_move(s, x),
        Insn::Extract(x) => exec_extract(s, x),
        Insn::PcRelative(x) => exec_pc_relative(s, x),
        Insn::Branch(x) => return exec_branch(s, x),
        Insn::BranchRegister(x) => return exec_branch_register(s, x),
        Insn::AddSubCarry(x) => exec_add_sub_carry(s, x),
        Insn::ConditionalSelect(x) => exec_conditional_select(s, x),
        Insn::ConditionalCompare(x) => exec_conditional_compare(s, x),
        Insn::OneSource(x) => exec_one_source(s, x),
        Insn::TwoSource(x) => exec_two_source(s, x),
        Insn::Multiply(x) => exec_multiply(s, x),
        _ => {}
    }
    Flow::Next
}
