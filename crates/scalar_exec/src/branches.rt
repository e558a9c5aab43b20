//! Addresses beside the program counter, and branches.
ghost use Rattle.std.specs.Prelude.{◌≡◌, ◌<◌};
ghost use Rattle.a64_table.specs.Ranges.{IsPcRelative, IsBranch};
ghost use Rattle.scalar_exec.specs.Branches.{address_at, relative_address, pc_relative, branch_target};
ghost use Rattle.scalar_exec.specs.Branches.{linked, branch, branch_if, branch_register};
ghost use Rattle.scalar_exec.specs.Step.{flowed};

use crate::conditional::holds;
use crate::exec::Flow;
use crate::registers::{next_address, read_x, register, write_x};
use sm_types::{Branch, BranchRegister, BranchRegisterOp, PcRelative, PcRelativeOp, Scalars};

/// The address at a signed distance in bytes, modulo 2^64.
#[inline(always)]
pub fn address_at(base: u64, distance: i64) -> u64
    ensures { result ≡ address_at base distance }
{
    base.wrapping_add_signed(distance)
}

/// The address relative to PC or to its page.
#[inline(always)]
#[tactic(auto, unfolding(crate::specs::Branches::relative_address))]
pub(crate) fn relative(op: PcRelativeOp, pc: u64, imm: i32) -> u64
    ensures { result ≡ relative_address op pc imm }
{
    match op {
        PcRelativeOp::Adr => address_at(pc, i64::from(imm)),
        PcRelativeOp::Adrp => address_at(pc / 4096 * 4096, i64::from(imm) * 4096),
    }
}

/// An address relative to PC goes to a register.
#[inline(always)]
#[tactic(auto, unfolding(crate::specs::Branches::pc_relative))]
pub fn exec_pc_relative(s: &mut Scalars, x: &PcRelative)
    requires { IsPcRelative x.now }
    ensures value { s.new ≡ pc_relative x.now s.old }
    ensures place { s.new.pc ≡ s.old.pc }
{
    let value = relative(x.op, s.pc, x.imm);
    write_x(s, x.rd, value);
}

/// The address so many words away.
#[inline(always)]
pub fn branch_target(pc: u64, words: i32) -> u64
    ensures { result ≡ branch_target pc words }
{
    address_at(pc, i64::from(words) * 4)
}

/// Sets X30 to the address of the next instruction.
#[inline(always)]
fn link_register(s: &mut Scalars)
    ensures value { s.new ≡ linked s.old }
    ensures place { s.new.pc ≡ s.old.pc }
{
    let next = next_address(s.pc);
    write_x(s, 30, next);
}

/// To the target where the branch is taken, else on.
#[inline(always)]
#[tactic(auto, unfolding(crate::specs::Branches::branch_if, crate::specs::Step::flowed))]
fn flow_if(s: &Scalars, taken: bool, words: i32) -> Flow
    ensures { flowed s.now result ≡ branch_if taken words s.now }
{
    if taken {
        Flow::Jump(branch_target(s.pc, words))
    } else {
        Flow::Next
    }
}

/// Branches to an address at a distance.
#[inline(always)]
#[tactic(auto, unfolding(crate::specs::Branches::branch, crate::specs::Step::flowed))]
pub fn exec_branch(s: &mut Scalars, x: &Branch) -> Flow
    requires { IsBranch x.now }
    ensures value { flowed s.new result ≡ branch x.now s.old }
    ensures place { s.new.pc ≡ s.old.pc }
{
    match x {
        Branch::Unconditional { link, words } => {
            if *link {
                link_register(s);
            }
            Flow::Jump(branch_target(s.pc, *words))
        }
        Branch::Conditional { condition, words } => flow_if(s, holds(*condition, s), *words),
        Branch::Compare {
            nonzero,
            wide,
            words,
            rt,
        } => flow_if(s, *nonzero == (register(s, *rt, *wide) != 0), *words),
        Branch::TestBit {
            nonzero,
            bit,
            words,
            rt,
        } => flow_if(s, *nonzero == (read_x(s, *rt) >> *bit & 1 == 1), *words),
    }
}

/// Branches to the address in a register.
#[inline(always)]
#[tactic(auto, unfolding(crate::specs::Branches::branch_to, crate::specs::Step::flowed))]
pub fn exec_branch_register(s: &mut Scalars, x: &BranchRegister) -> Flow
    requires { x.now.rn < 32 }
    ensures value { flowed s.new result ≡ branch_register x.now s.old }
    ensures place { s.new.pc ≡ s.old.pc }
{
    let address = read_x(s, x.rn);
    match x.op {
        BranchRegisterOp::Br => {}
        BranchRegisterOp::Blr => link_register(s),
        BranchRegisterOp::Ret => {}
    }
    Flow::Jump(address)
}
