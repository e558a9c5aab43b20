//! Conditions, and the instructions that select and compare by them.
ghost use Rattle.std.specs.Prelude.{◌≡◌, ◌<◌, ◌^◌};
ghost use Rattle.bit_ops.specs.Sums.{word_size};
ghost use Rattle.a64_table.specs.Ranges.{IsConditionalSelect, IsConditionalCompare, IsCompareOperand};
ghost use Rattle.scalar_exec.specs.Conditional.{condition_holds, otherwise, conditional_select, compared};
ghost use Rattle.scalar_exec.specs.Conditional.{compare_flags, flags_of, conditional_compare};

use crate::operands::invert;
use crate::registers::{low_word, register, write_flags, write_x};
use crate::sums::subtract_carry;
use bit_ops::{Nzcv, add_carry};
use sm_types::{
    CompareOp, CompareOperand, Condition, ConditionalCompare, ConditionalSelect, Scalars, SelectOp,
};

/// Tells whether the flags meet the condition.
#[inline(always)]
#[tactic(auto, unfolding(crate::specs::Conditional::condition_holds))]
pub fn holds(condition: Condition, s: &Scalars) -> bool
    ensures { result ≡ condition_holds condition s.now }
{
    match condition {
        Condition::Eq => s.z,
        Condition::Ne => !s.z,
        Condition::Cs => s.c,
        Condition::Cc => !s.c,
        Condition::Mi => s.n,
        Condition::Pl => !s.n,
        Condition::Vs => s.v,
        Condition::Vc => !s.v,
        Condition::Hi => s.c && !s.z,
        Condition::Ls => !(s.c && !s.z),
        Condition::Ge => s.n == s.v,
        Condition::Lt => s.n != s.v,
        Condition::Gt => !s.z && s.n == s.v,
        Condition::Le => !(!s.z && s.n == s.v),
        Condition::Al => true,
        Condition::Nv => true,
    }
}

/// The same by a call, so that what selects or compares by it stays small.
#[inline(never)]
fn meets(condition: Condition, s: &Scalars) -> bool
    ensures { result ≡ condition_holds condition s.now }
{
    holds(condition, s)
}

/// What is taken of the second register where the condition fails.
#[inline(always)]
#[tactic(auto, unfolding(crate::specs::Conditional::otherwise))]
fn second(op: SelectOp, value: u64, wide: bool) -> u64
    requires { value < word_size wide }
    ensures { result ≡ otherwise op wide value }
{
    match op {
        SelectOp::Csel => value,
        SelectOp::Csinc => low_word(value.wrapping_add(1), wide),
        SelectOp::Csinv => invert(value, wide),
        SelectOp::Csneg => low_word(value.wrapping_neg(), wide),
    }
}

/// Takes one of two registers by a condition.
#[inline(always)]
#[tactic(auto, unfolding(crate::specs::Conditional::conditional_select))]
pub fn exec_conditional_select(s: &mut Scalars, x: &ConditionalSelect)
    requires { IsConditionalSelect x.now }
    ensures value { s.new ≡ conditional_select x.now s.old }
    ensures place { s.new.pc ≡ s.old.pc }
{
    let value = if meets(x.condition, s) {
        register(s, x.rn, x.wide)
    } else {
        second(x.op, register(s, x.rm, x.wide), x.wide)
    };
    write_x(s, x.rd, value);
}

/// A register or an immediate.
#[inline(always)]
fn operand(s: &Scalars, operand: CompareOperand, wide: bool) -> u64
    requires { IsCompareOperand operand }
    ensures value { result ≡ compared operand wide s.now }
    ensures small { result < word_size wide }
{
    match operand {
        CompareOperand::Register(rm) => register(s, rm, wide),
        CompareOperand::Immediate(imm) => u64::from(imm),
    }
}

/// The flags of the sum, or of the difference.
#[inline(always)]
#[tactic(auto, unfolding(crate::specs::Conditional::compare_flags))]
fn compare(op: CompareOp, a: u64, b: u64, wide: bool) -> Nzcv
    requires a { a < word_size wide }
    requires b { b < word_size wide }
    ensures { result ≡ compare_flags op wide a b }
{
    match op {
        CompareOp::Ccmn => add_carry(a, b, false, wide).1,
        CompareOp::Ccmp => subtract_carry(a, b, true, wide).1,
    }
}

/// The flags of the bits N, Z, C and V.
#[inline(always)]
#[tactic(auto, unfolding(crate::specs::Conditional::flags_of))]
fn flags(nzcv: u8) -> Nzcv
    requires { nzcv < 2 ^ 4 }
    ensures { result ≡ flags_of nzcv }
{
    Nzcv {
        n: nzcv >> 3 & 1 == 1,
        z: nzcv >> 2 & 1 == 1,
        c: nzcv >> 1 & 1 == 1,
        v: nzcv & 1 == 1,
    }
}

/// Compares where a condition holds, and else sets the flags of the instruction.
#[inline(always)]
#[tactic(auto, unfolding(crate::specs::Conditional::conditional_compare))]
pub fn exec_conditional_compare(s: &mut Scalars, x: &ConditionalCompare)
    requires { IsConditionalCompare x.now }
    ensures value { s.new ≡ conditional_compare x.now s.old }
    ensures place { s.new.pc ≡ s.old.pc }
{
    let result = if meets(x.condition, s) {
        let a = register(s, x.rn, x.wide);
        compare(x.op, a, operand(s, x.operand, x.wide), x.wide)
    } else {
        flags(x.nzcv)
    };
    write_flags(s, result);
}
