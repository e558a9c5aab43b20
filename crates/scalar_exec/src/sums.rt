//! Sums and differences.
ghost use Rattle.std.specs.Prelude.{◌≡◌, ◌<◌, ◌^◌, true, false};
ghost use Rattle.bit_ops.specs.Sums.{word_size, bool_number, sum_of, sum_flags};
ghost use Rattle.a64_table.specs.Ranges.{IsAddSubImmediate, IsAddSubRegister, IsAddSubExtended};
ghost use Rattle.a64_table.specs.Ranges.{IsAddSubCarry};
ghost use Rattle.scalar_exec.specs.Operands.{inverted};
ghost use Rattle.scalar_exec.specs.Sums.{carry_of, sum_to_x, sum_to_sp, immediate_of, add_sub_immediate};
ghost use Rattle.scalar_exec.specs.Sums.{add_sub_register, add_sub_extended, add_sub_carry};

use crate::operands::{extended_operand, shifted_operand};
use crate::registers::{register, register_or_sp, write_flags, write_x, write_x_or_sp};
use bit_ops::{Nzcv, add_carry};
use sm_types::{AddSub, AddSubCarry, AddSubExtended, AddSubImmediate, AddSubRegister, Scalars};

/// The difference of two words, less 1 where there is no carry, with its flags: the sum with the second
/// word inverted. So its carry comes of one comparison of the two.
#[inline(always)]
pub fn subtract_carry(a: u64, b: u64, carry: bool, wide: bool) -> (u64, Nzcv)
    requires a { a < word_size wide }
    requires b { b < word_size wide }
    ensures sum { result.0 ≡ sum_of wide a (inverted wide b) (bool_number carry) }
    ensures flags { result.1 ≡ sum_flags wide a (inverted wide b) (bool_number carry) }
{
    if wide {
        subtract_wide(a, b, carry)
    } else {
        let (difference, flags) = subtract_narrow(a as u32, b as u32, carry);
        (u64::from(difference), flags)
    }
}

/// The difference of two words of 64 bits.
#[inline(always)]
#[tactic(auto, unfolding(bit_ops::specs::Sums::sum_of, bit_ops::specs::Sums::sum_flags))]
fn subtract_wide(a: u64, b: u64, carry: bool) -> (u64, Nzcv)
    ensures sum { result.0 ≡ sum_of true a (inverted true b) (bool_number carry) }
    ensures flags { result.1 ≡ sum_flags true a (inverted true b) (bool_number carry) }
{
    let difference = a.wrapping_sub(b).wrapping_sub(u64::from(!carry));
    let n = difference >= 1 << 63;
    let z = difference == 0;
    let c = if carry { a >= b } else { a > b };
    let (x, y) = (a.cast_signed(), b.cast_signed());
    let v = n != if carry { x < y } else { x <= y };
    (difference, Nzcv { n, z, c, v })
}

/// The difference of two words of 32 bits.
#[inline(always)]
#[tactic(auto, unfolding(bit_ops::specs::Sums::sum_of, bit_ops::specs::Sums::sum_flags))]
fn subtract_narrow(a: u32, b: u32, carry: bool) -> (u32, Nzcv)
    ensures sum { result.0 ≡ sum_of false a (inverted false b) (bool_number carry) }
    ensures flags { result.1 ≡ sum_flags false a (inverted false b) (bool_number carry) }
{
    let difference = a.wrapping_sub(b).wrapping_sub(u32::from(!carry));
    let n = difference >= 1 << 31;
    let z = difference == 0;
    let c = if carry { a >= b } else { a > b };
    let (x, y) = (a.cast_signed(), b.cast_signed());
    let v = n != if carry { x < y } else { x <= y };
    (difference, Nzcv { n, z, c, v })
}

/// The sum with a carry, or that with the second operand inverted, to a register and the flags.
#[inline(always)]
#[tactic(auto, unfolding(crate::specs::Sums::sum_to_x))]
fn write_sum(s: &mut Scalars, op: AddSub, wide: bool, d: u8, a: u64, b: u64, carry: bool)
    requires d { d < 32 }
    requires a { a < word_size wide }
    requires b { b < word_size wide }
    ensures value { s.new ≡ sum_to_x op wide d a b (bool_number carry) s.old }
    ensures place { s.new.pc ≡ s.old.pc }
{
    match op {
        AddSub::Add => {
            let (sum, _) = add_carry(a, b, carry, wide);
            write_x(s, d, sum);
        }
        AddSub::Adds => {
            let (sum, flags) = add_carry(a, b, carry, wide);
            write_x(s, d, sum);
            write_flags(s, flags);
        }
        AddSub::Sub => {
            let (sum, _) = subtract_carry(a, b, carry, wide);
            write_x(s, d, sum);
        }
        AddSub::Subs => {
            let (sum, flags) = subtract_carry(a, b, carry, wide);
            write_x(s, d, sum);
            write_flags(s, flags);
        }
    }
}

/// The sum or difference to a register, which may be SP where no flags are set.
#[inline(always)]
#[tactic(auto, unfolding(crate::specs::Sums::sum_to_sp))]
fn write_sum_or_sp(s: &mut Scalars, op: AddSub, wide: bool, d: u8, a: u64, b: u64)
    requires d { d < 32 }
    requires a { a < word_size wide }
    requires b { b < word_size wide }
    ensures value { s.new ≡ sum_to_sp op wide d a b s.old }
    ensures place { s.new.pc ≡ s.old.pc }
{
    match op {
        AddSub::Add => {
            let (sum, _) = add_carry(a, b, false, wide);
            write_x_or_sp(s, d, sum);
        }
        AddSub::Adds => write_sum(s, AddSub::Adds, wide, d, a, b, false),
        AddSub::Sub => {
            let (sum, _) = subtract_carry(a, b, true, wide);
            write_x_or_sp(s, d, sum);
        }
        AddSub::Subs => write_sum(s, AddSub::Subs, wide, d, a, b, true),
    }
}

/// The carry into a sum or a difference.
#[inline(always)]
fn carry_into(op: AddSub) -> bool
    ensures { bool_number result ≡ carry_of op }
{
    matches!(op, AddSub::Sub | AddSub::Subs)
}

/// The immediate, shifted where the instruction says so.
#[inline(always)]
fn immediate(x: &AddSubImmediate) -> u64
    requires { x.now.imm < 2 ^ 12 }
    ensures value { result ≡ immediate_of x.now }
    ensures small { result < 2 ^ 24 }
{
    let imm = u64::from(x.imm);
    if x.shifted { imm << 12 } else { imm }
}

/// Adds or subtracts an immediate.
#[inline(always)]
#[tactic(auto, unfolding(crate::specs::Sums::add_sub_immediate))]
pub fn exec_add_sub_immediate(s: &mut Scalars, x: &AddSubImmediate)
    requires { IsAddSubImmediate x.now }
    ensures value { s.new ≡ add_sub_immediate x.now s.old }
    ensures place { s.new.pc ≡ s.old.pc }
{
    let a = register_or_sp(s, x.rn, x.wide);
    write_sum_or_sp(s, x.op, x.wide, x.rd, a, immediate(x));
}

/// Adds or subtracts a shifted register.
#[inline(always)]
#[tactic(auto, unfolding(crate::specs::Sums::add_sub_register))]
pub fn exec_add_sub_register(s: &mut Scalars, x: &AddSubRegister)
    requires { IsAddSubRegister x.now }
    ensures value { s.new ≡ add_sub_register x.now s.old }
    ensures place { s.new.pc ≡ s.old.pc }
{
    let a = register(s, x.rn, x.wide);
    let b = shifted_operand(s, &x.operand, x.wide);
    write_sum(s, x.op, x.wide, x.rd, a, b, carry_into(x.op));
}

/// Adds or subtracts an extended register.
#[inline(always)]
#[tactic(auto, unfolding(crate::specs::Sums::add_sub_extended))]
pub fn exec_add_sub_extended(s: &mut Scalars, x: &AddSubExtended)
    requires { IsAddSubExtended x.now }
    ensures value { s.new ≡ add_sub_extended x.now s.old }
    ensures place { s.new.pc ≡ s.old.pc }
{
    let a = register_or_sp(s, x.rn, x.wide);
    let b = extended_operand(s, &x.operand, x.wide);
    write_sum_or_sp(s, x.op, x.wide, x.rd, a, b);
}

/// Adds or subtracts a register with the carry flag.
#[tactic(auto, unfolding(crate::specs::Sums::add_sub_carry))]
pub fn exec_add_sub_carry(s: &mut Scalars, x: &AddSubCarry)
    requires { IsAddSubCarry x.now }
    ensures value { s.new ≡ add_sub_carry x.now s.old }
    ensures place { s.new.pc ≡ s.old.pc }
{
    let a = register(s, x.rn, x.wide);
    let b = register(s, x.rm, x.wide);
    let carry = s.c;
    write_sum(s, x.op, x.wide, x.rd, a, b, carry);
}
