//! Logical operations.
ghost use Rattle.std.specs.Prelude.{◌≡◌, ◌<◌, true, false};
ghost use Rattle.bit_ops.specs.Masks.{mask_of};
ghost use Rattle.a64_table.specs.Ranges.{IsLogicalRegister, IsLogicalImmediate};
ghost use Rattle.scalar_exec.specs.Logic.{combined, logical_flags, logical_to_x, logical_to_sp};
ghost use Rattle.scalar_exec.specs.Logic.{logical_operand, logical_register, logical_immediate};

use crate::fields::{power, shifted_field};
use crate::operands::{invert, shifted_operand};
use crate::registers::{low_word, register, write_flags, write_x, write_x_or_sp};
use bit_ops::{Nzcv, bit_mask};
use sm_types::{Logical, LogicalImmediate, LogicalRegister, Scalars};

/// The operation, bit by bit.
#[inline(always)]
#[tactic(auto, unfolding(crate::specs::Logic::combined))]
fn combine(op: Logical, a: u64, b: u64) -> u64
    ensures { result ≡ combined op a b }
{
    match op {
        Logical::And => a & b,
        Logical::Orr => a | b,
        Logical::Eor => a ^ b,
        Logical::Ands => a & b,
    }
}

/// The flags of a logical result.
#[inline(always)]
#[tactic(auto, unfolding(crate::specs::Logic::logical_flags))]
fn logical_flags(value: u64, wide: bool) -> Nzcv
    ensures { result ≡ logical_flags wide value }
{
    let top = if wide { 1 << 63 } else { 1 << 31 };
    Nzcv {
        n: value >= top,
        z: value == 0,
        c: false,
        v: false,
    }
}

/// The result to a register and the flags.
#[inline(always)]
#[tactic(auto, unfolding(crate::specs::Logic::logical_to_x))]
fn write_result(s: &mut Scalars, op: Logical, wide: bool, d: u8, value: u64)
    requires { d < 32 }
    ensures value { s.new ≡ logical_to_x op wide d value s.old }
    ensures place { s.new.pc ≡ s.old.pc }
{
    match op {
        Logical::And | Logical::Orr | Logical::Eor => write_x(s, d, value),
        Logical::Ands => {
            write_x(s, d, value);
            write_flags(s, logical_flags(value, wide));
        }
    }
}

/// The result to a register, which may be SP where no flags are set.
#[inline(always)]
#[tactic(auto, unfolding(crate::specs::Logic::logical_to_sp))]
fn write_result_or_sp(s: &mut Scalars, op: Logical, wide: bool, d: u8, value: u64)
    requires { d < 32 }
    ensures value { s.new ≡ logical_to_sp op wide d value s.old }
    ensures place { s.new.pc ≡ s.old.pc }
{
    match op {
        Logical::And | Logical::Orr | Logical::Eor => write_x_or_sp(s, d, value),
        Logical::Ands => write_result(s, op, wide, d, value),
    }
}

/// The second operand: shifted, and then inverted where the instruction says so.
#[inline(always)]
fn operand(s: &Scalars, x: &LogicalRegister) -> u64
    requires { IsLogicalRegister x.now }
    ensures { result ≡ logical_operand x.now s.now }
{
    let shifted = shifted_operand(s, &x.operand, x.wide);
    if x.inverted {
        invert(shifted, x.wide)
    } else {
        shifted
    }
}

/// Combines a register with a shifted register.
#[inline(always)]
#[tactic(auto, unfolding(crate::specs::Logic::logical_register))]
pub fn exec_logical_register(s: &mut Scalars, x: &LogicalRegister)
    requires { IsLogicalRegister x.now }
    ensures value { s.new ≡ logical_register x.now s.old }
    ensures place { s.new.pc ≡ s.old.pc }
{
    let value = combine(x.op, register(s, x.rn, x.wide), operand(s, x));
    write_result(s, x.op, x.wide, x.rd, value);
}

/// A mask of one element of 64 bits.
#[inline(always)]
fn long_mask(imms: u8, immr: u8) -> u64
    requires imms { imms < 63 }
    requires immr { immr < 64 }
    ensures { result ≡ mask_of true imms immr true }
{
    let ones = power(u32::from(imms) + 1) - 1;
    ones.rotate_right(u32::from(immr))
}

/// A mask of one element of 32 bits.
#[inline(always)]
fn short_mask(imms: u8, immr: u8) -> u64
    requires imms { imms < 31 }
    requires immr { immr < 32 }
    ensures { result ≡ mask_of false imms immr false }
{
    let ones = power(u32::from(imms) + 1) - 1;
    let twice = shifted_field(ones, 32, 32) + ones;
    low_word(twice.rotate_right(u32::from(immr)), false)
}

/// The mask of the fields.
#[inline(always)]
fn mask(x: &LogicalImmediate) -> u64
    requires { IsLogicalImmediate x.now }
    ensures { result ≡ mask_of x.now.n x.now.imms x.now.immr x.now.wide }
{
    match (x.n, x.wide) {
        (true, true) => long_mask(x.imms, x.immr),
        (false, false) if x.imms < 32 => short_mask(x.imms, x.immr),
        _ => repeated_mask(x),
    }
}

/// The mask of the fields, whatever the length of its elements is.
fn repeated_mask(x: &LogicalImmediate) -> u64
    requires { IsLogicalImmediate x.now }
    ensures { result ≡ mask_of x.now.n x.now.imms x.now.immr x.now.wide }
{
    bit_mask(x.n, x.imms, x.immr, x.wide).unwrap_or(0)
}

/// Combines a register with a mask.
#[inline(always)]
#[tactic(auto, unfolding(crate::specs::Logic::logical_immediate))]
pub fn exec_logical_immediate(s: &mut Scalars, x: &LogicalImmediate)
    requires { IsLogicalImmediate x.now }
    ensures value { s.new ≡ logical_immediate x.now s.old }
    ensures place { s.new.pc ≡ s.old.pc }
{
    let value = combine(x.op, register(s, x.rn, x.wide), mask(x));
    write_result_or_sp(s, x.op, x.wide, x.rd, value);
}
