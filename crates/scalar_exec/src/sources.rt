//! Data processing of one and two registers.
ghost use Rattle.std.specs.Prelude.{◌≡◌, ◌%◌, ◌<◌, true};
ghost use Rattle.sm_types.specs.declared.insn.OneSourceOp.TheVariants.{Rev64};
ghost use Rattle.bit_ops.specs.Sums.{word_size};
ghost use Rattle.bit_ops.specs.Bits.{width_of};
ghost use Rattle.bit_ops.specs.Reversals.{reversed_bits};
ghost use Rattle.bit_ops.specs.Shifts.{shifted};
ghost use Rattle.a64_table.specs.Ranges.{IsOneSource, IsTwoSource};
ghost use Rattle.scalar_exec.specs.Sources.{one_source_value, one_source, quotient, signed_quotient};
ghost use Rattle.scalar_exec.specs.Sources.{two_source_value, two_source};

use crate::fields::width;
use crate::registers::{register, write_x};
use bit_ops::{ShiftKind, count_signs, count_zeros, reverse_bits, reverse_bytes, shift};
use sm_types::{OneSource, OneSourceOp, Scalars, TwoSource, TwoSourceOp};

/// The bits of the word in reverse: of a wide one by its halves, as that of 32 bits is made without a loop.
#[inline(always)]
fn reverse(value: u64, wide: bool) -> u64
    requires { value < word_size wide }
    ensures { result ≡ reversed_bits wide value }
{
    let low = reverse_bits(value, false);
    if wide {
        let high = reverse_bits(value >> 32, false);
        (low << 32) + high
    } else {
        low
    }
}

/// The bits of the word or the bytes of its groups in reverse, or a count from its top.
#[inline(always)]
#[tactic(auto, unfolding(crate::specs::Sources::one_source_value))]
fn one_value(op: OneSourceOp, value: u64, wide: bool) -> u64
    requires value { value < word_size wide }
    requires doubleword { op ≡ Rev64 → wide ≡ true }
    ensures { result ≡ one_source_value op wide value }
{
    match op {
        OneSourceOp::Rbit => reverse(value, wide),
        OneSourceOp::Rev16 => reverse_bytes(value, 2, wide),
        OneSourceOp::Rev32 => reverse_bytes(value, 4, wide),
        OneSourceOp::Rev64 => reverse_bytes(value, 8, wide),
        OneSourceOp::Clz => u64::from(count_zeros(value, wide)),
        OneSourceOp::Cls => u64::from(count_signs(value, wide)),
    }
}

/// Reverses or counts the bits of a register.
#[tactic(auto, unfolding(crate::specs::Sources::one_source))]
pub fn exec_one_source(s: &mut Scalars, x: &OneSource)
    requires { IsOneSource x.now }
    ensures value { s.new ≡ one_source x.now s.old }
    ensures place { s.new.pc ≡ s.old.pc }
{
    let value = one_value(x.op, register(s, x.rn, x.wide), x.wide);
    write_x(s, x.rd, value);
}

/// The quotient of two words; 0 where the divisor is 0.
#[inline(always)]
#[tactic(auto, unfolding(crate::specs::Sources::quotient))]
fn divide(n: u64, m: u64) -> u64
    ensures { result ≡ quotient n m }
{
    if m == 0 { 0 } else { n / m }
}

/// The quotient of two signed words, rounded towards zero; 0 where the divisor is 0.
#[inline(always)]
#[tactic(auto, unfolding(crate::specs::Sources::signed_quotient))]
fn divide_signed(n: u64, m: u64, wide: bool) -> u64
    requires n { n < word_size wide }
    requires m { m < word_size wide }
    ensures { result ≡ signed_quotient wide n m }
{
    if m == 0 {
        0
    } else if wide {
        n.cast_signed()
            .wrapping_div(m.cast_signed())
            .cast_unsigned()
    } else {
        u64::from(
            (n as u32)
                .cast_signed()
                .wrapping_div((m as u32).cast_signed())
                .cast_unsigned(),
        )
    }
}

/// A shift of the first word by the second, modulo the width.
#[inline(always)]
fn shift_by(n: u64, m: u64, kind: ShiftKind, wide: bool) -> u64
    requires n { n < word_size wide }
    ensures { result ≡ shifted kind wide n (m % width_of wide) }
{
    shift(n, kind, (m % u64::from(width(wide))) as u32, wide)
}

/// A quotient or a shift.
#[inline(always)]
#[tactic(auto, unfolding(crate::specs::Sources::two_source_value))]
fn two_value(op: TwoSourceOp, n: u64, m: u64, wide: bool) -> u64
    requires n { n < word_size wide }
    requires m { m < word_size wide }
    ensures { result ≡ two_source_value op wide n m }
{
    match op {
        TwoSourceOp::Udiv => divide(n, m),
        TwoSourceOp::Sdiv => divide_signed(n, m, wide),
        TwoSourceOp::Lslv => shift_by(n, m, ShiftKind::Lsl, wide),
        TwoSourceOp::Lsrv => shift_by(n, m, ShiftKind::Lsr, wide),
        TwoSourceOp::Asrv => shift_by(n, m, ShiftKind::Asr, wide),
        TwoSourceOp::Rorv => shift_by(n, m, ShiftKind::Ror, wide),
    }
}

/// Divides, or shifts by a register.
#[inline(always)]
#[tactic(auto, unfolding(crate::specs::Sources::two_source))]
pub fn exec_two_source(s: &mut Scalars, x: &TwoSource)
    requires { IsTwoSource x.now }
    ensures value { s.new ≡ two_source x.now s.old }
    ensures place { s.new.pc ≡ s.old.pc }
{
    let n = register(s, x.rn, x.wide);
    let m = register(s, x.rm, x.wide);
    let value = two_value(x.op, n, m, x.wide);
    write_x(s, x.rd, value);
}
