//! The second operands of the data processing instructions.
ghost use Rattle.std.specs.Prelude.{◌≡◌, ◌<◌, ◌≤◌};
ghost use Rattle.bit_ops.specs.Sums.{word_size};
ghost use Rattle.a64_table.specs.Ranges.{IsShiftedRegister, IsExtendedRegister};
ghost use Rattle.scalar_exec.specs.Operands.{inverted, shift_of, shift_reg, sign_extend, extended};
ghost use Rattle.scalar_exec.specs.Operands.{extend_reg};

use crate::fields::{low_part, ones_above, power};
use crate::registers::{low_word, read_x, register};
use bit_ops::shift;
use sm_types::{Extend, ExtendedRegister, Scalars, ShiftKind, ShiftedRegister};

/// Every bit of a word inverted.
#[inline(always)]
pub fn invert(value: u64, wide: bool) -> u64
    requires { value < word_size wide }
    ensures value { result ≡ inverted wide value }
    ensures small { result < word_size wide }
{
    if wide {
        u64::MAX - value
    } else {
        0xffff_ffff - value
    }
}

/// The shift of an operand.
#[inline(always)]
fn shift_kind(kind: ShiftKind) -> bit_ops::ShiftKind
    ensures { result ≡ shift_of kind }
{
    match kind {
        ShiftKind::Lsl => bit_ops::ShiftKind::Lsl,
        ShiftKind::Lsr => bit_ops::ShiftKind::Lsr,
        ShiftKind::Asr => bit_ops::ShiftKind::Asr,
        ShiftKind::Ror => bit_ops::ShiftKind::Ror,
    }
}

/// The register, shifted.
#[inline(always)]
pub fn shifted_operand(s: &Scalars, x: &ShiftedRegister, wide: bool) -> u64
    requires { IsShiftedRegister wide x.now }
    ensures value { result ≡ shift_reg wide x.now s.now }
    ensures small { result < word_size wide }
{
    let kind = shift_kind(x.shift);
    shift(read_x(s, x.rm), kind, u32::from(x.amount), wide)
}

/// The low bits of a value with the top one of them in all places above, to a word.
#[inline(always)]
#[tactic(auto, unfolding(crate::specs::Operands::sign_extend))]
pub fn extend_sign(value: u64, from: u32, wide: bool) -> u64
    requires some { 0 < from }
    requires from { from ≤ 32 }
    ensures value { result ≡ sign_extend from wide value }
    ensures small { result < word_size wide }
{
    let low = low_part(value, from);
    if low < power(from - 1) {
        low
    } else {
        ones_above(wide, from) + low
    }
}

/// The low bits of a value, extended to a word.
#[inline(always)]
#[tactic(auto, unfolding(crate::specs::Operands::extended))]
pub fn extend(value: u64, kind: Extend, wide: bool) -> u64
    ensures value { result ≡ extended kind wide value }
    ensures small { result < word_size wide }
{
    match kind {
        Extend::Uxtb => value & 0xff,
        Extend::Uxth => value & 0xffff,
        Extend::Uxtw => value & 0xffff_ffff,
        Extend::Uxtx => low_word(value, wide),
        Extend::Sxtb => extend_sign(value, 8, wide),
        Extend::Sxth => extend_sign(value, 16, wide),
        Extend::Sxtw => extend_sign(value, 32, wide),
        Extend::Sxtx => low_word(value, wide),
    }
}

/// The register, extended and then shifted left within the word.
#[inline(always)]
#[tactic(auto, unfolding(crate::specs::Operands::extend_reg))]
pub fn extended_operand(s: &Scalars, x: &ExtendedRegister, wide: bool) -> u64
    requires { IsExtendedRegister x.now }
    ensures value { result ≡ extend_reg wide x.now s.now }
    ensures small { result < word_size wide }
{
    low_word(extend(read_x(s, x.rm), x.extend, wide) << x.amount, wide)
}
