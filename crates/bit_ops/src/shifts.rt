//! Shifts and rotations.
ghost use Rattle.std.specs.Prelude.{◌≡◌, ◌%◌, ◌<◌};
ghost use Rattle.bit_ops.specs.Sums.{word_size};
ghost use Rattle.bit_ops.specs.Bits.{width_of};
ghost use Rattle.bit_ops.specs.Shifts.{shifted};
ghost use Rattle.bit_ops.specs.declared.shifts.ShiftKind.TheVariants.{Asr, Ror};

use crate::words::low_word;

/// The shifts of a word: left, right by zeros, right by the sign, and rotation to the right.
#[derive(Clone, Copy, Debug, PartialEq, Eq)]
pub enum ShiftKind {
    Lsl,
    Lsr,
    Asr,
    Ror,
}

/// The word, shifted by `amount` bits: a word of 64 bits where `wide`, else the low 32 bits of `value`,
/// and the upper half of the result is zero.
#[inline(always)]
#[tactic(auto, unfolding(crate::specs::Shifts::shifted))]
pub fn shift(value: u64, kind: ShiftKind, amount: u32, wide: bool) -> u64
    requires { amount < width_of wide }
    ensures value { result ≡ shifted kind wide (value % word_size wide) amount }
    ensures word { result < word_size wide }
{
    let word = low_word(value, wide);
    match kind {
        ShiftKind::Lsl => low_word(word << amount, wide),
        ShiftKind::Lsr => word >> amount,
        ShiftKind::Asr => shift_by_sign(word, amount, wide),
        ShiftKind::Ror => rotate(word, amount, wide),
    }
}

/// The word over 2 ^ amount, as a signed number that is rounded down.
#[inline(always)]
#[tactic(auto, unfolding(crate::specs::Shifts::shifted))]
fn shift_by_sign(word: u64, amount: u32, wide: bool) -> u64
    requires amount { amount < width_of wide }
    requires small { word < word_size wide }
    ensures value { result ≡ shifted Asr wide word amount }
    ensures word { result < word_size wide }
{
    if wide {
        (word.cast_signed() >> amount).cast_unsigned()
    } else {
        u64::from(((word as u32).cast_signed() >> amount).cast_unsigned())
    }
}

/// The word, rotated to the right.
#[inline(always)]
#[tactic(auto, unfolding(crate::specs::Shifts::shifted))]
fn rotate(word: u64, amount: u32, wide: bool) -> u64
    requires amount { amount < width_of wide }
    requires small { word < word_size wide }
    ensures value { result ≡ shifted Ror wide word amount }
    ensures word { result < word_size wide }
{
    if wide {
        word.rotate_right(amount)
    } else {
        u64::from((word as u32).rotate_right(amount))
    }
}
