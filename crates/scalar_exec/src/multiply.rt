//! Multiplications.
ghost use Rattle.std.specs.Prelude.{◌≡◌, ◌*◌, ◌%◌, ◌<◌, ◌^◌, false, true, pos, ◌*ℤ◌};
ghost use Rattle.std.specs.Int.{int_div_euclid};
ghost use Rattle.bit_ops.specs.Sums.{signed_word, word_size};
ghost use Rattle.a64_table.specs.Ranges.{IsMultiply};
ghost use Rattle.scalar_exec.specs.Sources.{accumulated, long_product, high_product, multiply};

use crate::registers::{low_word, register, write_x};
use sm_types::{Multiply, Scalars};

/// The accumulator plus or less a product.
#[inline(always)]
#[tactic(auto, unfolding(crate::specs::Sources::accumulated))]
fn accumulate(a: u64, product: u64, subtract: bool, wide: bool) -> u64
    requires a { a < word_size wide }
    requires product { product < word_size wide }
    ensures { result ≡ accumulated subtract wide a product }
{
    if subtract {
        low_word(a.wrapping_sub(product), wide)
    } else {
        low_word(a.wrapping_add(product), wide)
    }
}

/// The low word of the product of two words.
#[inline(always)]
fn low_product(n: u64, m: u64, wide: bool) -> u64
    requires n { n < word_size wide }
    requires m { m < word_size wide }
    ensures value { result ≡ n * m % word_size wide }
    ensures small { result < word_size wide }
{
    low_word(n.wrapping_mul(m), wide)
}

/// A word of 32 bits as a signed number.
#[inline(always)]
fn signed_narrow(n: u64) -> i64
    requires { n < 2 ^ 32 }
    ensures { result ≡ signed_word false n }
{
    i64::from((n as u32).cast_signed())
}

/// The product of two words of 64 bits as signed numbers.
#[inline(always)]
fn wide_product(n: u64, m: u64) -> i128
    ensures { result ≡ signed_word true n *ℤ signed_word true m }
{
    i128::from(n.cast_signed()) * i128::from(m.cast_signed())
}

/// The upper 64 bits of a number of 128.
#[inline(always)]
fn upper_word(both: i128) -> i64
    ensures { result ≡ int_div_euclid both (pos (2 ^ 64)) }
{
    (both >> 64) as i64
}

/// The product of two words of 32 bits.
#[inline(always)]
#[tactic(auto, unfolding(crate::specs::Sources::long_product))]
fn product(n: u64, m: u64, signed: bool) -> u64
    requires n { n < 2 ^ 32 }
    requires m { m < 2 ^ 32 }
    ensures { result ≡ long_product signed n m }
{
    if signed {
        (signed_narrow(n) * signed_narrow(m)).cast_unsigned()
    } else {
        n * m
    }
}

/// The upper 64 bits of the product of two words of 64 bits.
#[inline(always)]
#[tactic(auto, unfolding(crate::specs::Sources::high_product))]
fn upper_product(n: u64, m: u64, signed: bool) -> u64
    ensures { result ≡ high_product signed n m }
{
    if signed {
        upper_word(wide_product(n, m)).cast_unsigned()
    } else {
        ((u128::from(n) * u128::from(m)) >> 64) as u64
    }
}

/// Multiplies registers.
#[inline(always)]
#[tactic(auto, unfolding(crate::specs::Sources::multiply))]
pub fn exec_multiply(s: &mut Scalars, x: &Multiply)
    requires { IsMultiply x.now }
    ensures value { s.new ≡ multiply x.now s.old }
    ensures place { s.new.pc ≡ s.old.pc }
{
    match x {
        Multiply::Same {
            subtract,
            wide,
            rm,
            ra,
            rn,
            rd,
        } => {
            let product = low_product(register(s, *rn, *wide), register(s, *rm, *wide), *wide);
            let value = accumulate(register(s, *ra, *wide), product, *subtract, *wide);
            write_x(s, *rd, value);
        }
        Multiply::Long {
            subtract,
            signed,
            rm,
            ra,
            rn,
            rd,
        } => {
            let product = product(register(s, *rn, false), register(s, *rm, false), *signed);
            let value = accumulate(register(s, *ra, true), product, *subtract, true);
            write_x(s, *rd, value);
        }
        Multiply::High { signed, rm, rn, rd } => {
            let value = upper_product(register(s, *rn, true), register(s, *rm, true), *signed);
            write_x(s, *rd, value);
        }
    }
}
