//! The predicates of loops.
ghost use Rattle.std.specs.Prelude.{◌≡◌, ℕ, ◌*◌, ◌/◌, ◌≤◌, ◌<◌, pos, ◌+ℤ◌, int_lt, nat_lt, true, length};
ghost use Rattle.std.specs.Prelude.{replicate};
ghost use Rattle.vector_elements.specs.Elements.{active_of};
ghost use Rattle.vector_elements.specs.Numbers.{bytes_in};
ghost use Rattle.predicates.specs.Flags.{flags_of};
ghost use Rattle.predicates.specs.Loops.{register_size, while_at, while_predicate};

use crate::flags::result_flags;
use crate::pattern_predicate::put_below;
use bit_ops::Nzcv;
use vector_elements::{Size, low_bits, signed};

/// How many numbers from `n` on are below `m`.
#[inline(always)]
fn gap(n: u64, m: u64) -> u64
    ensures { (i : ℕ) → nat_lt i result ≡ int_lt (pos n +ℤ pos i) (pos m) }
{
    m.saturating_sub(n)
}

/// How many signed numbers from `n` on are below `m`.
#[inline(always)]
fn signed_gap(n: i64, m: i64) -> u64
    ensures { (i : ℕ) → nat_lt i result ≡ int_lt (n +ℤ pos i) m }
{
    if n < m { m.abs_diff(n) } else { 0 }
}

/// The size of a register's number.
#[inline(always)]
fn register_size(wide: bool) -> Size
    ensures { result ≡ register_size wide }
{
    if wide { Size::D } else { Size::S }
}

/// How many elements hold: those before the first that does not.
#[inline(always)]
#[tactic(auto, unfolding(crate::specs::Loops::while_at, crate::specs::Loops::register_number))]
fn while_limit(is_signed: bool, wide: bool, n: u64, m: u64) -> u64
    ensures { (i : ℕ) → nat_lt i result ≡ while_at is_signed wide n m i }
{
    let size = register_size(wide);
    let n = low_bits(size, n);
    let m = low_bits(size, m);
    if is_signed {
        signed_gap(signed(size, n), signed(size, m))
    } else {
        gap(n, m)
    }
}

/// The flags of a predicate over all of its elements.
#[inline]
fn flags_of_all(size: Size, pd: &[u8]) -> Nzcv
    requires { length pd.now ≤ 32 }
    ensures { result ≡
        flags_of (replicate (8 * length pd.now / bytes_in size) true) (active_of (bytes_in size) pd.now) }
{
    let all = [0xffu8; 32];
    result_flags(size, &all[..pd.len()], pd)
}

/// Makes element `i` true where `n + i` is below `m`, as whole numbers without a wrap: 64 bits of both where
/// `wide`, else the low 32, with a sign or without. The flags are of all elements.
/// Source: DDI 0487, C8.2, WHILELT, WHILELO (predicate).
pub fn predicate_while(
    is_signed: bool,
    wide: bool,
    size: Size,
    pd: &mut [u8],
    n: u64,
    m: u64,
) -> Nzcv
    requires { length pd.old ≤ 32 }
    ensures value { pd.new ≡ while_predicate is_signed wide size (length pd.old) n m }
    ensures flags { result ≡
        flags_of (replicate (8 * length pd.new / bytes_in size) true) (active_of (bytes_in size) pd.new) }
{
    let limit = while_limit(is_signed, wide, n, m);
    put_below(limit, size, pd);
    flags_of_all(size, pd)
}
