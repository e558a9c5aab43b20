//! The values that accesses read and write.
ghost use Rattle.std.specs.Prelude.{◌≡◌, ◌-◌, ◌*◌, ◌^◌, ◌<◌, ◌≤◌, IsTrue, pos, ◌<ℤ◌, ◌≤ℤ◌, ◌+ℤ◌, ◌-ℤ◌};
ghost use Rattle.std.specs.Prelude.{int_lt, int_le, if◌then◌else◌};
ghost use Rattle.a64_table.specs.Ranges.{has_size};
ghost use Rattle.mem_access.specs.Access.{bytes_in};
ghost use Rattle.mem_access.specs.Values.{loaded, literal_loaded, low_bytes, signed_bytes, updated};

use crate::access::bytes_in;
use scalar_exec::extend_sign;
use sm_types::{AccessSize, AtomicOp, LoadLiteralOp, LoadStoreOp};

/// How many bits the bytes have.
#[inline(always)]
fn bits_in(size: AccessSize) -> u32
    ensures value { result ≡ 8 * bytes_in size }
    ensures some { 8 ≤ result }
    ensures small { result ≤ 64 }
{
    match size {
        AccessSize::Byte => 8,
        AccessSize::Halfword => 16,
        AccessSize::Word => 32,
        AccessSize::Doubleword => 64,
    }
}

/// The register that a load gives.
#[inline(always)]
#[tactic(auto, unfolding(crate::specs::Values::loaded))]
pub fn loaded(op: LoadStoreOp, size: AccessSize, value: u64) -> u64
    requires { IsTrue (has_size op size) }
    ensures { result ≡ loaded op (bytes_in size) value }
{
    match op {
        LoadStoreOp::Store | LoadStoreOp::Load => value,
        LoadStoreOp::LoadSignedTo64 => extend_sign(value, bits_in(size), true),
        LoadStoreOp::LoadSignedTo32 => extend_sign(value, bits_in(size), false),
    }
}

/// The register that a load from beside the program counter gives.
#[inline(always)]
#[tactic(auto, unfolding(crate::specs::Values::literal_loaded))]
pub fn literal_loaded(op: LoadLiteralOp, value: u64) -> u64
    ensures { result ≡ literal_loaded op value }
{
    match op {
        LoadLiteralOp::Word | LoadLiteralOp::Doubleword => value,
        LoadLiteralOp::SignedWord => extend_sign(value, 32, true),
    }
}

/// The low bytes of a register.
#[inline(always)]
pub fn low_bytes(size: AccessSize, value: u64) -> u64
    ensures value { result ≡ low_bytes (bytes_in size) value }
    ensures small { result < 2 ^ (8 * bytes_in size) }
{
    match size {
        AccessSize::Byte => value % 0x100,
        AccessSize::Halfword => value % 0x1_0000,
        AccessSize::Word => value % 0x1_0000_0000,
        AccessSize::Doubleword => value,
    }
}

/// A number below 2^32 of so many bits in two's complement.
#[inline(always)]
fn signed_narrow(value: u64, half: i64) -> i64
    requires half { pos 0 <ℤ half }
    requires narrow { half ≤ℤ pos (2 ^ 31) }
    requires small { pos value <ℤ (half +ℤ half) }
    ensures { result ≡ (if int_lt (pos value) half then pos value else pos value -ℤ (half +ℤ half)) }
{
    let number = value as i64;
    if number < half {
        number
    } else {
        number - 2 * half
    }
}

/// The number of the bytes in two's complement.
#[inline(always)]
#[tactic(auto, unfolding(insn_forms::specs::Fields::signed_value))]
fn signed_bytes(size: AccessSize, value: u64) -> i64
    requires { value < 2 ^ (8 * bytes_in size) }
    ensures { result ≡ signed_bytes (bytes_in size) value }
{
    match size {
        AccessSize::Byte => signed_narrow(value, 0x80),
        AccessSize::Halfword => signed_narrow(value, 0x8000),
        AccessSize::Word => signed_narrow(value, 0x8000_0000),
        AccessSize::Doubleword => value.cast_signed(),
    }
}

/// Every bit of the bytes inverted.
#[inline(always)]
fn inverted(size: AccessSize, value: u64) -> u64
    requires { value < 2 ^ (8 * bytes_in size) }
    ensures { result ≡ 2 ^ (8 * bytes_in size) - 1 - value }
{
    match size {
        AccessSize::Byte => 0xff - value,
        AccessSize::Halfword => 0xffff - value,
        AccessSize::Word => 0xffff_ffff - value,
        AccessSize::Doubleword => u64::MAX - value,
    }
}

/// Tells whether the first of two numbers in two's complement is at most the second.
#[inline(always)]
fn is_at_most(size: AccessSize, old: u64, value: u64) -> bool
    requires old { old < 2 ^ (8 * bytes_in size) }
    requires value { value < 2 ^ (8 * bytes_in size) }
    ensures { result ≡ int_le (signed_bytes (bytes_in size) old) (signed_bytes (bytes_in size) value) }
{
    signed_bytes(size, old) <= signed_bytes(size, value)
}

/// What an atomic operation leaves in memory.
#[inline(always)]
#[tactic(auto, unfolding(crate::specs::Values::updated))]
pub fn updated(op: AtomicOp, size: AccessSize, old: u64, value: u64) -> u64
    requires old { old < 2 ^ (8 * bytes_in size) }
    requires value { value < 2 ^ (8 * bytes_in size) }
    ensures { result ≡ updated op (bytes_in size) old value }
{
    match op {
        AtomicOp::Add => low_bytes(size, old.wrapping_add(value)),
        AtomicOp::Clear => old & inverted(size, value),
        AtomicOp::Eor => old ^ value,
        AtomicOp::Set => old | value,
        AtomicOp::Smax if is_at_most(size, old, value) => value,
        AtomicOp::Smax => old,
        AtomicOp::Smin if is_at_most(size, old, value) => old,
        AtomicOp::Smin => value,
        AtomicOp::Umax => old.max(value),
        AtomicOp::Umin => old.min(value),
    }
}
