//! Registers by number.
ghost use Rattle.std.specs.Prelude.{◌≡◌, ◌%◌, ◌<◌};
ghost use Rattle.bit_ops.specs.Sums.{word_size};
ghost use Rattle.scalar_exec.specs.Registers.{x_of, x_or_sp, register_of, register_or_sp, with_x};
ghost use Rattle.scalar_exec.specs.Registers.{with_x_or_sp, with_flags, next_address};

use bit_ops::Nzcv;
use sm_types::Scalars;

/// The word of a value: all of it where `wide`, else its low 32 bits.
#[inline(always)]
pub fn low_word(value: u64, wide: bool) -> u64
    ensures value { result ≡ value % word_size wide }
    ensures small { result < word_size wide }
{
    if wide { value } else { value & 0xffff_ffff }
}

/// The 64 bits of the register; number 31 is zero.
#[inline(always)]
#[tactic(auto, unfolding(crate::specs::Registers::x_of))]
pub fn read_x(s: &Scalars, n: u8) -> u64
    requires { n < 32 }
    ensures { result ≡ x_of s.now n }
{
    if n == 31 { 0 } else { s.x[n as usize] }
}

/// The 64 bits of the register; number 31 is SP.
#[inline(always)]
#[tactic(auto, unfolding(crate::specs::Registers::x_or_sp))]
pub fn read_x_or_sp(s: &Scalars, n: u8) -> u64
    requires { n < 32 }
    ensures { result ≡ x_or_sp s.now n }
{
    if n == 31 { s.sp } else { s.x[n as usize] }
}

/// The register of the width; number 31 is zero.
#[inline(always)]
pub fn register(s: &Scalars, n: u8, wide: bool) -> u64
    requires { n < 32 }
    ensures value { result ≡ register_of wide s.now n }
    ensures small { result < word_size wide }
{
    low_word(read_x(s, n), wide)
}

/// The register of the width; number 31 is SP.
#[inline(always)]
pub fn register_or_sp(s: &Scalars, n: u8, wide: bool) -> u64
    requires { n < 32 }
    ensures value { result ≡ register_or_sp wide s.now n }
    ensures small { result < word_size wide }
{
    low_word(read_x_or_sp(s, n), wide)
}

/// Writes a register; number 31 keeps nothing.
#[inline(always)]
#[tactic(auto, unfolding(crate::specs::Registers::with_x))]
pub fn write_x(s: &mut Scalars, d: u8, value: u64)
    requires { d < 32 }
    ensures value { s.new ≡ with_x s.old d value }
    ensures place { s.new.pc ≡ s.old.pc }
{
    if d != 31 {
        s.x[d as usize] = value;
    }
}

/// Writes a register; number 31 is SP.
#[inline(always)]
#[tactic(auto, unfolding(crate::specs::Registers::with_x_or_sp))]
pub fn write_x_or_sp(s: &mut Scalars, d: u8, value: u64)
    requires { d < 32 }
    ensures value { s.new ≡ with_x_or_sp s.old d value }
    ensures place { s.new.pc ≡ s.old.pc }
{
    if d == 31 {
        s.sp = value;
    } else {
        s.x[d as usize] = value;
    }
}

/// Sets the four flags.
#[inline(always)]
#[tactic(auto, unfolding(crate::specs::Registers::with_flags))]
pub fn write_flags(s: &mut Scalars, flags: Nzcv)
    ensures value { s.new ≡ with_flags s.old flags }
    ensures place { s.new.pc ≡ s.old.pc }
{
    s.n = flags.n;
    s.z = flags.z;
    s.c = flags.c;
    s.v = flags.v;
}

/// The address of the next instruction.
#[inline(always)]
pub fn next_address(pc: u64) -> u64
    ensures { result ≡ next_address pc }
{
    pc.wrapping_add(4)
}
