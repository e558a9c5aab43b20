//! Counts from the top of an element.
ghost use Rattle.std.specs.Prelude.{◌≡◌, ◌/◌, ◌%◌, ◌<◌, bit_xor};
ghost use Rattle.std.specs.Int.Count.{count_leading_zeros};
ghost use Rattle.vector_elements.specs.Numbers.{bits_in, range_of, half_of};
ghost use Rattle.sve_exec.specs.Unary.{leading_signs};

use vector_elements::Size;

/// The zeros above the highest one of an element, and its width where there is none.
#[inline(always)]
pub fn leading_zeros(size: Size, a: u64) -> u64
    requires { a < range_of size }
    ensures { result ≡ count_leading_zeros (bits_in size) a }
{
    match size {
        Size::B => u64::from((a as u8).leading_zeros()),
        Size::H => u64::from((a as u16).leading_zeros()),
        Size::S => u64::from((a as u32).leading_zeros()),
        Size::D => u64::from(a.leading_zeros()),
    }
}

/// An element without its top bit.
#[inline(always)]
fn without_top(size: Size, a: u64) -> u64
    requires { a < range_of size }
    ensures value { result ≡ a % half_of size }
    ensures small { result < half_of size }
{
    match size {
        Size::B => a & 0x7f,
        Size::H => a & 0x7fff,
        Size::S => a & 0x7fff_ffff,
        Size::D => a & 0x7fff_ffff_ffff_ffff,
    }
}

/// The bits above the lowest, each exclusive or the one below it.
#[inline(always)]
fn changes(size: Size, a: u64) -> u64
    requires { a < range_of size }
    ensures value { result ≡ bit_xor (a / 2) (a % half_of size) }
    ensures small { result < half_of size }
{
    (a >> 1) ^ without_top(size, a)
}

/// The bits below the top one of an element that equal it without a break.
#[inline(always)]
pub fn leading_signs(size: Size, a: u64) -> u64
    requires { a < range_of size }
    ensures { result ≡ leading_signs size a }
{
    leading_zeros(size, changes(size, a)) - 1
}
