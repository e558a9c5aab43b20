//! Bit fields of words.
ghost use Rattle.std.specs.Prelude.{◌≡◌, ◌+◌, ◌-◌, ◌*◌, ◌/◌, ◌%◌, ◌<◌, ◌≤◌, ◌^◌};
ghost use Rattle.bit_ops.specs.Sums.{word_size};
ghost use Rattle.bit_ops.specs.Bits.{width_of};
ghost use Rattle.scalar_exec.specs.Moves.{with_field};

/// A field of so many bits.
#[inline(always)]
pub fn field_at(value: u64, low: u32, count: u32) -> u64
    requires low { low < 64 }
    requires some { 0 < count }
    requires count { count ≤ 64 }
    ensures value { result ≡ value / 2 ^ low % 2 ^ count }
    ensures small { result < 2 ^ count }
{
    value >> low & u64::MAX >> (64 - count)
}

/// A field of so many bits, at a place.
#[inline(always)]
pub fn shifted_field(field: u64, count: u32, place: u32) -> u64
    requires field { field < 2 ^ count }
    requires some { 0 < count }
    requires room { place + count ≤ 64 }
    ensures value { result ≡ field * 2 ^ place }
    ensures small { result + 2 ^ place ≤ 2 ^ (place + count) }
{
    field << place
}

/// The bits from a place on.
#[inline(always)]
#[tactic(auto, using(crate::proofs::Parts::high_room))]
fn high_part(value: u64, top: u32) -> u64
    requires { top ≤ 64 }
    ensures value { result ≡ value / 2 ^ top * 2 ^ top }
    ensures small { result + 2 ^ top ≤ 2 ^ 64 }
{
    if top == 64 { 0 } else { (value >> top) << top }
}

/// The bits below a place.
#[inline(always)]
pub fn low_part(value: u64, place: u32) -> u64
    requires { place < 64 }
    ensures value { result ≡ value % 2 ^ place }
    ensures small { result < 2 ^ place }
{
    value & (1 << place) - 1
}

/// Ones from a place on, to the top of the word.
#[inline(always)]
pub fn ones_above(wide: bool, top: u32) -> u64
    requires { top ≤ width_of wide }
    ensures { result ≡ word_size wide - 2 ^ top }
{
    if wide {
        if top == 64 {
            0
        } else {
            u64::MAX - ((1 << top) - 1)
        }
    } else {
        (1 << 32) - (1 << top)
    }
}

/// The old word with the bits from a place on replaced by the field.
#[inline(always)]
#[tactic(auto, unfolding(crate::specs::Moves::with_field))]
pub fn insert(field: u64, count: u32, place: u32, old: u64) -> u64
    requires field { field < 2 ^ count }
    requires some { 0 < count }
    requires room { place + count ≤ 64 }
    ensures { result ≡ with_field place count field old }
{
    high_part(old, place + count) + shifted_field(field, count, place) + low_part(old, place)
}

/// How many bits a word has.
#[inline(always)]
pub fn width(wide: bool) -> u32
    ensures value { result ≡ width_of wide }
    ensures small { result ≤ 64 }
{
    if wide { 64 } else { 32 }
}

/// The power of two.
#[inline(always)]
pub fn power(exponent: u32) -> u64
    requires { exponent < 64 }
    ensures { result ≡ 2 ^ exponent }
{
    1 << exponent
}
