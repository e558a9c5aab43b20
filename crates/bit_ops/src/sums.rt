//! The sum of two words and a carry, with its flags.
ghost use Rattle.std.specs.Prelude.{◌≡◌, ◌%◌, false, true};
ghost use Rattle.bit_ops.specs.Sums.{IsSum, bool_number, sum_flags, sum_of, word_size};

/// The flags of a result: negative, zero, carry out and signed overflow.
#[derive(Clone, Copy, Debug, PartialEq, Eq)]
pub struct Nzcv {
    pub n: bool,
    pub z: bool,
    pub c: bool,
    pub v: bool,
}

/// The sum of two words and a carry, with its flags: words of 64 bits where `wide`, else the low 32 bits
/// of `a` and `b`, and the upper half of the sum is zero.
#[inline(always)]
#[tactic(auto, unfolding(crate::specs::Sums::sum_of, crate::specs::Sums::sum_flags))]
pub fn add_carry(a: u64, b: u64, carry: bool, wide: bool) -> (u64, Nzcv)
    ensures sum { result.0 ≡ sum_of wide (a % word_size wide) (b % word_size wide) (bool_number carry) }
    ensures flags { result.1 ≡ sum_flags wide (a % word_size wide) (b % word_size wide) (bool_number carry) }
    ensures facts { IsSum wide (a % word_size wide) (b % word_size wide) (bool_number carry)
        result.0 result.1 }
{
    if wide {
        add_wide(a, b, carry)
    } else {
        let (sum, flags) = add_narrow((a & 0xffff_ffff) as u32, (b & 0xffff_ffff) as u32, carry);
        (u64::from(sum), flags)
    }
}

/// The sum of two words of 64 bits and a carry.
#[inline(always)]
#[tactic(auto, unfolding(crate::specs::Sums::sum_of, crate::specs::Sums::sum_flags))]
fn add_wide(a: u64, b: u64, carry: bool) -> (u64, Nzcv)
    ensures sum { result.0 ≡ sum_of true a b (bool_number carry) }
    ensures flags { result.1 ≡ sum_flags true a b (bool_number carry) }
    ensures facts { IsSum true a b (bool_number carry) result.0 result.1 }
{
    let sum = a.wrapping_add(b).wrapping_add(u64::from(carry));
    let n = sum >= 1 << 63;
    let z = sum == 0;
    let c = sum < a || carry && sum == a;
    let v = (a >= 1 << 63) == (b >= 1 << 63) && (a >= 1 << 63) != n;
    (sum, Nzcv { n, z, c, v })
}

/// The sum of two words of 32 bits and a carry.
#[inline(always)]
#[tactic(auto, unfolding(crate::specs::Sums::sum_of, crate::specs::Sums::sum_flags))]
fn add_narrow(a: u32, b: u32, carry: bool) -> (u32, Nzcv)
    ensures sum { result.0 ≡ sum_of false a b (bool_number carry) }
    ensures flags { result.1 ≡ sum_flags false a b (bool_number carry) }
    ensures facts { IsSum false a b (bool_number carry) result.0 result.1 }
{
    let sum = a.wrapping_add(b).wrapping_add(u32::from(carry));
    let n = sum >= 1 << 31;
    let z = sum == 0;
    let c = sum < a || carry && sum == a;
    let v = (a >= 1 << 31) == (b >= 1 << 31) && (a >= 1 << 31) != n;
    (sum, Nzcv { n, z, c, v })
}
