//! Bits and bytes in reverse.
ghost use Rattle.std.specs.Prelude.{◌≡◌, ◌%◌, ◌<◌, ◌⊎◌, true};
ghost use Rattle.bit_ops.specs.Sums.{word_size};
ghost use Rattle.bit_ops.specs.Reversals.{reversed_bits, reversed_bytes};

use crate::words::low_word;

/// The bits of the word in reverse: of 64 bits where `wide`, else of the low 32, and the upper half of the
/// result is zero.
pub fn reverse_bits(value: u64, wide: bool) -> u64
    ensures value { result ≡ reversed_bits wide (value % word_size wide) }
    ensures word { result < word_size wide }
{
    if wide {
        value.reverse_bits()
    } else {
        u64::from(((value & 0xffff_ffff) as u32).reverse_bits())
    }
}

/// The bytes in each group of `group` bytes of the word in reverse: of 64 bits where `wide`, else of the low
/// 32, and the upper half of the result is zero.
pub fn reverse_bytes(value: u64, group: u32, wide: bool) -> u64
    requires group { (group ≡ 2) ⊎ ((group ≡ 4) ⊎ (group ≡ 8)) }
    requires fits { group ≡ 8 → wide ≡ true }
    ensures value { result ≡ reversed_bytes group wide (value % word_size wide) }
    ensures word { result < word_size wide }
{
    let word = low_word(value, wide);
    if group == 2 {
        reverse_halfwords(word)
    } else if group == 4 {
        reverse_words(word)
    } else {
        word.swap_bytes()
    }
}

/// The bytes of each halfword in reverse.
fn reverse_halfwords(word: u64) -> u64
    ensures { result ≡ reversed_bytes 2 true word }
{
    let b = word.to_le_bytes();
    u64::from_le_bytes([b[1], b[0], b[3], b[2], b[5], b[4], b[7], b[6]])
}

/// The bytes of each word of 32 bits in reverse.
fn reverse_words(word: u64) -> u64
    ensures { result ≡ reversed_bytes 4 true word }
{
    let b = word.to_le_bytes();
    u64::from_le_bytes([b[3], b[2], b[1], b[0], b[7], b[6], b[5], b[4]])
}
