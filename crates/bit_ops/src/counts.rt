//! Counts from the top of a word.
ghost use Rattle.std.specs.Prelude.{◌≡◌, ◌%◌, ◌<◌, ◌≤◌, ◌-◌};
ghost use Rattle.bit_ops.specs.Sums.{half_size, word_size};
ghost use Rattle.bit_ops.specs.Bits.{width_of};
ghost use Rattle.bit_ops.specs.Counts.{leading_zeros_of, leading_signs_of};

use crate::words::low_word;

/// The zeros above the highest one of the word, and its width where there is none: of 64 bits where `wide`,
/// else of the low 32.
pub fn count_zeros(value: u64, wide: bool) -> u32
    ensures value { result ≡ leading_zeros_of wide (value % word_size wide) }
    ensures within { result ≤ width_of wide }
{
    if wide {
        value.leading_zeros()
    } else {
        ((value & 0xffff_ffff) as u32).leading_zeros()
    }
}

/// The bits below the top one of the word that equal it without a break: of 64 bits where `wide`, else of
/// the low 32.
pub fn count_signs(value: u64, wide: bool) -> u32
    ensures value { result ≡ leading_signs_of wide (value % word_size wide) }
    ensures within { result < width_of wide }
{
    count_zeros(without_sign(low_word(value, wide), wide), wide) - 1
}

/// The word, inverted where its top bit is set: so its leading zeros are the bits that equal the top one.
fn without_sign(word: u64, wide: bool) -> u64
    requires { word < word_size wide }
    ensures clear { word < half_size wide → result ≡ word }
    ensures set { half_size wide ≤ word → result ≡ word_size wide - 1 - word }
    ensures small { result < half_size wide }
{
    let top = if wide { 1 << 63 } else { 1 << 31 };
    if word < top {
        word
    } else {
        low_word(!word, wide)
    }
}
