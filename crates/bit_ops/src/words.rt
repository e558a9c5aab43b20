//! The low part of a value.
ghost use Rattle.std.specs.Prelude.{◌≡◌, ◌%◌, ◌<◌};
ghost use Rattle.bit_ops.specs.Sums.{word_size};
ghost use Rattle.bit_ops.specs.Bits.{width_of};

/// The word of a value: all of it where `wide`, else its low 32 bits.
pub(crate) fn low_word(value: u64, wide: bool) -> u64
    ensures value { result ≡ value % word_size wide }
    ensures small { result < word_size wide }
{
    if wide { value } else { value & 0xffff_ffff }
}

/// How many bits a word has.
pub(crate) fn width(wide: bool) -> u32
    ensures { result ≡ width_of wide }
{
    if wide { 64 } else { 32 }
}
