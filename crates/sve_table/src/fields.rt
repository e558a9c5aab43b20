//! The fields of the vector instructions, each named once; no other file has the place of a bit.
//!
//! The names are those of the encoding diagrams (DDI 0487, C8.2; SME's in C9.2), but for these of our own:
//! those by the elements' size (`AMOUNT_B`, `TILE_B`, `OFFSET_B`, `SOURCE_TILE_B` and so on), `ZM_LOW` (Zm at
//! 9:5), `RN_HIGH` (Rn at 20:16), `PG4` (Pg of 4 bits), `CPY_PG` (Pg of cpy), `ROW_PN` and `COLUMN_PM` (Pn
//! and Pm of the outer products, addha and addva), `RV` (Rv, and Rs of slices), `IMM5B` (imm5b, and imm5 of
//! comparisons), `MEMORY_SIZE` and `ELEMENT_SIZE` (msz and size of stores), `EXT_IMM8`
//! (imm8h:imm8l of ext), `MULTIPLIER` (imm4 of cnt, inc and dec), `MERGING` (M), `FLAGS` (S of predicates),
//! `SUBTRACT` (S of the outer products), `VERTICAL` (V), `ARRAY_OFFSET` (off4) and `ZERO_MASK` (imm8 of
//! zero).
use insn_forms::Field;

// As many bits as the second number from the first on; with `above`, the upper bits are the first pair's.
macro_rules! field {
    ($low:literal, $width:literal) => {
        Field { low: $low, width: $width, upper_low: 0, upper_width: 0 }
    };
    ($upper_low:literal, $upper_width:literal above $low:literal, $width:literal) => {
        Field { low: $low, width: $width, upper_low: $upper_low, upper_width: $upper_width }
    };
}

/// No field.
pub const NONE: Field = field!(0, 0);

// vectors
pub const ZD: Field = field!(0, 5); // 4:0

pub const ZDN: Field = field!(0, 5); // 4:0

pub const ZDA: Field = field!(0, 5); // 4:0

pub const ZT: Field = field!(0, 5); // 4:0

pub const VD: Field = field!(0, 5); // 4:0

pub const ZN: Field = field!(5, 5); // 9:5

pub const ZM_LOW: Field = field!(5, 5); // 9:5

pub const ZK: Field = field!(5, 5); // 9:5

pub const ZM: Field = field!(16, 5); // 20:16

// general registers
pub const RD: Field = field!(0, 5); // 4:0

pub const RN: Field = field!(5, 5); // 9:5

pub const RM: Field = field!(16, 5); // 20:16

pub const RN_HIGH: Field = field!(16, 5); // 20:16

// predicates
pub const PG: Field = field!(10, 3); // 12:10

pub const PG4: Field = field!(10, 4); // 13:10

pub const CPY_PG: Field = field!(16, 4); // 19:16

pub const PD: Field = field!(0, 4); // 3:0

pub const PT: Field = field!(0, 4); // 3:0

pub const PN: Field = field!(5, 4); // 8:5

pub const PM: Field = field!(16, 4); // 19:16

pub const ROW_PN: Field = field!(10, 3); // 12:10

pub const COLUMN_PM: Field = field!(13, 3); // 15:13

// sizes
pub const SIZE: Field = field!(22, 2); // 23:22

pub const MEMORY_SIZE: Field = field!(23, 2); // 24:23

pub const ELEMENT_SIZE: Field = field!(21, 2); // 22:21

pub const DTYPE: Field = field!(21, 4); // 24:21

pub const SF: Field = field!(12, 1); // 12

// immediates
pub const SH: Field = field!(13, 1); // 13

pub const IMM8: Field = field!(5, 8); // 12:5

pub const IMM5: Field = field!(5, 5); // 9:5

pub const IMM5B: Field = field!(16, 5); // 20:16

pub const EXT_IMM8: Field = field!(16, 5 above 10, 3); // 20:16 above 12:10

pub const IMM4: Field = field!(16, 4); // 19:16

pub const IMM6: Field = field!(5, 6); // 10:5

pub const IMM9: Field = field!(16, 6 above 10, 3); // 21:16 above 12:10

pub const PATTERN: Field = field!(5, 5); // 9:5

pub const MULTIPLIER: Field = field!(16, 4); // 19:16

// the amount of a shift by the elements' size: the width less the amount to the right, the amount to the left
pub const AMOUNT_B: Field = field!(16, 3); // 18:16

pub const AMOUNT_H: Field = field!(16, 4); // 19:16

pub const AMOUNT_S: Field = field!(16, 5); // 20:16

pub const AMOUNT_D: Field = field!(22, 1 above 16, 5); // 22 above 20:16

// choices
pub const MERGING: Field = field!(14, 1); // 14

pub const FLAGS: Field = field!(22, 1); // 22

pub const SUBTRACT: Field = field!(4, 1); // 4

pub const VERTICAL: Field = field!(15, 1); // 15

// ZA: the register and the number of a slice, the tiles of sums
pub const RV: Field = field!(13, 2); // 14:13

pub const ARRAY_OFFSET: Field = field!(0, 4); // 3:0

pub const ZERO_MASK: Field = field!(0, 8); // 7:0

pub const ZADA_S: Field = field!(0, 2); // 1:0

pub const ZADA_D: Field = field!(0, 3); // 2:0

// a tile, and above which slice of it, by the elements' size; there is one tile of bytes, and one slice of Q
pub const TILE_B: Field = field!(0, 0); // no bits

pub const TILE_H: Field = field!(3, 1); // 3

pub const TILE_S: Field = field!(2, 2); // 3:2

pub const TILE_D: Field = field!(1, 3); // 3:1

pub const TILE_Q: Field = field!(0, 4); // 3:0

pub const OFFSET_B: Field = field!(0, 4); // 3:0

pub const OFFSET_H: Field = field!(0, 3); // 2:0

pub const OFFSET_S: Field = field!(0, 2); // 1:0

pub const OFFSET_D: Field = field!(0, 1); // 0

pub const OFFSET_Q: Field = field!(0, 0); // no bits

// the same where a slice is moved to a vector
pub const SOURCE_TILE_B: Field = field!(0, 0); // no bits

pub const SOURCE_TILE_H: Field = field!(8, 1); // 8

pub const SOURCE_TILE_S: Field = field!(7, 2); // 8:7

pub const SOURCE_TILE_D: Field = field!(6, 3); // 8:6

pub const SOURCE_TILE_Q: Field = field!(5, 4); // 8:5

pub const SOURCE_OFFSET_B: Field = field!(5, 4); // 8:5

pub const SOURCE_OFFSET_H: Field = field!(5, 3); // 7:5

pub const SOURCE_OFFSET_S: Field = field!(5, 2); // 6:5

pub const SOURCE_OFFSET_D: Field = field!(5, 1); // 5

pub const SOURCE_OFFSET_Q: Field = field!(0, 0); // no bits
