//! The fields of the scalar instructions, each named once; no other file has the place of a bit, but for the
//! rules by which the registers of a load or store differ, which read Rt, Rn and Rt2 (insn_text).
//!
//! The names are those of the encoding diagrams (DDI 0487, C6.2), but for these of our own: `ACQUIRE` and
//! `RELEASE` (A and R there), `CAS_ACQUIRE` and `CAS_RELEASE` (L and o0), `SCALED` (S), `BRANCH_COND` (cond),
//! `UDF_IMM16` (imm16), `HINT` (CRm:op2), `IMM21` (immhi:immlo) and `BIT` (b5:b40).
use insn_forms::Field;

// As many bits as the second number from the first on; with `above`, the upper bits are the first pair's.
macro_rules! field {
    ($low:literal, $width:literal) => {
        Field { low: $low, width: $width, upper_low: 0, upper_width: 0 }
    };
    ($upper_low:literal, $upper_width:literal above $low:literal, $width:literal) => {
        Field { low: $low, width: $width, upper_low: $upper_low, upper_width: $upper_width }
    };
}

/// No field.
pub const NONE: Field = field!(0, 0);

// registers
pub const RD: Field = field!(0, 5); // 4:0

pub const RT: Field = field!(0, 5); // 4:0

pub const RN: Field = field!(5, 5); // 9:5

pub const RT2: Field = field!(10, 5); // 14:10

pub const RA: Field = field!(10, 5); // 14:10

pub const RM: Field = field!(16, 5); // 20:16

pub const RS: Field = field!(16, 5); // 20:16

// widths, sizes and orders
pub const SF: Field = field!(31, 1); // 31

pub const SIZE: Field = field!(30, 2); // 31:30

pub const OPC: Field = field!(22, 2); // 23:22

pub const ACQUIRE: Field = field!(23, 1); // 23

pub const RELEASE: Field = field!(22, 1); // 22

pub const CAS_ACQUIRE: Field = field!(22, 1); // 22

pub const CAS_RELEASE: Field = field!(15, 1); // 15

// shifts, extensions and conditions
pub const SHIFT: Field = field!(22, 2); // 23:22

pub const OPTION: Field = field!(13, 3); // 15:13

pub const SCALED: Field = field!(12, 1); // 12

pub const COND: Field = field!(12, 4); // 15:12

pub const BRANCH_COND: Field = field!(0, 4); // 3:0

// immediates
pub const SH: Field = field!(22, 1); // 22

pub const IMM12: Field = field!(10, 12); // 21:10

pub const IMM6: Field = field!(10, 6); // 15:10

pub const IMM3: Field = field!(10, 3); // 12:10

pub const N: Field = field!(22, 1); // 22

pub const IMMR: Field = field!(16, 6); // 21:16

pub const IMMS: Field = field!(10, 6); // 15:10

pub const HW: Field = field!(21, 2); // 22:21

pub const IMM16: Field = field!(5, 16); // 20:5

pub const IMM5: Field = field!(16, 5); // 20:16

pub const NZCV: Field = field!(0, 4); // 3:0

pub const UDF_IMM16: Field = field!(0, 16); // 15:0

pub const HINT: Field = field!(5, 7); // 11:5

pub const CRM: Field = field!(8, 4); // 11:8

// distances and offsets
pub const IMM21: Field = field!(5, 19 above 29, 2); // 23:5 above 30:29

pub const IMM26: Field = field!(0, 26); // 25:0

pub const IMM19: Field = field!(5, 19); // 23:5

pub const IMM14: Field = field!(5, 14); // 18:5

pub const BIT: Field = field!(31, 1 above 19, 5); // 31 above 23:19

pub const IMM9: Field = field!(12, 9); // 20:12

pub const IMM7: Field = field!(15, 7); // 21:15
