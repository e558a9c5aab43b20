//! The operands of the texts by their names: how each is written, the field that it holds, and its rule.
use crate::item::{Kind, RegisterFile};
use a64_table::fields::{HW, IMM16, IMMR, IMMS, N};
use insn_forms::Field;

/// The registers X0 to X30 and XZR.
pub const X: Kind = Kind::Register {
    file: RegisterFile::X,
    last: 0,
};

/// The registers X0 to X30 and SP.
pub const X_SP: Kind = Kind::Register {
    file: RegisterFile::X,
    last: 1,
};

/// The registers W0 to W30 and WZR.
pub const W: Kind = Kind::Register {
    file: RegisterFile::W,
    last: 2,
};

/// The registers W0 to W30 and WSP.
pub const W_SP: Kind = Kind::Register {
    file: RegisterFile::W,
    last: 3,
};

/// The fields of a mask of 64 bits, each right above the next.
pub const N_IMMR_IMMS: Field = Field {
    low: IMMS.low,
    width: IMMS.width + IMMR.width + N.width,
    upper_low: 0,
    upper_width: 0,
};

/// Those of a mask of 32 bits.
pub const IMMR_IMMS: Field = Field {
    low: IMMS.low,
    width: IMMS.width + IMMR.width,
    upper_low: 0,
    upper_width: 0,
};

/// The fields of a shift to the left by at most 63.
pub const LONG_SHIFT: Field = Field {
    low: IMMS.low,
    width: IMMS.width,
    upper_low: IMMR.low,
    upper_width: IMMR.width,
};

/// The same by at most 31: without the highest bits.
pub const SHORT_SHIFT: Field = Field {
    low: IMMS.low,
    width: IMMS.width - 1,
    upper_low: IMMR.low,
    upper_width: IMMR.width - 1,
};

/// A halfword with its index right above.
pub const HW_IMM16: Field = Field {
    low: IMM16.low,
    width: IMM16.width + HW.width,
    upper_low: 0,
    upper_width: 0,
};

/// The same with an index of one bit.
pub const SHORT_HW_IMM16: Field = Field {
    low: IMM16.low,
    width: IMM16.width + HW.width - 1,
    upper_low: 0,
    upper_width: 0,
};

// A field without its highest bit.
macro_rules! short {
    ($field:ident) => {
        Field {
            low: scalar_fields::$field.low, width: scalar_fields::$field.width - 1,
            upper_low: 0, upper_width: 0,
        }
    };
}

// An operand of a kind that holds a field, with its rule where it has one.
macro_rules! operand_of {
    ($kind:expr, $field:expr) => {
        Item { kind: $kind, field: $field, rule: Rule::Free }
    };
    ($kind:expr, $field:expr, $rule:ident) => {
        Item { kind: $kind, field: $field, rule: Rule::$rule }
    };
}

// The item of an operand's name.
macro_rules! operand {
    // none: the end of a text's operands
    (none) => { operand_of!(Kind::Punctuation(0), scalar_fields::NONE) };
    // punctuation
    (comma) => { operand_of!(Kind::Punctuation(b','), scalar_fields::NONE) };
    (open) => { operand_of!(Kind::Punctuation(b'['), scalar_fields::NONE) };
    (close) => { operand_of!(Kind::Punctuation(b']'), scalar_fields::NONE) };
    (bang) => { operand_of!(Kind::Punctuation(b'!'), scalar_fields::NONE) };
    // X registers
    (xd) => { operand_of!(X, scalar_fields::RD) };
    (xd_sp) => { operand_of!(X_SP, scalar_fields::RD) };
    (xt) => { operand_of!(X, scalar_fields::RT) };
    (xt2) => { operand_of!(X, scalar_fields::RT2) };
    (xt2_not_t) => { operand_of!(X, scalar_fields::RT2, SecondApart) };
    (xn) => { operand_of!(X, scalar_fields::RN) };
    (xn_sp) => { operand_of!(X_SP, scalar_fields::RN) };
    (xn_sp_not_t) => { operand_of!(X_SP, scalar_fields::RN, BaseApart) };
    (xn_sp_alone) => { operand_of!(X_SP, scalar_fields::RN, BasePairApart) };
    (xm) => { operand_of!(X, scalar_fields::RM) };
    (xs) => { operand_of!(X, scalar_fields::RS) };
    (xa) => { operand_of!(X, scalar_fields::RA) };
    // W registers
    (wd) => { operand_of!(W, scalar_fields::RD) };
    (wd_sp) => { operand_of!(W_SP, scalar_fields::RD) };
    (wt) => { operand_of!(W, scalar_fields::RT) };
    (wt2) => { operand_of!(W, scalar_fields::RT2) };
    (wt2_not_t) => { operand_of!(W, scalar_fields::RT2, SecondApart) };
    (wn) => { operand_of!(W, scalar_fields::RN) };
    (wn_sp) => { operand_of!(W_SP, scalar_fields::RN) };
    (wm) => { operand_of!(W, scalar_fields::RM) };
    (ws) => { operand_of!(W, scalar_fields::RS) };
    (wa) => { operand_of!(W, scalar_fields::RA) };
    // words
    (sp) => { operand_of!(Kind::Keyword { first: 1, count: 1 }, scalar_fields::NONE) };
    (wsp) => { operand_of!(Kind::Keyword { first: 3, count: 1 }, scalar_fields::NONE) };
    (lsl) => { operand_of!(Kind::Keyword { first: 4, count: 1 }, scalar_fields::NONE) };
    (shift3) => { operand_of!(Kind::Keyword { first: 4, count: 3 }, scalar_fields::SHIFT) };
    (shift4) => { operand_of!(Kind::Keyword { first: 4, count: 4 }, scalar_fields::SHIFT) };
    (extend) => { operand_of!(Kind::Keyword { first: 8, count: 8 }, scalar_fields::OPTION) };
    (uxtb_to_uxtw) => { operand_of!(Kind::Keyword { first: 8, count: 3 }, short!(OPTION)) };
    (sxtb_to_sxtw) => { operand_of!(Kind::Keyword { first: 12, count: 3 }, short!(OPTION)) };
    (uxtw) => { operand_of!(Kind::Keyword { first: 10, count: 1 }, scalar_fields::NONE) };
    (uxtx) => { operand_of!(Kind::Keyword { first: 11, count: 1 }, scalar_fields::NONE) };
    (sxtw) => { operand_of!(Kind::Keyword { first: 14, count: 1 }, scalar_fields::NONE) };
    (sxtx) => { operand_of!(Kind::Keyword { first: 15, count: 1 }, scalar_fields::NONE) };
    (condition) => { operand_of!(Kind::Keyword { first: 16, count: 16 }, scalar_fields::COND) };
    (opposite) => { operand_of!(Kind::Opposite { first: 16, count: 14 }, scalar_fields::COND) };
    (nzcv) => { operand_of!(Kind::Keyword { first: 32, count: 1 }, scalar_fields::NONE) };
    (tpidr_el0) => { operand_of!(Kind::Keyword { first: 33, count: 1 }, scalar_fields::NONE) };
    (tpidr2_el0) => { operand_of!(Kind::Keyword { first: 34, count: 1 }, scalar_fields::NONE) };
    (svcr) => { operand_of!(Kind::Keyword { first: 35, count: 1 }, scalar_fields::NONE) };
    // numbers
    (imm12) => { operand_of!(Kind::Unsigned { base: 0, scale: 1, most: 4095 }, scalar_fields::IMM12) };
    (imm12_2) => { operand_of!(Kind::Unsigned { base: 0, scale: 2, most: 4095 }, scalar_fields::IMM12) };
    (imm12_4) => { operand_of!(Kind::Unsigned { base: 0, scale: 4, most: 4095 }, scalar_fields::IMM12) };
    (imm12_8) => { operand_of!(Kind::Unsigned { base: 0, scale: 8, most: 4095 }, scalar_fields::IMM12) };
    (imm16) => { operand_of!(Kind::Unsigned { base: 0, scale: 1, most: 65535 }, scalar_fields::IMM16) };
    (imm5) => { operand_of!(Kind::Unsigned { base: 0, scale: 1, most: 31 }, scalar_fields::IMM5) };
    (udf_imm16) => {
        operand_of!(Kind::Unsigned { base: 0, scale: 1, most: 65535 }, scalar_fields::UDF_IMM16)
    };
    (flags) => { operand_of!(Kind::Unsigned { base: 0, scale: 1, most: 15 }, scalar_fields::NZCV) };
    (hint) => { operand_of!(Kind::Unsigned { base: 0, scale: 1, most: 127 }, scalar_fields::HINT) };
    (crm) => { operand_of!(Kind::Unsigned { base: 0, scale: 1, most: 15 }, scalar_fields::CRM) };
    (bit) => { operand_of!(Kind::Unsigned { base: 0, scale: 1, most: 63 }, scalar_fields::BIT) };
    (amount4) => { operand_of!(Kind::Unsigned { base: 0, scale: 1, most: 4 }, scalar_fields::IMM3) };
    (amount6) => { operand_of!(Kind::Unsigned { base: 0, scale: 1, most: 63 }, scalar_fields::IMM6) };
    (amount5) => { operand_of!(Kind::Unsigned { base: 0, scale: 1, most: 31 }, short!(IMM6)) };
    (imms6) => { operand_of!(Kind::Unsigned { base: 0, scale: 1, most: 63 }, scalar_fields::IMMS) };
    (imms5) => { operand_of!(Kind::Unsigned { base: 0, scale: 1, most: 31 }, short!(IMMS)) };
    (immr6) => { operand_of!(Kind::Unsigned { base: 0, scale: 1, most: 63 }, scalar_fields::IMMR) };
    (immr5) => { operand_of!(Kind::Unsigned { base: 0, scale: 1, most: 31 }, short!(IMMR)) };
    (halfword_shift64) => { operand_of!(Kind::Unsigned { base: 0, scale: 16, most: 3 }, scalar_fields::HW) };
    (halfword_shift32) => { operand_of!(Kind::Unsigned { base: 0, scale: 16, most: 1 }, short!(HW)) };
    (amount_is_0) => { operand_of!(Kind::Unsigned { base: 0, scale: 1, most: 0 }, scalar_fields::NONE) };
    (amount_is_1) => { operand_of!(Kind::Unsigned { base: 1, scale: 1, most: 0 }, scalar_fields::NONE) };
    (amount_is_2) => { operand_of!(Kind::Unsigned { base: 2, scale: 1, most: 0 }, scalar_fields::NONE) };
    (amount_is_3) => { operand_of!(Kind::Unsigned { base: 3, scale: 1, most: 0 }, scalar_fields::NONE) };
    (twelve) => { operand_of!(Kind::Unsigned { base: 12, scale: 1, most: 0 }, scalar_fields::NONE) };
    // offsets and distances
    (imm9) => { operand_of!(Kind::Signed { scale: 1 }, scalar_fields::IMM9) };
    (imm7_4) => { operand_of!(Kind::Signed { scale: 4 }, scalar_fields::IMM7) };
    (imm7_8) => { operand_of!(Kind::Signed { scale: 8 }, scalar_fields::IMM7) };
    (words26) => { operand_of!(Kind::Distance { scale: 4 }, scalar_fields::IMM26) };
    (words19) => { operand_of!(Kind::Distance { scale: 4 }, scalar_fields::IMM19) };
    (words14) => { operand_of!(Kind::Distance { scale: 4 }, scalar_fields::IMM14) };
    (bytes21) => { operand_of!(Kind::Distance { scale: 1 }, scalar_fields::IMM21) };
    (pages21) => { operand_of!(Kind::Distance { scale: 4096 }, scalar_fields::IMM21) };
    // masks, shifts to the left and halfwords, which are several fields
    (xmask) => { operand_of!(Kind::Mask { wide: true }, N_IMMR_IMMS) };
    (wmask) => { operand_of!(Kind::Mask { wide: false }, IMMR_IMMS) };
    (xmask_or_negative) => { operand_of!(Kind::SignedMask { wide: true }, N_IMMR_IMMS) };
    (wmask_or_negative) => { operand_of!(Kind::SignedMask { wide: false }, IMMR_IMMS) };
    (xshift_left) => { operand_of!(Kind::ShiftLeft { wide: true }, LONG_SHIFT) };
    (wshift_left) => { operand_of!(Kind::ShiftLeft { wide: false }, SHORT_SHIFT) };
    (xhalfword) => { operand_of!(Kind::Halfword { wide: true, inverted: false }, HW_IMM16) };
    (whalfword) => { operand_of!(Kind::Halfword { wide: false, inverted: false }, SHORT_HW_IMM16) };
    (xinverted_halfword) => { operand_of!(Kind::Halfword { wide: true, inverted: true }, HW_IMM16) };
    (winverted_halfword) => { operand_of!(Kind::Halfword { wide: false, inverted: true }, SHORT_HW_IMM16) };
    // those of vector instructions
    ($other:ident) => { vector_operand!($other) };
}

pub(crate) use operand;
pub(crate) use operand_of;
pub(crate) use short;
