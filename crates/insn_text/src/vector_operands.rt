//! The operands of the vector instructions' texts by their names: how each is written, and the field that it
//! holds.
//!
//! Behind `_t` the size of the elements is in the field SIZE; behind `_bh` and `_sd` in its lower bit, which
//! tells bytes from halfwords, and words from doublewords; behind `_b` to `_q` the instruction fixes it, and
//! behind `_half` the elements have half the size that the lower bit tells. Behind `_e` it is in the field of
//! a store.
// A register's field with the size of its elements above it.
macro_rules! by_size {
    ($field:ident) => {
        Field {
            low: vector_fields::$field.low, width: vector_fields::$field.width,
            upper_low: vector_fields::SIZE.low, upper_width: vector_fields::SIZE.width,
        }
    };
}

// The same with the lower bit of the size.
macro_rules! by_low_size {
    ($field:ident) => {
        Field {
            low: vector_fields::$field.low, width: vector_fields::$field.width,
            upper_low: vector_fields::SIZE.low, upper_width: 1,
        }
    };
}

// A vector of a store, with the size of its elements.
macro_rules! by_element_size {
    ($width:expr) => {
        Field {
            low: vector_fields::ZT.low, width: vector_fields::ZT.width,
            upper_low: vector_fields::ELEMENT_SIZE.low, upper_width: $width,
        }
    };
}

// A vector whose elements have sizes from a suffix on.
macro_rules! vector {
    ($suffix:literal, $field:expr) => {
        operand_of!(Kind::Sized { file: VectorFile::Z, bits: 5, suffix: $suffix }, $field)
    };
}

// A predicate of 16, and one of the first 8.
macro_rules! predicate {
    ($suffix:literal, $field:expr) => {
        operand_of!(Kind::Sized { file: VectorFile::P, bits: 4, suffix: $suffix }, $field)
    };
}

macro_rules! low_predicate {
    ($field:expr) => {
        operand_of!(Kind::Sized { file: VectorFile::P, bits: 3, suffix: 0 }, $field)
    };
}

// The low part of a vector, of a file.
macro_rules! low_part {
    ($file:ident) => {
        operand_of!(Kind::Sized { file: VectorFile::$file, bits: 5, suffix: 0 }, vector_fields::VD)
    };
}

// A tile, or a slice of one, with so many bits.
macro_rules! tile {
    ($bits:literal, $suffix:literal, $field:ident) => {
        operand_of!(Kind::Sized { file: VectorFile::Za, bits: $bits, suffix: $suffix }, vector_fields::$field)
    };
}

// A number without a sign, up to the greatest of its field.
macro_rules! up_to {
    ($most:literal, $field:ident) => {
        operand_of!(Kind::Unsigned { base: 0, scale: 1, most: $most }, vector_fields::$field)
    };
}

// A number with a sign.
macro_rules! signed {
    ($field:ident) => {
        operand_of!(Kind::Signed { scale: 1 }, vector_fields::$field)
    };
}

// A shift to the right, of elements of so many bits.
macro_rules! right {
    ($from:literal, $field:ident) => {
        operand_of!(Kind::Descending { from: $from }, vector_fields::$field)
    };
}

// The number of a slice.
macro_rules! index {
    ($field:ident) => {
        operand_of!(Kind::Index, vector_fields::$field)
    };
}

// A keyword of operands by its index.
macro_rules! word {
    ($index:literal) => {
        operand_of!(Kind::Keyword { first: $index, count: 1 }, scalar_fields::NONE)
    };
}

// The item of an operand's name.
macro_rules! vector_operand {
    // punctuation
    (brace) => { operand_of!(Kind::Punctuation(b'{'), scalar_fields::NONE) };
    (brace_end) => { operand_of!(Kind::Punctuation(b'}'), scalar_fields::NONE) };
    (slash) => { operand_of!(Kind::Punctuation(b'/'), scalar_fields::NONE) };
    // vectors
    (zd_t) => { vector!(1, by_size!(ZD)) };
    (zn_t) => { vector!(1, by_size!(ZN)) };
    (zm_t) => { vector!(1, by_size!(ZM)) };
    (zd_bh) => { vector!(1, by_low_size!(ZD)) };
    (zn_bh) => { vector!(1, by_low_size!(ZN)) };
    (zd_sd) => { vector!(3, by_low_size!(ZD)) };
    (zn_sd) => { vector!(3, by_low_size!(ZN)) };
    (zn_half) => { vector!(2, by_low_size!(ZN)) };
    (zm_half) => { vector!(2, by_low_size!(ZM)) };
    (zd_z) => { vector!(0, vector_fields::ZD) };
    (zn_z) => { vector!(0, vector_fields::ZN) };
    (zd_b) => { vector!(1, vector_fields::ZD) };
    (zn_b) => { vector!(1, vector_fields::ZN) };
    (zm_b) => { vector!(1, vector_fields::ZM) };
    (zd_h) => { vector!(2, vector_fields::ZD) };
    (zn_h) => { vector!(2, vector_fields::ZN) };
    (zm_h) => { vector!(2, vector_fields::ZM) };
    (zd_s) => { vector!(3, vector_fields::ZD) };
    (zn_s) => { vector!(3, vector_fields::ZN) };
    (zd_d) => { vector!(4, vector_fields::ZD) };
    (zn_d) => { vector!(4, vector_fields::ZN) };
    (zm_d) => { vector!(4, vector_fields::ZM) };
    (zd_q) => { vector!(5, vector_fields::ZD) };
    (zn_q) => { vector!(5, vector_fields::ZN) };
    (zt_e) => { vector!(1, by_element_size!(vector_fields::ELEMENT_SIZE.width)) };
    (zt_sd) => { vector!(3, by_element_size!(1)) };
    (vd_b) => { low_part!(B) };
    (vd_h) => { low_part!(H) };
    (vd_s) => { low_part!(S) };
    (vd_d) => { low_part!(D) };
    // predicates
    (pd_t) => { predicate!(1, by_size!(PD)) };
    (pn_t) => { predicate!(1, by_size!(PN)) };
    (pd_b) => { predicate!(1, vector_fields::PD) };
    (pn_b) => { predicate!(1, vector_fields::PN) };
    (pm_b) => { predicate!(1, vector_fields::PM) };
    (pt) => { predicate!(0, vector_fields::PT) };
    (pg) => { low_predicate!(vector_fields::PG) };
    (pg4) => { predicate!(0, vector_fields::PG4) };
    (cpy_pg) => { predicate!(0, vector_fields::CPY_PG) };
    (row_pn) => { low_predicate!(vector_fields::ROW_PN) };
    (column_pm) => { low_predicate!(vector_fields::COLUMN_PM) };
    // ZA: tiles, horizontal and vertical slices, and how a slice is chosen
    (za_s) => { tile!(2, 3, ZADA_S) };
    (za_d) => { tile!(3, 4, ZADA_D) };
    (za_hb) => { tile!(0, 6, TILE_B) };
    (za_hh) => { tile!(1, 7, TILE_H) };
    (za_hs) => { tile!(2, 8, TILE_S) };
    (za_hd) => { tile!(3, 9, TILE_D) };
    (za_hq) => { tile!(4, 10, TILE_Q) };
    (za_vb) => { tile!(0, 11, TILE_B) };
    (za_vh) => { tile!(1, 12, TILE_H) };
    (za_vs) => { tile!(2, 13, TILE_S) };
    (za_vd) => { tile!(3, 14, TILE_D) };
    (za_vq) => { tile!(4, 15, TILE_Q) };
    (source_hb) => { tile!(0, 6, SOURCE_TILE_B) };
    (source_hh) => { tile!(1, 7, SOURCE_TILE_H) };
    (source_hs) => { tile!(2, 8, SOURCE_TILE_S) };
    (source_hd) => { tile!(3, 9, SOURCE_TILE_D) };
    (source_hq) => { tile!(4, 10, SOURCE_TILE_Q) };
    (source_vb) => { tile!(0, 11, SOURCE_TILE_B) };
    (source_vh) => { tile!(1, 12, SOURCE_TILE_H) };
    (source_vs) => { tile!(2, 13, SOURCE_TILE_S) };
    (source_vd) => { tile!(3, 14, SOURCE_TILE_D) };
    (source_vq) => { tile!(4, 15, SOURCE_TILE_Q) };
    (rv) => { operand_of!(Kind::SliceRegister, vector_fields::RV) };
    (index_0) => { operand_of!(Kind::Index, scalar_fields::NONE) };
    (index_array) => { index!(ARRAY_OFFSET) };
    (index_b) => { index!(OFFSET_B) };
    (index_h) => { index!(OFFSET_H) };
    (index_s) => { index!(OFFSET_S) };
    (index_d) => { index!(OFFSET_D) };
    (index_q) => { index!(OFFSET_Q) };
    (source_index_b) => { index!(SOURCE_OFFSET_B) };
    (source_index_h) => { index!(SOURCE_OFFSET_H) };
    (source_index_s) => { index!(SOURCE_OFFSET_S) };
    (source_index_d) => { index!(SOURCE_OFFSET_D) };
    (source_index_q) => { index!(SOURCE_OFFSET_Q) };
    // general registers
    (xm_sp) => { operand_of!(X_SP, scalar_fields::RM) };
    (xm_given) => { operand_of!(X, scalar_fields::RM, OffsetGiven) };
    // words
    (m) => { word!(53) };
    (z) => { word!(54) };
    (mul) => { word!(55) };
    (vl) => { word!(56) };
    (sm) => { word!(57) };
    (za) => { word!(58) };
    (pattern) => { operand_of!(Kind::Pattern { first: 36 }, vector_fields::PATTERN) };
    // numbers
    (multiplier) => {
        operand_of!(Kind::Unsigned { base: 1, scale: 1, most: 15 }, vector_fields::MULTIPLIER)
    };
    (eight) => { operand_of!(Kind::Unsigned { base: 8, scale: 1, most: 0 }, scalar_fields::NONE) };
    (amount_is_4) => { operand_of!(Kind::Unsigned { base: 4, scale: 1, most: 0 }, scalar_fields::NONE) };
    (imm8) => { up_to!(255, IMM8) };
    (extract8) => { up_to!(255, EXT_IMM8) };
    (zero_mask) => { up_to!(255, ZERO_MASK) };
    (array_offset) => { up_to!(15, ARRAY_OFFSET) };
    (left_b) => { up_to!(7, AMOUNT_B) };
    (left_h) => { up_to!(15, AMOUNT_H) };
    (left_s) => { up_to!(31, AMOUNT_S) };
    (left_d) => { up_to!(63, AMOUNT_D) };
    (right_b) => { right!(8, AMOUNT_B) };
    (right_h) => { right!(16, AMOUNT_H) };
    (right_s) => { right!(32, AMOUNT_S) };
    (right_d) => { right!(64, AMOUNT_D) };
    (signed4) => { signed!(IMM4) };
    (signed5) => { signed!(IMM5) };
    (signed5b) => { signed!(IMM5B) };
    (signed6) => { signed!(IMM6) };
    (signed8) => { signed!(IMM8) };
    (signed9) => { signed!(IMM9) };
}

pub(crate) use by_element_size;
pub(crate) use by_low_size;
pub(crate) use by_size;
pub(crate) use index;
pub(crate) use low_part;
pub(crate) use low_predicate;
pub(crate) use predicate;
pub(crate) use right;
pub(crate) use signed;
pub(crate) use tile;
pub(crate) use up_to;
pub(crate) use vector;
pub(crate) use vector_operand;
pub(crate) use word;
