//! The number of a field that a token says.
#![tactic(auto, unfolding(
// What a token says of a field, whose factor is not 0.
crate::specs::Fields::field_said, crate::specs::Sound::has_factor,
// By the token: punctuation, words and registers.
crate::specs::Fields::on_punctuation, crate::specs::Fields::on_keyword, crate::specs::Fields::on_register,
// Registers with a size, numbers and distances.
crate::specs::Fields::on_sized, crate::specs::Fields::on_number, crate::specs::Fields::on_target,
// Numbers without `#`, and patterns.
crate::specs::Fields::on_bare, crate::specs::Fields::on_pattern))]

ghost use Rattle.std.specs.Prelude.{ℕ, ◌≡◌, ◌+◌, ◌-◌, ◌*◌, ◌<◌, ◌^◌, ◌==◌, ◌&&◌, ◌≤◌, true, Option, IfSome};
ghost use Rattle.std.specs.Prelude.{IsTrue, bit_xor, option_map, option_and_then, None, if◌then◌else◌};
ghost use Rattle.std.specs.List.{find, range_with_len};
ghost use Rattle.bit_ops.specs.Bits.{width_of};
ghost use Rattle.asm_tokens.specs.declared.token.Token.TheVariants.{Register, Keyword, Name, Number};
ghost use Rattle.asm_tokens.specs.declared.token.Token.TheVariants.{Distance};
ghost use Rattle.asm_tokens.specs.declared.token.Token.TheVariants.{Punctuation, Sized, Bare};
ghost use Rattle.asm_operands.specs.Fields.{keyword_field, same_file, register_field, last_field};
ghost use Rattle.asm_operands.specs.Fields.{unsigned_field, signed_field, mask_field, immediate_of};
ghost use Rattle.asm_operands.specs.Fields.{shift_left_field, is_halfword_at, halfword_field, inverted_if};
ghost use Rattle.asm_operands.specs.Fields.{same_vector_file, sized_field, slice_field, index_field};
ghost use Rattle.asm_operands.specs.Fields.{pattern_after, pattern_of_keyword, pattern_of_number};
ghost use Rattle.asm_operands.specs.Fields.{descending_field, field_said};
ghost use Rattle.asm_operands.specs.Sound.{has_factor};

use asm_tokens::Token;
use bit_ops::mask_fields;
use insn_text::{Kind, RegisterFile, VectorFile};

/// One of `count` keywords from index `first` on.
#[inline(always)]
#[tactic(auto, unfolding(crate::specs::Fields::keyword_field))]
fn keyword_field(first: u16, count: u16, index: u16) -> Option<u32>
    ensures value { result ≡ keyword_field first count index }
    ensures small { IfSome result (λ field. field < 2 ^ 16) }
{
    let first = u32::from(first);
    let index = u32::from(index);
    if first <= index && index < first + u32::from(count) {
        Some(index - first)
    } else {
        None
    }
}

/// Whether the two are one file.
#[inline(always)]
#[tactic(auto, unfolding(crate::specs::Fields::same_file))]
fn same_file(wanted: RegisterFile, file: RegisterFile) -> bool
    ensures { result ≡ same_file wanted file }
{
    match (wanted, file) {
        (RegisterFile::X, RegisterFile::X) => true,
        (RegisterFile::X, RegisterFile::W) => false,
        (RegisterFile::W, RegisterFile::X) => false,
        (RegisterFile::W, RegisterFile::W) => true,
    }
}

/// The number of a register of the file, below 31.
#[inline(always)]
#[tactic(auto, unfolding(crate::specs::Fields::register_field))]
fn register_field(wanted: RegisterFile, file: RegisterFile, number: u8) -> Option<u32>
    ensures { result ≡ register_field wanted file number }
{
    if same_file(wanted, file) && number < 31 {
        Some(u32::from(number))
    } else {
        None
    }
}

/// Number 31, whose keyword has an index.
#[inline(always)]
#[tactic(auto, unfolding(crate::specs::Fields::last_field))]
fn last_field(last: u16, index: u16) -> Option<u32>
    ensures { result ≡ last_field last index }
{
    if index == last { Some(31) } else { None }
}

/// Whether the two are one file of vectors, predicates or ZA.
#[inline(always)]
#[tactic(auto, unfolding(crate::specs::Fields::same_vector_file, insn_text::specs::Wordings::file_number))]
fn same_vector_file(wanted: VectorFile, file: VectorFile) -> bool
    ensures { result ≡ same_vector_file wanted file }
{
    match wanted {
        VectorFile::Z => matches!(file, VectorFile::Z),
        VectorFile::P => matches!(file, VectorFile::P),
        VectorFile::B => matches!(file, VectorFile::B),
        VectorFile::H => matches!(file, VectorFile::H),
        VectorFile::S => matches!(file, VectorFile::S),
        VectorFile::D => matches!(file, VectorFile::D),
        VectorFile::Za => matches!(file, VectorFile::Za),
    }
}

/// The field that has the number of a register in its lowest `few` bits and, above these, by how much its
/// suffix stands behind the first.
fn joined(size: u32, few: u32, bits: u32, number: u32) -> u32
    requires few { few ≤ bits }
    requires bits { bits < 32 }
    requires number { number < 2 ^ few }
    requires size { size < 2 ^ (bits - few) }
    ensures { result ≡ size * 2 ^ few + number }
{
    (size << few) + number
}

/// The field of so many bits that has a register of the file, with one of the suffixes from index `first` on.
#[tactic(auto, unfolding(crate::specs::Fields::sized_field))]
fn sized_field(
    wanted: VectorFile,
    few: u8,
    first: u16,
    bits: u32,
    file: VectorFile,
    number: u8,
    suffix: u16,
) -> Option<u32>
    requires few { few ≤ bits }
    requires bits { bits < 32 }
    ensures { result ≡ sized_field wanted few first bits file number suffix }
{
    let few = u32::from(few);
    let number = u32::from(number);
    if !same_vector_file(wanted, file) || number >= 1 << few || suffix < first {
        return None;
    }
    let size = u32::from(suffix - first);
    if size < 1 << (bits - few) {
        Some(joined(size, few, bits, number))
    } else {
        None
    }
}

/// The last bits of the number of a register from W12 on.
#[tactic(auto, unfolding(crate::specs::Fields::slice_field))]
fn slice_field(bits: u32, file: RegisterFile, number: u8) -> Option<u32>
    requires { bits < 32 }
    ensures { result ≡ slice_field bits file number }
{
    let number = u32::from(number);
    if same_file(RegisterFile::W, file) && 12 <= number && number - 12 < 1 << bits {
        Some(number - 12)
    } else {
        None
    }
}

/// The number, where it is one of so many bits.
#[tactic(auto, unfolding(crate::specs::Fields::index_field))]
fn index_field(bits: u32, size: u64) -> Option<u32>
    requires { bits < 32 }
    ensures { result ≡ index_field bits size }
{
    if size < 1 << bits {
        Some(size as u32)
    } else {
        None
    }
}

/// The pattern whose word is the one after so many others.
#[tactic(auto, unfolding(crate::specs::Fields::pattern_after))]
fn pattern_after(count: u32) -> u32
    requires { count < 2 ^ 16 }
    ensures { result ≡ pattern_after count }
{
    if count < 14 { count } else { count + 15 }
}

/// The pattern whose keyword has an index.
#[tactic(auto, unfolding(crate::specs::Fields::pattern_of_keyword))]
fn pattern_of_keyword(first: u16, index: u16) -> Option<u32>
    ensures { result ≡ pattern_of_keyword first index }
{
    match keyword_field(first, 17, index) {
        Some(count) => Some(pattern_after(count)),
        None => None,
    }
}

/// The number, where it is a pattern that has no word.
#[tactic(auto, unfolding(crate::specs::Fields::pattern_of_number, insn_text::specs::Texts::is_named_pattern))]
fn pattern_of_number(negative: bool, size: u64) -> Option<u32>
    ensures { result ≡ pattern_of_number negative size }
{
    if !negative && 14 <= size && size <= 28 {
        Some(size as u32)
    } else {
        None
    }
}

/// What the number lacks of `from`, where that is a number of so many bits.
#[tactic(auto, unfolding(crate::specs::Fields::descending_field))]
fn descending_field(from: u16, bits: u32, negative: bool, size: u64) -> Option<u32>
    requires { bits < 32 }
    ensures { result ≡ descending_field from bits negative size }
{
    let from = u64::from(from);
    if !negative && 0 < size && size <= from && from - size < 1 << bits {
        Some((from - size) as u32)
    } else {
        None
    }
}

/// The field, up to the greatest, that times `scale` and with `base` more is the number.
#[tactic(auto, unfolding(crate::specs::Fields::unsigned_field))]
fn unsigned_field(base: u16, scale: u16, most: u16, negative: bool, size: u64) -> Option<u32>
    requires { 0 < scale }
    ensures { result ≡ unsigned_field base scale most negative size }
{
    let base = u64::from(base);
    let scale = u64::from(scale);
    if !negative
        && base <= size
        && (size - base) % scale == 0
        && (size - base) / scale <= u64::from(most)
    {
        Some(((size - base) / scale) as u32)
    } else {
        None
    }
}

/// The field of so many bits in two's complement that times `scale` is the number.
#[tactic(auto, unfolding(crate::specs::Fields::signed_field))]
fn signed_field(bits: u32, scale: u16, negative: bool, size: u64) -> Option<u32>
    requires some { 0 < bits }
    requires few { bits < 32 }
    requires scale { 0 < scale }
    ensures { result ≡ signed_field bits scale negative size }
{
    let scale = u64::from(scale);
    let half = 1u64 << (bits - 1);
    let all = 1u64 << bits;
    let magnitude = size / scale;
    if size % scale != 0 {
        None
    } else if negative {
        if magnitude <= half {
            Some(((all - magnitude) % all) as u32)
        } else {
            None
        }
    } else if magnitude < half {
        Some(magnitude as u32)
    } else {
        None
    }
}

/// The fields N, immr and imms of a mask.
fn mask_field(wide: bool, mask: u64) -> Option<u32>
    ensures { result ≡ mask_field wide mask }
{
    if !wide && mask >= 1 << 32 {
        return None;
    }
    match mask_fields(mask, wide) {
        Some((n, imms, immr)) => Some(u32::from(n) * 4096 + u32::from(immr) * 64 + u32::from(imms)),
        None => None,
    }
}

/// The number of the width, where a negative one is in two's complement.
#[tactic(auto, unfolding(crate::specs::Fields::immediate_of))]
fn immediate(wide: bool, negative: bool, size: u64) -> Option<u64>
    ensures value { result ≡ immediate_of wide negative size }
    ensures in_range { IfSome result (λ number. number < 2 ^ width_of wide) }
{
    match (wide, negative) {
        (true, true) => if size <= 1 << 63 {
            Some(size.wrapping_neg())
        } else {
            None
        },
        (true, false) => Some(size),
        (false, true) => if size <= 1 << 31 {
            Some(((1 << 32) - size) % (1 << 32))
        } else {
            None
        },
        (false, false) => if size < 1 << 32 { Some(size) } else { None },
    }
}

/// The fields immr and imms of a shift to the left.
#[tactic(auto, unfolding(crate::specs::Fields::shift_left_field))]
fn shift_left_field(wide: bool, negative: bool, size: u64) -> Option<u32>
    ensures { result ≡ shift_left_field wide negative size }
{
    let width = if wide { 64 } else { 32 };
    let immr_factor = if wide { 64 } else { 32 };
    if !negative && size < width {
        Some(((width - size) % width * immr_factor + (width - 1 - size)) as u32)
    } else {
        None
    }
}

/// Whether the number has no bits but those of the halfword of that index.
#[tactic(auto, unfolding(crate::specs::Fields::is_halfword_at))]
fn is_halfword_at(number: u64, index: u32) -> bool
    requires { index < 4 }
    ensures { result ≡ is_halfword_at number index }
{
    let unit = 1u64 << (16 * index);
    number % unit == 0 && number / unit < 65536
}

/// The index of the lowest halfword, of so many, that has all bits of the number.
fn halfword_index(number: u64, count: u32) -> Option<u32>
    requires { count ≤ 4 }
    ensures value { result ≡ find (is_halfword_at number) (range_with_len 0 count) }
    ensures in_range { IfSome result (λ index. index < 4) }
    ensures passes { IfSome result (λ index. is_halfword_at number index ≡ true) }
{
    for index in 0..count {
        if is_halfword_at(number, index) {
            return Some(index);
        }
    }
    None
}

/// The index of the lowest halfword that has all bits of the number, above these bits.
#[tactic(auto, unfolding(crate::specs::Fields::halfword_field))]
fn halfword_field(wide: bool, number: u64) -> Option<u32>
    ensures { result ≡ halfword_field wide number }
{
    match halfword_index(number, if wide { 4 } else { 2 }) {
        Some(index) => Some(index * 65536 + (number >> (16 * index)) as u32),
        None => None,
    }
}

/// The number of the width, or all its bits inverted.
#[tactic(auto, unfolding(crate::specs::Fields::inverted_if))]
fn inverted_if(wide: bool, inverted: bool, number: u64) -> u64
    requires { number < 2 ^ width_of wide }
    ensures { result ≡ inverted_if wide inverted number }
{
    match (inverted, wide) {
        (true, true) => u64::MAX - number,
        (true, false) => u64::from(u32::MAX) - number,
        (false, _) => number,
    }
}

/// The fields of a mask that is not negative.
#[inline(never)]
fn positive_mask_field(wide: bool, negative: bool, size: u64) -> Option<u32>
    ensures { result ≡ (if negative then None else mask_field wide size) }
{
    if negative {
        None
    } else {
        mask_field(wide, size)
    }
}

/// The fields of a mask that may be written as a negative number.
#[inline(never)]
fn signed_mask_field(wide: bool, negative: bool, size: u64) -> Option<u32>
    ensures { result ≡ option_and_then (mask_field wide) (immediate_of wide negative size) }
{
    match immediate(wide, negative, size) {
        Some(mask) => mask_field(wide, mask),
        None => None,
    }
}

/// The halfword of a number that may be negative, or of its bits inverted.
#[inline(never)]
fn signed_halfword_field(wide: bool, inverted: bool, negative: bool, size: u64) -> Option<u32>
    ensures { result ≡ option_and_then (λ number. halfword_field wide (inverted_if wide inverted number))
        (immediate_of wide negative size) }
{
    match immediate(wide, negative, size) {
        Some(number) => halfword_field(wide, inverted_if(wide, inverted, number)),
        None => None,
    }
}

/// The opposite of one of `count` conditions from index `first` on.
fn opposite_field(first: u16, count: u16, index: u16) -> Option<u32>
    ensures { result ≡ option_map (λ field. bit_xor field 1) (keyword_field first count index) }
{
    match keyword_field(first, count, index) {
        Some(field) => Some(field ^ 1),
        None => None,
    }
}

/// The number of a field of so many bits that a number says.
#[inline(always)]
fn number_said(kind: Kind, bits: u32, negative: bool, size: u64) -> Option<u32>
    requires few { bits < 32 }
    requires factor { has_factor kind bits ≡ true }
    ensures { result ≡ field_said kind bits (Number negative size) }
{
    match kind {
        Kind::Punctuation(_) => None,
        Kind::Keyword { .. } => None,
        Kind::Register { .. } => None,
        Kind::Sized { .. } => None,
        Kind::SliceRegister => None,
        Kind::Index => None,
        Kind::Pattern { .. } => pattern_of_number(negative, size),
        Kind::Descending { from } => descending_field(from, bits, negative, size),
        Kind::Unsigned { base, scale, most } => unsigned_field(base, scale, most, negative, size),
        Kind::Signed { scale } => signed_field(bits, scale, negative, size),
        Kind::Distance { .. } => None,
        Kind::Mask { wide } => positive_mask_field(wide, negative, size),
        Kind::SignedMask { wide } => signed_mask_field(wide, negative, size),
        Kind::ShiftLeft { wide } => shift_left_field(wide, negative, size),
        Kind::Opposite { .. } => None,
        Kind::Halfword { wide, inverted } => signed_halfword_field(wide, inverted, negative, size),
    }
}

/// The number of a field that the keyword of an index says: any name stands for a distance.
#[inline(always)]
fn keyword_said(kind: Kind, index: u16) -> Option<u32>
    ensures { (bits : ℕ) → result ≡ field_said kind bits (Keyword index) }
{
    match kind {
        Kind::Punctuation(_) => None,
        Kind::Keyword { first, count } => keyword_field(first, count, index),
        Kind::Register { last, .. } => last_field(last, index),
        Kind::Sized { .. } => None,
        Kind::SliceRegister => None,
        Kind::Index => None,
        Kind::Pattern { first } => pattern_of_keyword(first, index),
        Kind::Descending { .. } => None,
        Kind::Unsigned { .. } => None,
        Kind::Signed { .. } => None,
        Kind::Distance { .. } => Some(0),
        Kind::Mask { .. } => None,
        Kind::SignedMask { .. } => None,
        Kind::ShiftLeft { .. } => None,
        Kind::Opposite { first, count } => opposite_field(first, count, index),
        Kind::Halfword { .. } => None,
    }
}

/// The number of a field that a register says: any name stands for a distance.
#[inline(always)]
fn register_said(kind: Kind, bits: u32, file: RegisterFile, number: u8) -> Option<u32>
    requires { bits < 32 }
    ensures { result ≡ field_said kind bits (Register file number) }
{
    match kind {
        Kind::Register { file: wanted, .. } => register_field(wanted, file, number),
        Kind::SliceRegister => slice_field(bits, file, number),
        Kind::Distance { .. } => Some(0),
        _ => None,
    }
}

/// The number of a field of so many bits that a register with a size says: any name stands for a distance.
#[inline(always)]
fn sized_said(kind: Kind, bits: u32, file: VectorFile, number: u8, suffix: u16) -> Option<u32>
    requires few { bits < 32 }
    requires factor { has_factor kind bits ≡ true }
    ensures { result ≡ field_said kind bits (Sized file number suffix) }
{
    match kind {
        Kind::Sized {
            file: wanted,
            bits: few,
            suffix: first,
        } => { sized_field(wanted, few, first, bits, file, number, suffix) }
        Kind::Distance { .. } => Some(0),
        _ => None,
    }
}

/// The number of a field of so many bits that a number without `#` says.
fn bare_said(kind: Kind, bits: u32, size: u64) -> Option<u32>
    requires { bits < 32 }
    ensures { result ≡ field_said kind bits (Bare size) }
{
    match kind {
        Kind::Index => index_field(bits, size),
        _ => None,
    }
}

/// The number of a field that a name says that is no keyword: any stands for a distance.
fn name_said(kind: Kind) -> Option<u32>
    ensures { (bits : ℕ) → result ≡ field_said kind bits Name }
{
    match kind {
        Kind::Distance { .. } => Some(0),
        _ => None,
    }
}

/// The number of a field of so many bits that a distance says.
fn distance_said(kind: Kind, bits: u32, back: bool, size: u64) -> Option<u32>
    requires few { bits < 32 }
    requires factor { has_factor kind bits ≡ true }
    ensures { result ≡ field_said kind bits (Distance back size) }
{
    match kind {
        Kind::Distance { scale } => signed_field(bits, scale, back, size),
        _ => None,
    }
}

/// The number of a field that punctuation says: 0 where it is the one.
#[inline(always)]
fn punctuation_said(kind: Kind, character: u8) -> Option<u32>
    ensures { (bits : ℕ) → result ≡ field_said kind bits (Punctuation character) }
{
    match kind {
        Kind::Punctuation(wanted) => { if character == wanted { Some(0) } else { None } }
        _ => None,
    }
}

/// The number of a field of so many bits that the token says.
#[inline(always)]
pub(crate) fn field_said(kind: Kind, bits: u32, token: Token) -> Option<u32>
    requires few { bits < 32 }
    requires factor { has_factor kind bits ≡ true }
    ensures { result ≡ field_said kind bits token }
{
    match token {
        Token::Register { file, number } => register_said(kind, bits, file, number),
        Token::Sized {
            file,
            number,
            suffix,
        } => sized_said(kind, bits, file, number, suffix),
        Token::Keyword(index) => keyword_said(kind, index),
        Token::Name => name_said(kind),
        Token::Number { negative, size } => number_said(kind, bits, negative, size),
        Token::Distance { back, size } => distance_said(kind, bits, back, size),
        Token::Bare(size) => bare_said(kind, bits, size),
        Token::Malformed => None,
        Token::Punctuation(character) => punctuation_said(kind, character),
        Token::Other => None,
    }
}
