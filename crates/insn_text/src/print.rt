//! Printing a word.
ghost use Rattle.std.specs.Prelude.{◌≡◌, ℕ, ◌+◌, ◌-◌, ◌*◌, ◌/◌, ◌%◌, ◌^◌, ◌<◌, ◌≤◌, ◌++◌, true, false};
ghost use Rattle.std.specs.Prelude.{length, drop};
ghost use Rattle.std.specs.Prelude.{decimal, codes};
ghost use Rattle.std.specs.Fmt.{digit_glyph};
ghost use Rattle.std.specs.List.{list_all};
ghost use Rattle.std.specs.Str.{IsAscii};
ghost use Rattle.a64_encode.specs.Either.{MeansEither};
ghost use Rattle.insn_text.specs.declared.item.Kind.TheVariants.{Punctuation};
ghost use Rattle.insn_text.specs.Indices.{is_writable, is_sized};
ghost use Rattle.insn_text.specs.Texts.{bits_of, distance_text, field_in, gap, hexadecimal, is_comma};
ghost use Rattle.insn_text.specs.Texts.{is_punctuation, is_positive, item_text, items_text, kind_text};
ghost use Rattle.insn_text.specs.Texts.{mask_in};
ghost use Rattle.insn_text.specs.Texts.{mask_text, register_text, file_text, shape_text, signed_text};
ghost use Rattle.insn_text.specs.Texts.{vector_file_text, sized_text, is_named_pattern, pattern_index};
ghost use Rattle.insn_text.specs.Texts.{pattern_text};
ghost use Rattle.insn_text.specs.Texts.{size_of, text_at, text_of};
ghost use Rattle.insn_text.specs.declared.keywords.TheConstants.{KEYWORDS};

use crate::item::{Item, Kind, RegisterFile, Shape, VectorFile};
use crate::shape::{keyword_at, mnemonic_at, operands_of, shape_of, suffix_at};
use a64_encode::encode;
use arrayvec::ArrayString;
use bit_ops::bit_mask;
use insn_forms::{field_in, run_of_bits};
use sm_types::Insn;

/// Writes the text of a word, and nothing for a word that has none; whatever `out` held is gone.
#[tactic(auto, unfolding(crate::specs::Texts::text_of, crate::specs::Texts::text_of_shape))]
pub fn print_word(word: u32, out: &mut ArrayString<96>)
    ensures text { out.new.bytes ≡ text_of word }
    ensures short { length out.new.bytes < 96 }
{
    out.clear();
    match shape_of(word) {
        Some(shape) => push_shape(out, &shape, word),
        None => {}
    }
}

/// Writes the text of an instruction, each of whose fields is inside its row; whatever `out` held is gone.
pub fn print_insn(insn: &Insn, out: &mut ArrayString<96>)
    requires { (word : ℕ) × MeansEither word insn.now }
    ensures text { (word : ℕ) → MeansEither word insn.now → out.new.bytes ≡ text_of word }
    ensures short { length out.new.bytes < 96 }
{
    match encode(insn) {
        Some(word) => print_word(word, out),
        None => unreachable!(),
    }
}

/// Appends the text of a word of the shape.
#[tactic(auto, unfolding(crate::specs::Texts::shape_text))]
fn push_shape(out: &mut ArrayString<96>, shape: &Shape, word: u32)
    requires { length out.old.bytes + length (shape_text shape.now word) ≤ 96 }
    ensures { out.new.bytes ≡ out.old.bytes ++ shape_text shape.now word }
{
    push_bytes(out, mnemonic_at(shape.mnemonic as usize));
    push_items(out, operands_of(shape), word);
}

/// Appends the texts of operands, with the spaces between them.
fn push_items(out: &mut ArrayString<96>, items: &[Item], word: u32)
    requires sized { list_all is_sized items.now ≡ true }
    requires room { length out.old.bytes + length (items_text word (Punctuation 44) items.now) ≤ 96 }
    ensures { out.new.bytes ≡ out.old.bytes ++ items_text word (Punctuation 44) items.now }
{
    let mut before = Kind::Punctuation(b',');
    for item in items {
        push_gap(out, before, item.kind);
        push_item(out, item, word);
        before = item.kind;
    }
}

/// Appends the space between two operands, where there is one.
#[tactic(auto, unfolding(crate::specs::Texts::gap))]
fn push_gap(out: &mut ArrayString<96>, before: Kind, after: Kind)
    requires { length out.old.bytes + length (gap before after) ≤ 96 }
    ensures { out.new.bytes ≡ out.old.bytes ++ gap before after }
{
    if is_comma(before) || !is_punctuation(before) && !is_punctuation(after) {
        out.push_str(" ");
    }
}

/// Whether the operand is punctuation.
#[tactic(auto, unfolding(crate::specs::Texts::is_punctuation))]
fn is_punctuation(kind: Kind) -> bool
    ensures { result ≡ is_punctuation kind }
{
    matches!(kind, Kind::Punctuation(_))
}

/// Whether the operand is a comma.
#[tactic(auto, unfolding(crate::specs::Texts::is_comma))]
fn is_comma(kind: Kind) -> bool
    ensures { result ≡ is_comma kind }
{
    matches!(kind, Kind::Punctuation(b','))
}

/// Appends the text of an operand of a word.
#[tactic(auto, unfolding(crate::specs::Texts::item_text))]
fn push_item(out: &mut ArrayString<96>, item: &Item, word: u32)
    requires sized { is_sized item.now ≡ true }
    requires room { length out.old.bytes + length (item_text word item.now) ≤ 96 }
    ensures { out.new.bytes ≡ out.old.bytes ++ item_text word item.now }
{
    push_kind(
        out,
        item.kind,
        u32::from(item.field.width) + u32::from(item.field.upper_width),
        number_in(item, word),
    );
}

/// The number of an operand's field in a word.
fn number_in(item: &Item, word: u32) -> u64
    requires { is_sized item.now ≡ true }
    ensures value { result ≡ field_in item.now word }
    ensures small { result < 2 ^ bits_of item.now }
    ensures below { result < 2 ^ 31 }
{
    u64::from(field_in(&item.field, word))
}

/// Appends the text of a field of so many bits.
#[tactic(auto, unfolding(crate::specs::Texts::kind_text))]
fn push_kind(out: &mut ArrayString<96>, kind: Kind, bits: u32, field: u64)
    requires character { is_writable kind ≡ true }
    requires bits { bits < 32 }
    requires field { field < 2 ^ bits }
    requires below { field < 2 ^ 31 }
    requires room { length out.old.bytes + length (kind_text kind bits field) ≤ 96 }
    ensures { out.new.bytes ≡ out.old.bytes ++ kind_text kind bits field }
{
    match kind {
        Kind::Punctuation(character) => push_bytes(out, &[character]),
        Kind::Keyword { first, .. } => push_keyword(out, first as usize + field as usize),
        Kind::Register { file, last } => push_register(out, file, last, field),
        Kind::Sized { file, bits, suffix } => push_sized_field(out, file, bits, suffix, field),
        Kind::SliceRegister => push_slice_register(out, field),
        Kind::Index => push_number(out, field),
        Kind::Pattern { first } => push_pattern(out, first, field),
        Kind::Descending { from } => push_unsigned(out, u64::from(from).saturating_sub(field)),
        Kind::Unsigned { base, scale, .. } => push_unsigned(
            out,
            field * scale as u64 + base as u64,
        ),
        Kind::Signed { scale } => push_signed(
            out,
            is_positive(bits, field),
            size_of(bits, field) * scale as u64,
        ),
        Kind::Distance { scale } => push_distance(
            out,
            is_positive(bits, field),
            size_of(bits, field) * scale as u64,
        ),
        Kind::Mask { wide } => push_mask(out, mask_in(wide, field as u32)),
        Kind::SignedMask { .. }
        | Kind::ShiftLeft { .. }
        | Kind::Opposite { .. }
        | Kind::Halfword { .. } => {}
    }
}

/// Appends the word of an operand.
fn push_keyword(out: &mut ArrayString<96>, index: usize)
    requires { length out.old.bytes + length (text_at KEYWORDS index) ≤ 96 }
    ensures { out.new.bytes ≡ out.old.bytes ++ text_at KEYWORDS index }
{
    push_bytes(out, keyword_at(index));
}

/// Appends the letter of a file of registers.
#[tactic(auto, unfolding(crate::specs::Texts::file_text))]
fn push_file(out: &mut ArrayString<96>, file: RegisterFile)
    requires { length out.old.bytes + length (file_text file) ≤ 96 }
    ensures { out.new.bytes ≡ out.old.bytes ++ file_text file }
{
    match file {
        RegisterFile::X => out.push_str("x"),
        RegisterFile::W => out.push_str("w"),
    }
}

/// Appends a register of a file.
#[tactic(auto, unfolding(crate::specs::Texts::register_text))]
fn push_register(out: &mut ArrayString<96>, file: RegisterFile, last: u16, number: u64)
    requires { length out.old.bytes + length (register_text file last number) ≤ 96 }
    ensures { out.new.bytes ≡ out.old.bytes ++ register_text file last number }
{
    if number == 31 {
        push_keyword(out, last as usize);
    } else {
        push_file(out, file);
        push_number(out, number);
    }
}

/// Appends the letters of a file of vectors, predicates or ZA.
#[tactic(auto, unfolding(crate::specs::Texts::vector_file_text))]
fn push_vector_file(out: &mut ArrayString<96>, file: VectorFile)
    requires { length out.old.bytes + length (vector_file_text file) ≤ 96 }
    ensures { out.new.bytes ≡ out.old.bytes ++ vector_file_text file }
{
    match file {
        VectorFile::Z => out.push_str("z"),
        VectorFile::P => out.push_str("p"),
        VectorFile::B => out.push_str("b"),
        VectorFile::H => out.push_str("h"),
        VectorFile::S => out.push_str("s"),
        VectorFile::D => out.push_str("d"),
        VectorFile::Za => out.push_str("za"),
    }
}

/// Appends such a register: its file, its number and the suffix of an index.
#[tactic(auto, unfolding(crate::specs::Texts::sized_text))]
fn push_sized(out: &mut ArrayString<96>, file: VectorFile, number: u64, suffix: usize)
    requires { length out.old.bytes + length (sized_text file number suffix) ≤ 96 }
    ensures { out.new.bytes ≡ out.old.bytes ++ sized_text file number suffix }
{
    push_vector_file(out, file);
    push_number(out, number);
    push_bytes(out, suffix_at(suffix));
}

/// Appends the register of a field: its number is in the lowest bits, and the bits above give its suffix.
fn push_sized_field(out: &mut ArrayString<96>, file: VectorFile, bits: u8, suffix: u16, field: u64)
    requires few { bits < 32 }
    requires below { field < 2 ^ 31 }
    requires room { length out.old.bytes
        + length (sized_text file (field % 2 ^ bits) (suffix + field / 2 ^ bits)) ≤ 96 }
    ensures { out.new.bytes ≡ out.old.bytes
        ++ sized_text file (field % 2 ^ bits) (suffix + field / 2 ^ bits) }
{
    let size = 1u64 << bits;
    push_sized(
        out,
        file,
        field % size,
        suffix as usize + (field / size) as usize,
    );
}

/// Appends one of the registers W12 to W15.
fn push_slice_register(out: &mut ArrayString<96>, field: u64)
    requires small { field < 2 ^ 31 }
    requires room { length out.old.bytes + length (codes "w" ++ decimal (12 + field)) ≤ 96 }
    ensures { out.new.bytes ≡ out.old.bytes ++ (codes "w" ++ decimal (12 + field)) }
{
    out.push_str("w");
    push_number(out, 12 + field);
}

/// Whether the pattern has a word.
#[tactic(auto, unfolding(crate::specs::Texts::is_named_pattern))]
fn is_named_pattern(field: u64) -> bool
    ensures { result ≡ is_named_pattern field }
{
    field < 14 || 28 < field
}

/// The index of its keyword, after the first of them.
#[tactic(auto, unfolding(crate::specs::Texts::pattern_index))]
fn pattern_index(field: u64) -> u64
    ensures value { result ≡ pattern_index field }
    ensures small { result ≤ field }
{
    if field < 14 {
        field
    } else {
        field.saturating_sub(15)
    }
}

/// Appends a pattern.
#[tactic(auto, unfolding(crate::specs::Texts::pattern_text))]
fn push_pattern(out: &mut ArrayString<96>, first: u16, field: u64)
    requires small { field < 2 ^ 31 }
    requires room { length out.old.bytes + length (pattern_text first field) ≤ 96 }
    ensures { out.new.bytes ≡ out.old.bytes ++ pattern_text first field }
{
    if is_named_pattern(field) {
        push_keyword(out, first as usize + pattern_index(field) as usize);
    } else {
        push_unsigned(out, field);
    }
}

/// Appends a number.
fn push_unsigned(out: &mut ArrayString<96>, number: u64)
    requires { length out.old.bytes + length (codes "#" ++ decimal number) ≤ 96 }
    ensures { out.new.bytes ≡ out.old.bytes ++ (codes "#" ++ decimal number) }
{
    out.push_str("#");
    push_number(out, number);
}

/// Whether a signed number of so many bits is not negative.
#[tactic(auto, unfolding(crate::specs::Texts::is_positive))]
fn is_positive(bits: u32, field: u64) -> bool
    requires { bits < 32 }
    ensures { result ≡ is_positive bits field }
{
    field < 1 << bits.saturating_sub(1)
}

/// The size of a signed number of so many bits, without its sign.
#[tactic(auto, unfolding(crate::specs::Texts::size_of))]
fn size_of(bits: u32, field: u64) -> u64
    requires bits { bits < 32 }
    requires field { field < 2 ^ bits }
    ensures value { result ≡ size_of bits field }
    ensures small { result < 2 ^ 32 }
{
    if is_positive(bits, field) {
        field
    } else {
        (1 << bits) - field
    }
}

/// Appends a number of this sign and size.
#[tactic(auto, unfolding(crate::specs::Texts::signed_text))]
fn push_signed(out: &mut ArrayString<96>, positive: bool, size: u64)
    requires { length out.old.bytes + length (signed_text positive size) ≤ 96 }
    ensures { out.new.bytes ≡ out.old.bytes ++ signed_text positive size }
{
    if positive {
        out.push_str("#");
        push_number(out, size);
    } else {
        out.push_str("#-");
        push_number(out, size);
    }
}

/// Appends a distance of this sign and size.
#[tactic(auto, unfolding(crate::specs::Texts::distance_text))]
fn push_distance(out: &mut ArrayString<96>, positive: bool, size: u64)
    requires { length out.old.bytes + length (distance_text positive size) ≤ 96 }
    ensures { out.new.bytes ≡ out.old.bytes ++ distance_text positive size }
{
    if positive {
        out.push_str(".+");
        push_number(out, size);
    } else {
        out.push_str(".-");
        push_number(out, size);
    }
}

/// The mask of the fields N, immr and imms, or of immr and imms alone.
#[tactic(auto, unfolding(crate::specs::Texts::mask_in))]
fn mask_in(wide: bool, bits: u32) -> Option<u64>
    ensures { result ≡ mask_in wide bits }
{
    bit_mask(
        run_of_bits(bits, 12, 1) == 1,
        run_of_bits(bits, 0, 6) as u8,
        run_of_bits(bits, 6, 6) as u8,
        wide,
    )
}

/// Appends a mask.
#[tactic(auto, unfolding(crate::specs::Texts::mask_text))]
fn push_mask(out: &mut ArrayString<96>, mask: Option<u64>)
    requires { length out.old.bytes + length (mask_text mask) ≤ 96 }
    ensures { out.new.bytes ≡ out.old.bytes ++ mask_text mask }
{
    match mask {
        Some(mask) => {
            out.push_str("#0x");
            push_hexadecimal(out, mask);
        }
        None => {}
    }
}

/// Appends a number in decimal.
fn push_number(out: &mut ArrayString<96>, number: u64)
    requires { length out.old.bytes + length (decimal number) ≤ 96 }
    ensures { out.new.bytes ≡ out.old.bytes ++ decimal number }
{
    let mut buffer = itoa::Buffer::new();
    out.push_str(buffer.format(number));
}

/// Appends a number in hexadecimal.
fn push_hexadecimal(out: &mut ArrayString<96>, number: u64)
    requires { length out.old.bytes + length (hexadecimal number) ≤ 96 }
    ensures { out.new.bytes ≡ out.old.bytes ++ hexadecimal number }
{
    let mut buffer = [0; 16];
    let start = write_hexadecimal(&mut buffer, number);
    push_bytes(out, &buffer[start..]);
}

/// Writes the digits of a number at the end of the buffer, and says where they start.
fn write_hexadecimal(buffer: &mut [u8; 16], number: u64) -> usize
    ensures start { result < 16 }
    ensures digits { drop result buffer.new ≡ hexadecimal number }
{
    let mut rest = number;
    for done in 0..16 {
        let at = 15 - done;
        buffer[at] = digit(rest % 16);
        rest /= 16;
        if rest == 0 {
            return at;
        }
    }
    unreachable!()
}

/// The hexadecimal digit of a number below 16.
fn digit(number: u64) -> u8
    requires { number < 16 }
    ensures value { result ≡ digit_glyph false number }
    ensures ascii { result < 128 }
{
    if number < 10 {
        b'0' + number as u8
    } else {
        b'a' + (number as u8 - 10)
    }
}

/// Appends bytes of ASCII.
fn push_bytes(out: &mut ArrayString<96>, bytes: &[u8])
    requires ascii { IsAscii bytes.now }
    requires room { length out.old.bytes + length bytes.now ≤ 96 }
    ensures { out.new.bytes ≡ out.old.bytes ++ bytes.now }
{
    for byte in bytes {
        out.push(*byte as char);
    }
}
