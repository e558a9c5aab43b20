//! The lines of a block that say nothing more than their fields.
ghost use Rattle.std.specs.Prelude.{◌≡◌};
ghost use Rattle.std.specs.List.{list_all};
ghost use Rattle.report_reader.specs.Forms as spec;
ghost use Rattle.line_reader.specs.Told.{words_ahead};

use line_reader::{Fields, decimal_number, hex_number, is_hex, is_word, number_below};
use text_lines::{FieldKind, LineKind, form_of};

/// Tells whether all are 0 or 1.
#[tactic(auto, unfolding(crate::specs::Forms::is_bit))]
fn are_bits(word: &[u8]) -> bool
    ensures { result ≡ list_all spec.is_bit word.now }
{
    word.iter().all(|c| *c == b'0' || *c == b'1')
}

/// Tells whether a word is bytes, two digits each.
#[tactic(auto, unfolding(crate::specs::Forms::is_bytes))]
fn is_bytes(word: &[u8]) -> bool
    ensures { result ≡ spec.is_bytes word.now }
{
    0 < word.len() && word.len() % 2 == 0 && is_hex(word)
}

/// Tells whether a word may stand as a field.
#[tactic(auto, unfolding(crate::specs::Forms::is_field))]
fn is_field(field: FieldKind, word: &[u8]) -> bool
    ensures { result ≡ spec.is_field field word.now }
{
    match field {
        FieldKind::Number => number_below(0x1_0000_0000, word).is_some(),
        FieldKind::Long => decimal_number(word).is_some(),
        FieldKind::Value => hex_number(16, word).is_some(),
        FieldKind::Truth => word.len() == 1 && are_bits(word),
        FieldKind::Flags => word.len() == 4 && are_bits(word),
        FieldKind::Bytes => is_bytes(word),
        FieldKind::Digest => word.len() == 64 && is_hex(word),
    }
}

/// Tells whether the words that are left are those fields.
fn are_fields(fields: &[FieldKind], words: &mut Fields) -> bool
    ensures { result ≡ spec.are_fields fields.now (words_ahead words.old) }
{
    for field in fields {
        match words.next() {
            Some(word) => {
                if !is_field(*field, word) {
                    return false;
                }
            }
            None => return false,
        }
    }
    words.end(()).is_some()
}

/// Tells whether a line is of a kind.
#[tactic(auto, unfolding(crate::specs::Forms::is_line, crate::specs::Forms::has_form))]
pub fn is_line(kind: LineKind, line: &[u8]) -> bool
    ensures { result ≡ spec.is_line kind line.now }
{
    let form = form_of(kind);
    let mut words = Fields::of(line);
    match words.next() {
        Some(word) => is_word(word, form.name) && are_fields(form.fields, &mut words),
        None => false,
    }
}
