//! The lines of a table.
ghost use Rattle.std.specs.Prelude.{◌≡◌, ◌↔◌, IsTrue, bit_and, option_map, slice_get};
ghost use Rattle.std.specs.List.{find};
ghost use Rattle.insn_forms.specs.Tables.{has_bits};

use crate::field::Fields;

/// A line of a table: which bits of a word are fixed, their values, the operation, and the places of its
/// fields.
#[derive(Clone, Copy)]
pub struct Line<O> {
    pub mask: u32,
    pub value: u32,
    pub operation: O,
    pub fields: Fields,
}

/// The line at a place of the list.
#[inline(always)]
pub fn line_at<O>(lines: &[Line<O>], place: usize) -> Option<&Line<O>>
    ensures { option_map (λ line. line.now) result ≡ slice_get lines.now place }
{
    if place < lines.len() {
        Some(&lines[place])
    } else {
        None
    }
}

/// Whether the word has these fixed bits.
#[inline(always)]
pub fn matches(mask: u32, value: u32, word: u32) -> bool
    ensures { IsTrue result ↔ (bit_and word mask ≡ value) }
{
    word & mask == value
}

/// The first line with these fixed bits.
pub fn line_with<O>(lines: &[Line<O>], mask: u32, value: u32) -> Option<&Line<O>>
    ensures { option_map (λ line. line.now) result ≡ find (has_bits mask value) lines.now }
{
    for line in lines {
        if has_bits(line, mask, value) {
            return Some(line);
        }
    }
    None
}

/// Whether the line has these fixed bits.
fn has_bits<O>(line: &Line<O>, mask: u32, value: u32) -> bool
    ensures { result ≡ has_bits mask value line.now }
{
    line.mask == mask && line.value == value
}
