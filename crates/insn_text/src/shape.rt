//! The shape in which a word is printed, its mnemonic and its operands.
ghost use Rattle.std.specs.Prelude.{◌≡◌, ℕ, ◌+◌, ◌-◌, ◌<◌, List, length, drop, slice_get, slice_index, take};
ghost use Rattle.std.specs.List.{list_all};
ghost use Rattle.std.specs.Prelude.{true};
ghost use Rattle.std.specs.Str.{IsAscii};
ghost use Rattle.insn_text.specs.Indices.{first_at, if_printed, is_sized, part_of};
ghost use Rattle.insn_text.specs.Texts.{items_of, printed_shape, prints, text_at};

use crate::item::{Item, ItemList, Shape, Text};
use crate::items::{ITEMS, MATRIX_ITEMS, VECTOR_ITEMS};
use crate::keywords::{KEYWORDS, MNEMONICS, SUFFIXES};
use crate::printed::{PRINTED, ROOTS};
use crate::shapes::SHAPES;

/// The shape in which a word is printed, if it has a text.
pub fn shape_of(word: u32) -> Option<Shape>
    ensures { result ≡ printed_shape word }
{
    first_at(
        &SHAPES,
        part_of(&PRINTED, &ROOTS, (word >> 24) as usize),
        word,
    )
}

/// The first of the shapes of these indices in which the word is printed.
fn first_at(shapes: &[Shape], indices: &[u16], word: u32) -> Option<Shape>
    ensures { result ≡ first_at word shapes.now indices.now }
{
    for index in indices {
        match printed_at(shapes, *index as usize, word) {
            Some(shape) => return Some(shape),
            None => {}
        }
    }
    None
}

/// The shape of an index, if the word is printed in it.
#[tactic(auto, unfolding(crate::specs::Indices::if_printed))]
fn printed_at(shapes: &[Shape], index: usize, word: u32) -> Option<Shape>
    ensures { result ≡ if_printed word (slice_get shapes.now index) }
{
    if index < shapes.len() && prints(&shapes[index], word) {
        Some(shapes[index])
    } else {
        None
    }
}

/// Whether the word has the fixed bits of the shape, which is no alias.
#[tactic(auto, unfolding(crate::specs::Texts::prints))]
fn prints(shape: &Shape, word: u32) -> bool
    ensures { result ≡ prints word shape.now }
{
    !shape.alias && word & shape.mask == shape.value
}

/// The indices from one start to the next.
#[tactic(auto, unfolding(crate::specs::Indices::part_of))]
fn part_of<'a>(indices: &'a [u16], starts: &[u16], byte: usize) -> &'a [u16]
    requires { byte < 256 }
    ensures { result.now ≡ part_of indices.now starts.now byte }
{
    let start = start_at(starts, byte);
    run_of_indices(
        indices,
        start,
        start_at(starts, byte + 1).saturating_sub(start),
    )
}

/// The start of an index, and 0 past the end.
fn start_at(starts: &[u16], index: usize) -> usize
    ensures { result ≡ slice_index starts.now index }
{
    if index < starts.len() {
        starts[index] as usize
    } else {
        0
    }
}

/// So many indices, or as many as there are, from the first on.
fn run_of_indices(indices: &[u16], first: usize, count: usize) -> &[u16]
    ensures { result.now ≡ take count (drop first indices.now) }
{
    let start = first.min(indices.len());
    let rest = &indices[start..];
    &rest[..count.min(rest.len())]
}

/// The operands of a shape.
#[tactic(auto, unfolding(crate::specs::Texts::items_of, crate::specs::Texts::items_in))]
pub fn operands_of(shape: &Shape) -> &'static [Item]
    ensures value { result.now ≡ items_of shape.now }
    ensures sized { list_all is_sized result.now ≡ true }
{
    let first = shape.first as usize;
    let count = shape.count as usize;
    match shape.list {
        ItemList::Scalar => run_of_items(&ITEMS, first, count),
        ItemList::Vector => run_of_items(&VECTOR_ITEMS, first, count),
        ItemList::Matrix => run_of_items(&MATRIX_ITEMS, first, count),
    }
}

/// So many items, or as many as there are, from the first on.
fn run_of_items(items: &[Item], first: usize, count: usize) -> &[Item]
    ensures { result.now ≡ take count (drop first items.now) }
{
    let start = first.min(items.len());
    let rest = &items[start..];
    &rest[..count.min(rest.len())]
}

/// The word of an operand.
pub fn keyword_at(index: usize) -> &'static [u8]
    ensures value { result.now ≡ text_at KEYWORDS index }
    ensures ascii { IsAscii result.now }
{
    text_at(&KEYWORDS, index)
}

/// The suffix of a register of vectors, predicates or ZA.
pub fn suffix_at(index: usize) -> &'static [u8]
    ensures value { result.now ≡ text_at SUFFIXES index }
    ensures ascii { IsAscii result.now }
{
    text_at(&SUFFIXES, index)
}

/// The mnemonic of an instruction.
pub fn mnemonic_at(index: usize) -> &'static [u8]
    ensures value { result.now ≡ text_at MNEMONICS index }
    ensures ascii { IsAscii result.now }
{
    text_at(&MNEMONICS, index)
}

/// The text of an index in a table, and none past its end.
#[tactic(auto, unfolding(crate::specs::Texts::text_in))]
fn text_at(texts: &[Text], index: usize) -> &[u8]
    ensures { result.now ≡ text_at texts.now index }
{
    if index < texts.len() {
        let text = &texts[index];
        let length = text.length as usize;
        if length < 12 {
            &text.bytes[..length]
        } else {
            &text.bytes
        }
    } else {
        &[]
    }
}
