//! The shapes of a mnemonic, and their operands.

ghost use Rattle.std.specs.Prelude.{◌≡◌, ◌+◌, ◌-◌, true, length, take, drop, slice_index};
ghost use Rattle.std.specs.List.{list_all};
ghost use Rattle.insn_text.specs.Texts.{items_of};
ghost use Rattle.insn_text.specs.declared.shapes.TheConstants.{SHAPES, STARTS};
ghost use Rattle.asm_operands.specs.Operands.{shapes_of};
ghost use Rattle.asm_operands.specs.Sound.{is_sound};

use insn_text::{Item, SHAPES, STARTS, Shape, operands_of};

/// The operands of a shape.
pub(crate) fn items_of(shape: &Shape) -> &'static [Item]
    ensures value { result.now ≡ items_of shape.now }
    ensures sound { list_all is_sound result.now ≡ true }
{
    operands_of(shape)
}

/// So many shapes from an index on.
fn shapes_part(shapes: &[Shape], first: usize, count: usize) -> &[Shape]
    ensures { result.now ≡ take count (drop first shapes.now) }
{
    if first > shapes.len() {
        &[]
    } else if count > shapes.len() - first {
        &shapes[first..]
    } else {
        &shapes[first..first + count]
    }
}

fn all_shapes_part(first: usize, count: usize) -> &'static [Shape]
    ensures { result.now ≡ take count (drop first SHAPES) }
{
    shapes_part(&SHAPES, first, count)
}

fn start_at(starts: &[u16], mnemonic: usize) -> usize
    ensures { result ≡ slice_index starts.now mnemonic }
{
    if mnemonic < starts.len() {
        usize::from(starts[mnemonic])
    } else {
        0
    }
}

/// Where the shapes of a mnemonic begin.
fn start_of(mnemonic: usize) -> usize
    ensures { result ≡ slice_index STARTS mnemonic }
{
    start_at(&STARTS, mnemonic)
}

/// The shapes of the mnemonic of that index.
#[tactic(auto, unfolding(crate::specs::Operands::shapes_of))]
pub(crate) fn shapes_of(mnemonic: u16) -> &'static [Shape]
    ensures { result.now ≡ shapes_of mnemonic }
{
    let mnemonic = usize::from(mnemonic);
    let first = start_of(mnemonic);
    all_shapes_part(first, start_of(mnemonic + 1).saturating_sub(first))
}
