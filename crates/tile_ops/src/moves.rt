//! Moves between vectors and slices.
ghost use Rattle.std.specs.Prelude.{◌≡◌, ◌+◌, ◌*◌, ◌/◌, ◌%◌, ◌<◌, ◌≤◌, length, if◌then◌else◌};
ghost use Rattle.vector_elements.specs.Elements.{is_active};
ghost use Rattle.vector_elements.specs.Numbers.{bytes_in};
ghost use Rattle.sve_vectors.specs.Lengths.{vector_bytes};
ghost use Rattle.tile_ops.specs.Slices.{IsSliceOf, element_bytes, with_element};
ghost use Rattle.tile_ops.specs.Moves.{merged, chosen_element, moved_to_tile, moved_to_vector};

use crate::elements::copy_element;
use crate::slices::{SliceAt, read_slice, write_slice};
use vector_elements::{Size, are_active, bit};
use za_array::Za;

/// Makes element `i` that of `new` where it is active.
#[inline(always)]
fn choose_element(e: usize, pg: &[u8], new: &[u8], old: &mut [u8], i: usize)
    requires some { 0 < e }
    requires new { i * e + e ≤ length new.now }
    requires old { i * e + e ≤ length old.old }
    requires bits { length old.old ≡ 8 * length pg.now }
    ensures { old.new ≡ with_element e old.old i (chosen_element e pg.now new.now old.old i) }
{
    if bit(pg, e * i) {
        copy_element(e, new, i, old, i);
    }
}

/// Makes each active element that of `new`.
#[inline(always)]
fn merge_elements(e: usize, pg: &[u8], new: &[u8], old: &mut [u8])
    requires some { 0 < e }
    requires whole { length old.old % e ≡ 0 }
    requires new { length new.now ≡ length old.old }
    requires bits { length old.old ≡ 8 * length pg.now }
    ensures { old.new ≡ merged e pg.now new.now old.old }
{
    for i in 0..old.len() / e {
        choose_element(e, pg, new, old, i);
    }
}

/// The same for elements that are numbers. Mostly all are active, and then all bytes are copied.
#[inline(always)]
fn merge_of_size(size: Size, pg: &[u8], new: &[u8], old: &mut [u8])
    requires whole { length old.old % bytes_in size ≡ 0 }
    requires new { length new.now ≡ length old.old }
    requires bits { length old.old ≡ 8 * length pg.now }
    ensures { old.new ≡ merged (bytes_in size) pg.now new.now old.old }
{
    if are_active(pg, size) {
        old.copy_from_slice(new);
    } else {
        merge_elements(size.bytes(), pg, new, old);
    }
}

/// Makes each active element, of `e` bytes, that of `new`, with a loop for each size; the others stay.
pub fn merge(e: usize, pg: &[u8], new: &[u8], old: &mut [u8])
    requires some { 0 < e }
    requires whole { length old.old % e ≡ 0 }
    requires new { length new.now ≡ length old.old }
    requires bits { length old.old ≡ 8 * length pg.now }
    ensures { old.new ≡ merged e pg.now new.now old.old }
{
    match e {
        1 => merge_of_size(Size::B, pg, new, old),
        2 => merge_of_size(Size::H, pg, new, old),
        4 => merge_of_size(Size::S, pg, new, old),
        8 => merge_of_size(Size::D, pg, new, old),
        _ => merge_elements(e, pg, new, old),
    }
}

/// Moves the active elements of a vector to a slice; its other elements stay.
/// Source: DDI 0487, C9.2, MOVA (vector to tile, single).
pub fn move_to_tile(za: &mut Za, slice: SliceAt, pg: &[u8], zn: &[u8])
    requires slice { IsSliceOf (vector_bytes za.old.svl) slice }
    requires long { length zn.now ≡ vector_bytes za.old.svl }
    requires bits { vector_bytes za.old.svl ≡ 8 * length pg.now }
    ensures { za.new ≡ record za.old { vectors = moved_to_tile slice pg.now zn.now za.old.vectors } }
{
    let mut buffer = [0u8; 256];
    let bytes = &mut buffer[..za.size()];
    read_slice(za, slice, bytes);
    merge(slice.bytes, pg, zn, bytes);
    write_slice(za, slice, bytes);
}

/// Moves the active elements of a slice to a vector; its other elements stay.
/// Source: DDI 0487, C9.2, MOVA (tile to vector, single).
pub fn move_to_vector(za: &Za, slice: SliceAt, pg: &[u8], zd: &mut [u8])
    requires slice { IsSliceOf (vector_bytes za.now.svl) slice }
    requires long { length zd.old ≡ vector_bytes za.now.svl }
    requires bits { vector_bytes za.now.svl ≡ 8 * length pg.now }
    ensures { zd.new ≡ moved_to_vector slice pg.now za.now.vectors zd.old }
{
    let mut buffer = [0u8; 256];
    let bytes = &mut buffer[..za.size()];
    read_slice(za, slice, bytes);
    merge(slice.bytes, pg, bytes, zd);
}
