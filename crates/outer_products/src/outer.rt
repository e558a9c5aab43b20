//! The outer product of two vectors and a tile.
ghost use Rattle.std.specs.Prelude.{◌≡◌, ◌/◌, ◌<◌, length, true, false};
ghost use Rattle.sve_vectors.specs.Lengths.{vector_bytes};
ghost use Rattle.vector_elements.specs.Numbers.{bytes_in};
ghost use Rattle.za_array.specs.Tiles.{changed_tile};
ghost use Rattle.outer_products.specs.OuterProducts.{sum_size, outer_row};

use crate::kind::MopaKind;
use crate::rows::{ByteSources, HalfwordSources};
use crate::sources::{
    write_active, write_byte_pairs, write_bytes, write_halfword_pairs, write_halfwords,
};
use vector_elements::Size;
use za_array::{Za, change_tile};

/// The outer product of bytes, into a tile of words.
fn mopa_bytes(za: &mut Za, kind: MopaKind, tile: u8, pn: &[u8], pm: &[u8], zn: &[u8], zm: &[u8])
    requires bytes { kind.halves ≡ false }
    requires tile { tile < 4 }
    requires pn { length pn.now ≡ vector_bytes za.old.svl / 8 }
    requires pm { length pm.now ≡ vector_bytes za.old.svl / 8 }
    requires zn { length zn.now ≡ vector_bytes za.old.svl }
    requires zm { length zm.now ≡ vector_bytes za.old.svl }
    ensures { za.new ≡ record za.old {
      vectors = changed_tile (bytes_in (sum_size kind.halves)) tile
          (outer_row kind pn.now pm.now zn.now zm.now) za.old.vectors;
    } }
{
    let size = za.size();
    let mut active = [0u8; 256];
    let active = &mut active[..size];
    let mut n = [0i16; 256];
    let n = &mut n[..size];
    let mut m = [0i16; 256];
    let m = &mut m[..size];
    write_active(Size::B, pn, zn, active);
    write_bytes(kind.n_signed, kind.subtract, active, n);
    write_active(Size::B, pm, zm, active);
    write_byte_pairs(kind.m_signed, active, m);
    change_tile(za, 4, usize::from(tile), &ByteSources { n, m });
}

/// The outer product of halfwords, into a tile of doublewords.
fn mopa_halfwords(za: &mut Za, kind: MopaKind, tile: u8, pn: &[u8], pm: &[u8], zn: &[u8], zm: &[u8])
    requires halfwords { kind.halves ≡ true }
    requires tile { tile < 8 }
    requires pn { length pn.now ≡ vector_bytes za.old.svl / 8 }
    requires pm { length pm.now ≡ vector_bytes za.old.svl / 8 }
    requires zn { length zn.now ≡ vector_bytes za.old.svl }
    requires zm { length zm.now ≡ vector_bytes za.old.svl }
    ensures { za.new ≡ record za.old {
      vectors = changed_tile (bytes_in (sum_size kind.halves)) tile
          (outer_row kind pn.now pm.now zn.now zm.now) za.old.vectors;
    } }
{
    let size = za.size();
    let half = size / 2;
    let mut active = [0u8; 256];
    let active = &mut active[..size];
    let mut n = [0i32; 128];
    let n = &mut n[..half];
    let mut m = [0i32; 128];
    let m = &mut m[..half];
    write_active(Size::H, pn, zn, active);
    write_halfwords(kind.n_signed, kind.subtract, active, n);
    write_active(Size::H, pm, zm, active);
    write_halfword_pairs(kind.m_signed, active, m);
    change_tile(za, 8, usize::from(tile), &HalfwordSources { n, m });
}

/// Adds the outer product of the active elements of `zn` and `zm` to tile `tile`, or subtracts it.
/// The vectors have S bytes, S being SVL in bytes, and the predicates S / 8.
/// Source: DDI 0487, C9.2, SMOPA, SUMOPA, USMOPA, UMOPA (4-way) and the subtracting forms.
pub fn mopa(za: &mut Za, kind: MopaKind, tile: u8, pn: &[u8], pm: &[u8], zn: &[u8], zm: &[u8])
    requires tile { tile < bytes_in (sum_size kind.halves) }
    requires pn { length pn.now ≡ vector_bytes za.old.svl / 8 }
    requires pm { length pm.now ≡ vector_bytes za.old.svl / 8 }
    requires zn { length zn.now ≡ vector_bytes za.old.svl }
    requires zm { length zm.now ≡ vector_bytes za.old.svl }
    ensures { za.new ≡ record za.old {
      vectors = changed_tile (bytes_in (sum_size kind.halves)) tile
          (outer_row kind pn.now pm.now zn.now zm.now) za.old.vectors;
    } }
{
    if kind.halves {
        mopa_halfwords(za, kind, tile, pn, pm, zn, zm);
    } else {
        mopa_bytes(za, kind, tile, pn, pm, zn, zm);
    }
}
