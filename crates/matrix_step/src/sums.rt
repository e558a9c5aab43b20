//! ADDHA, ADDVA and the outer products.
ghost use Rattle.std.specs.Prelude.{◌≡◌};
ghost use Rattle.sve_table.specs.Ranges.{IsTileAdd, IsOuterProduct};
ghost use Rattle.sve_vectors.specs.Lengths.{vector_bytes};
ghost use Rattle.sve_vectors.specs.State.{length_of};
ghost use Rattle.matrix_step.specs.Step.{added_size, after_add, after_outer_product, core_of, kind_of};
ghost use Rattle.matrix_step.specs.Step.{is_first_signed, is_second_signed};

use outer_products::{MopaKind, mopa};
use sm_types::{OuterProduct, OuterProductOp, Scalars, TileAdd};
use sve_vectors::{Vectors, read_p};
use tile_ops::{TileSum, add_to_tile};
use vector_elements::Size;
use za_array::Za;

/// Adds a vector to each row or each column of a tile.
#[tactic(auto, unfolding(crate::specs::Step::after_add))]
pub(crate) fn exec_add(s: &Scalars, vectors: &Vectors, za: &mut Za, x: &TileAdd)
    requires range { IsTileAdd x.now }
    requires long { length_of vectors.now ≡ vector_bytes za.old.svl }
    ensures za { za.new ≡ record za.old {
      vectors = (after_add x.now
          (core_of s.now vectors.now za.old)).za;
    } }
    ensures scalars { (after_add x.now (core_of s.now vectors.now za.old)).scalars ≡ s.now }
    ensures registers { (after_add x.now (core_of s.now vectors.now za.old)).registers
        ≡ vectors.now.registers }
{
    let _size = za.size();
    let sum = TileSum {
        size: if x.wide { Size::D } else { Size::S },
        vertical: x.vertical,
        pn: read_p(vectors, x.pn),
        pm: read_p(vectors, x.pm),
        zn: vectors.z(x.zn),
    };
    add_to_tile(za, usize::from(x.tile), &sum);
}

/// Whether the elements of the first source have a sign.
fn is_first_signed(op: OuterProductOp) -> bool
    ensures { result ≡ is_first_signed op }
{
    match op {
        OuterProductOp::Smopa | OuterProductOp::Sumopa => true,
        OuterProductOp::Usmopa | OuterProductOp::Umopa => false,
    }
}

/// Whether those of the second have one.
fn is_second_signed(op: OuterProductOp) -> bool
    ensures { result ≡ is_second_signed op }
{
    match op {
        OuterProductOp::Smopa | OuterProductOp::Usmopa => true,
        OuterProductOp::Sumopa | OuterProductOp::Umopa => false,
    }
}

/// The kind of an outer product.
fn kind_of(x: &OuterProduct) -> MopaKind
    ensures { result ≡ kind_of x.now }
{
    MopaKind {
        n_signed: is_first_signed(x.op),
        m_signed: is_second_signed(x.op),
        subtract: x.subtract,
        halves: x.wide,
    }
}

/// Adds an outer product to a tile, or subtracts it.
#[tactic(auto, unfolding(crate::specs::Step::after_outer_product))]
pub(crate) fn exec_outer_product(s: &Scalars, vectors: &Vectors, za: &mut Za, x: &OuterProduct)
    requires range { IsOuterProduct x.now }
    requires long { length_of vectors.now ≡ vector_bytes za.old.svl }
    ensures za { za.new ≡
        record za.old { vectors = (after_outer_product x.now (core_of s.now vectors.now za.old)).za } }
    ensures scalars { (after_outer_product x.now (core_of s.now vectors.now za.old)).scalars ≡ s.now }
    ensures registers { (after_outer_product x.now (core_of s.now vectors.now za.old)).registers
        ≡ vectors.now.registers }
{
    let pn = read_p(vectors, x.pn);
    let pm = read_p(vectors, x.pm);
    mopa(
        za,
        kind_of(x),
        x.tile,
        pn,
        pm,
        vectors.z(x.zn),
        vectors.z(x.zm),
    );
}
