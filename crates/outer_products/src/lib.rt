//! The outer products of integer elements into tiles of ZA: each element of a tile changes by the sum of four
//! products of source elements, of 8 bits for words and of 16 bits for doublewords. The elements of a source
//! become numbers with a sign of twice the size, zero for those that are not active, so that one loop over a
//! row serves signs and predicates alike.
#![tactic(auto)]

mod dots;
mod kind;
mod laws;
mod outer;
mod rows;
mod sources;

pub use kind::MopaKind;
pub use laws::{products_are_at_their_places, products_keep_tiles};
pub use outer::mopa;
