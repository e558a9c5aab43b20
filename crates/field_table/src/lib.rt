//! Files that are tables of fields: what each field must be, the first field that is not so, and a place in a
//! file from which fields are read one after the other.
#![tactic(auto)]

mod laws;
mod place;

pub use laws::one_filling;
pub use place::{BadField, Place};
