//! The table of the vector instructions of SVE and SME, and what a word means by it.
//!
//! It has the form of the table of the scalar instructions, beside which it stands: its operations, fields,
//! conditions and meanings are its own.
#![tactic(auto)]

mod conditions;
pub mod fields;
mod group;
mod insn;
mod laws;
mod operation;
mod parts;
mod rows;
mod values;

pub use conditions::{condition, fits};
pub use group::is_vector;
pub use insn::insn_given;
pub use laws::{fits_of_rows, has_word, in_range, one_meaning, one_row, one_word, rows_of_lines};
pub use operation::{
    AccessForm, ArrayForm, CompareForm, CopyForm, CountForm, ElementForm, PermuteForm,
    PredicateForm, ReductionForm, ShiftSize, StreamingForm, Sve2Form, VectorOperation, number_of,
};
pub use parts::parts_of;
pub use rows::{VECTOR_LINES, VECTOR_ROWS};
