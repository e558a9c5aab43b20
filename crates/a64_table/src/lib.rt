//! The table of the scalar instructions of A64, and what a word means by it.
//!
//! A row of the table has the fixed bits of one instruction, its operation and its fields by name. A word
//! means the instruction of the row whose fixed bits it has and whose condition it meets, with the fields of
//! that row; at most one row is such. Of this crate the file of the fields alone has the place of a bit.
#![tactic(auto)]

mod conditions;
pub mod fields;
mod insn;
mod laws;
mod operation;
mod parts;
mod rows;
mod values;

pub use conditions::{condition, fits};
pub use insn::insn_given;
pub use laws::{fits_of_rows, has_word, in_range, one_meaning, one_row, one_word, rows_of_lines};
pub use operation::{
    AddressForm, AtomicForm, BranchOp, MultiplyOp, Operation, SystemOp, number_of,
};
pub use parts::parts_of;
pub use rows::{SCALAR_LINES, SCALAR_ROWS};
