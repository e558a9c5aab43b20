//! What the scalar instructions do to the scalar registers: the arithmetic, logical, move, branch and
//! conditional instructions, and those of one, two and three registers.
//!
//! `exec_scalar` changes all registers but PC, and says where PC goes; the caller moves it.
#![tactic(auto)]

mod apart;
mod branches;
mod conditional;
mod exec;
mod fields;
mod flat;
mod flat_of;
mod forms;
mod groups;
mod logic;
mod moves;
mod multiply;
mod operands;
mod payloads;
mod registers;
mod sources;
mod sums;

pub use branches::{address_at, branch_target};
pub use exec::{Flow, exec_scalar};
pub use flat::{Flat, exec_at, flat_means};
pub use flat_of::flatten;
pub use groups::exec_group_at;
pub use operands::{extend, extend_sign};
pub use payloads::{
    Base, BitFields, Extended, Factors, Halfword, Immediate, LeftShifted, OffsetAccess, Registers,
    Selection, Shifted,
};
pub use registers::{next_address, read_x, read_x_or_sp, write_flags, write_x, write_x_or_sp};
