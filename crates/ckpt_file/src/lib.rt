//! The state of one guest thread at a count as a file: `write_ckpt` writes it, and `read_ckpt` reads it back,
//! for a report of the run that it came from.
#![tactic(auto)]

mod laws;
mod put;
mod read;
mod write;

pub use ckpt_fields::CkptFault;
pub use laws::{
    checkpoints_are_read, checkpoints_have_good_fields, checkpoints_stand_in_blocks,
    one_state_a_file,
};
pub use read::read_ckpt;
pub use write::write_ckpt;
