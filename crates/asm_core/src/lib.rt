//! The assembler: `assemble` makes the object of a source, or tells its first fault.
#![tactic(auto)]

mod emit_bytes;
mod emit_lines;
mod fault;
mod first_pass;
mod kept_words;
mod labels;
mod laws;
mod line_checks;
mod line_labels;
mod lines;
mod location_counter;
mod object;
mod object_parts;
mod routines;
mod second_pass;
mod start;
mod symbols;
mod target_addresses;
mod target_distance;
mod utf8;

pub use fault::AsmFault;
pub use laws::{one_object, resolved_law};
pub use object::assemble;
