//! The operands of instructions: tokens become the word that a shape gives them, or the first token at fault.
#![tactic(auto)]

mod distances;
mod fault;
mod faults;
mod fields;
mod laws;
mod operands;
mod partial_word;
mod reading;
mod shapes;
mod taking;

pub use distances::{unit_of, with_distance};
pub use fault::FaultKind;
pub use laws::{alias_law, any_distance_law, bare_operand_law, first_fault_law};
pub use operands::{OperandFault, Operands, Target};
pub use reading::read_operands;
