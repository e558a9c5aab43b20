//! Lines of assembly: `parse_line` tells what a line says, or its first fault.
#![tactic(auto)]

mod directive_operands;
mod directives;
mod instructions;
mod laws;
mod line;
mod parse_fault;
mod parsing;
mod statements;

pub use laws::{lines_are_the_grammar, printed_is_read};
pub use line::{Line, LineFault, Statement, Target, Value};
pub use parsing::{parse_bytes, parse_line};
