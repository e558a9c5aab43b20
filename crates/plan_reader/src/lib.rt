//! The plan of a world: a file with an event on each line that is not empty. `read_plan` gives its events, or
//! its first line that says none; `event_lines` gives the numbers of their lines.
#![tactic(auto)]

mod laws;
mod plan;
mod words;

pub use laws::{one_fault, one_line_each, one_plan};
pub use line_reader::{TextFault as PlanFault, TextKind as PlanKind};
pub use plan::{event_lines, read_plan};
pub use sm_types::WorldEvent;
