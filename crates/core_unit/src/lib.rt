//! A core: a queue of guest threads that are resident in it, of which the first one makes turns on the core's
//! bank. `Core::run` lets it make turns until so many are made, it gives way or it stops.
#![tactic(auto)]

mod moves;
mod resident;
mod run;
mod turns;
mod unit;

pub use run::{CoreRun, RunWhy};
pub use unit::{Core, PLACES};
