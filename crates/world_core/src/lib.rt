//! The world of every interleaving: a queue of guest threads, cores with their residents, the threads that
//! are done, and the words that they share, with the history of the operations on these. `World::apply`
//! makes one event of it, as a plain world has it (`happens`), or says why the event is not enabled.
#![tactic(auto)]

mod event;
mod finish;
mod laws;
mod scene;
mod serial;
mod serial_run;
mod start;
mod world;

pub use event::{Applied, Why};
pub use laws::{serial_events_are_rounds, worlds_are_kept};
pub use serial_run::run_one;
pub use world::{World, wants_memory};
