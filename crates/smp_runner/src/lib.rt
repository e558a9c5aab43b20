//! Guest threads run by several threads of the system at once. A worker is such a thread, with one core: it
//! fetches contexts from a queue that all workers share, lets them make turns, and offers them again
//! (`run_worker`). `run_cores` starts a worker for each core over one table of shared words, and runs all
//! guest threads to their stops.
#![tactic(auto)]

mod contexts;
mod gather;
mod run;
mod worker;
mod workers;

pub use run::run_cores;
pub use worker::run_worker;
