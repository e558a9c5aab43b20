//! The laws of lone runs that no run needs: a thread that shares its words with no other has one run, the
//! number of cores changes no run, and a run that is made in two parts comes to what it comes to in one.
#![tactic(auto)]

mod laws;

pub use laws::{cores_change_no_run, events_come_in_order, one_run, rests_come_to_the_run};
