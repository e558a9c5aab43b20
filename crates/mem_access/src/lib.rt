//! The loads, stores and atomic instructions on private memory: `transfer` makes all checks of an access
//! first, and changes registers and memory only where none fails. `touches` gives the operation of an access
//! to a word that the threads share. A `Bank` holds the vectors of a thread.
#![tactic(auto)]

mod access;
mod atomic;
mod bank;
mod checks;
mod exchange;
mod near;
mod numbers;
mod pairs;
mod shared_access;
mod stop;
mod transfers;
mod values;

pub use bank::Bank;
pub use checks::first_shared;
pub use near::{load_near, load_pair_near, store_near, store_pair_near};
pub use numbers::{read_number, write_bytes};
pub use shared_access::{touched_fault, touched_is_shared, touches, write_answer};
pub use stop::AccessStop;
pub use transfers::{load_beside, load_one, load_pair, transfer};
