//! The contiguous loads and stores of vectors and predicates on private memory: `transfer_vector` makes all
//! checks of an access first, and changes registers and memory only where none fails. The checks of runs and
//! of elements, and the stores of both, serve the accesses of ZA too.
#![tactic(auto)]

mod addresses;
mod checks;
mod elements;
mod loads;
mod places;
mod stores;
mod transfers;
mod within_page;

pub use addresses::size_of;
pub use checks::load_fault;
pub use elements::Elements;
pub use places::{Bytes, Check, Run};
pub use transfers::{read_run, store_elements, store_run, transfer_vector};
