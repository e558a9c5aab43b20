//! Lazy saving of ZA in a thread: `__arm_za_disable` and the tail of a call, run word by word, and whether a
//! thread stands where they can be run so.
#![tactic(auto)]

mod block;
mod checks;
mod laws;
mod places;
mod quiet;
mod returning;
mod routines;
mod runs;

pub use block::{buffer_address, read_block, saved_bytes};
pub use laws::routines_run_with_handlers;
pub use places::{RoutinePlaces, is_ready};
pub use returning::a_return_at_once_is_a_run;
pub use routines::{can_disable, can_return};
pub use runs::{run_disable, run_tail};
