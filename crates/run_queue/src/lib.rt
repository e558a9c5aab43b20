//! The queue through which contexts go from core to core.
//!
//! Each guest thread is in one place: its context is in the queue, or its number is in the list of one pass,
//! whose holder has the context (`IsEachOnce`). A core offers and fetches contexts through a pass of its own.
//! The first pass splits off the others, by number, and takes them back; once it has all of them, an empty
//! queue says that it holds every thread.
#![tactic(auto)]

mod expected;
mod laws;
mod origin;
mod passes;
mod queue;
mod steps;
mod view;

pub use laws::an_empty_queue_left_all;
pub use origin::Origin;
pub use queue::{ContextQueue, QueuePass};
pub use view::{EachOnce, PassView, Role, Whereabouts};
