//! The queue and its passes.
ghost use Rattle.std.specs.Prelude.{◌≡◌, true, []};
ghost use Rattle.run_queue.specs.Passes.{is_in_use};
ghost use Rattle.run_queue.specs.Queues.{role_of};

use crate::view::{EachOnce, PassView};
use crossbeam_queue::{Pass, RuledArrayQueue};
use kernel_contexts::Whole;
use shared_region::Port;
use std::sync::atomic::AtomicU64;

/// A queue of contexts with their tickets, which threads of the system share. It has a place for each guest
/// thread of the options.
#[derive(Drop)]
pub struct ContextQueue<P: Port> {
    pub(crate) queue: RuledArrayQueue<Whole<P>, PassView, EachOnce>,
    /// How many threads have started and not stopped, as far as was told: a hint, of which no clause speaks.
    pub(crate) going: AtomicU64,
    /// How many workers have begun to fetch, as far as was told: another hint.
    pub(crate) workers: AtomicU64,
}

/// The right to offer contexts to a queue and to fetch them: what a core has of the queue. Its view says
/// which threads its holder has; in memory it is a single truth value.
#[derive(Drop)]
pub struct QueuePass<P: Port> {
    pub(crate) pass: Pass<Whole<P>, PassView>,
    pub(crate) empty: bool,
    pub ghost bare: { pass.me.1 ≡ [] },
    pub ghost used: { is_in_use (role_of pass) ≡ true },
}
