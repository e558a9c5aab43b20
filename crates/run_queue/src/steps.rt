//! How contexts are put into the queue and taken out of it.
ghost use Rattle.std.specs.Prelude.{◌≡◌, ◌<◌, false, Some, is_none, IfSome, IfNone};
ghost use Rattle.crossbeam_queue.specs.Passes.{view};
ghost use Rattle.kernel_contexts.specs.Context.{thread_of};
ghost use Rattle.run_queue.specs.Ticketed.{origin_in, ticketed};
ghost use Rattle.thread_lists.specs.Counts.{occurrences};
ghost use Rattle.run_queue.specs.Passes.{after_offer, HasFetched};
ghost use Rattle.run_queue.specs.Rule.{WasEmpty};
ghost use Rattle.run_queue.specs.Queues.{IsPassFor, origin_of, threads_held};

use crate::queue::{ContextQueue, QueuePass};
use crate::view::{FetchStep, OfferStep};
use kernel_contexts::Whole;
use shared_region::Port;
use std::sync::Wait;

impl<P: Port> QueuePass<P> {
    /// Whether the last fetch or offer through this pass was a fetch that found nothing. A new pass has made
    /// none, and splitting and joining are neither.
    pub fn found_empty(&self) -> bool
        ensures { result ≡ self.now.empty }
    {
        self.empty
    }
}

impl<P: Port> ContextQueue<P> {
    /// Puts a context into the queue, whose thread the pass holds, and then no longer holds. It is of the
    /// image and the options that the pass knows, and its ticket of the port of that name. It is never
    /// refused: the queue has a place for each thread. The call may wait.
    pub fn offer<R: Wait>(&self, rt: &R, pass: &mut QueuePass<P>, whole: Whole<P>)
        requires queue { IsPassFor self.now.queue pass.old.pass }
        requires holds { 0 < occurrences (thread_of whole.context) (threads_held pass.old.pass) }
        requires known { Some (origin_in whole.context (P.tells whole.ticket)) ≡ origin_of pass.old.pass }
        ensures queue { IsPassFor self.now.queue pass.new.pass }
        ensures view { view pass.new.pass ≡ after_offer (view pass.old.pass) (thread_of whole.context) }
        ensures empty { pass.new.empty ≡ false }
    {
        match self
            .queue
            .push_as::<OfferStep, R>(rt, &mut pass.pass, whole)
        {
            Ok(()) => pass.empty = false,
            Err(_back) => unreachable!(),
        }
    }

    /// Takes a context out of the queue, whose thread the pass then holds: one below the number of threads
    /// that it did not hold, of the image, the options and the port that it knows. `None` leaves the pass as
    /// it was, and comes only where what the pass knows agrees with an empty queue. The queue below gives
    /// contexts in the order of their offers; no clause here speaks of that order, and none says that the
    /// queue was empty at a moment of a call that gives `None`. The call may wait.
    pub fn fetch<R: Wait>(&self, rt: &R, pass: &mut QueuePass<P>) -> Option<Whole<P>>
        requires queue { IsPassFor self.now.queue pass.old.pass }
        ensures queue { IsPassFor self.now.queue pass.new.pass }
        ensures got { IfSome result (λ x.
            HasFetched (view pass.old.pass) (ticketed x.context (P.tells x.ticket)) (view pass.new.pass)) }
        ensures same { IfNone result (view pass.new.pass ≡ view pass.old.pass) }
        ensures none { IfNone result (WasEmpty (view pass.old.pass)) }
        ensures empty { pass.new.empty ≡ is_none result }
    {
        let got = self.queue.pop_as::<FetchStep, R>(rt, &mut pass.pass);
        pass.empty = got.is_none();
        got
    }
}
