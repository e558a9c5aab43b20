//! Whether it is worth while to look into an empty queue again, and whether to take a second thread.

use crate::queue::ContextQueue;
use shared_region::Port;
use std::sync::atomic::Ordering;

impl<P: Port> ContextQueue<P> {
    /// Tells that a thread is to run, so that its context will be offered until it has stopped.
    pub fn tell_start(&self) {
        self.going.fetch_add(1, Ordering::SeqCst);
    }

    /// Tells that a thread has stopped, so that its context will not be offered again.
    pub fn tell_stop(&self) {
        let _before = self.going.fetch_update(
            Ordering::SeqCst,
            Ordering::SeqCst,
            |left| left.checked_sub(1),
        );
    }

    /// Tells that memory was wanting to one who has contexts, so that nobody waits for them.
    pub fn tell_want(&self) {
        self.going.store(0, Ordering::SeqCst);
    }

    /// Tells that one more worker begins to fetch.
    pub fn tell_worker(&self) {
        self.workers.fetch_add(1, Ordering::SeqCst);
    }

    /// Whether there are more threads than workers, as far as was told: threads of which a start was told and
    /// no stop, and workers that have begun. Where there are not, a second thread of one worker is one that
    /// another worker could run. It is a hint too: no clause speaks of it.
    pub fn has_more_than_workers(&self) -> bool {
        self.going.load(Ordering::SeqCst) > self.workers.load(Ordering::SeqCst)
    }

    /// Whether a context may still be offered, as far as was told: that of a thread of which a start was told
    /// and no stop. It is a hint for those who find the queue empty: no clause speaks of it, and those of
    /// `offer` and `fetch` do not rest on it.
    pub fn expects_offers(&self) -> bool {
        self.going.load(Ordering::SeqCst) > 0
    }
}
