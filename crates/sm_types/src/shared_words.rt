//! The words that the threads share, and the entries of their history.

use crate::shared_op::Event;

/// An event, with the number of the guest thread that it is of.
#[derive(Clone, Copy, PartialEq, Eq)]
pub struct Entry {
    pub thread: u32,
    pub event: Event,
}

/// The words of 8 bytes that the threads share, and the pending signals of each thread: bit s of
/// `pending[t]` is set where signal s was posted to thread t.
#[derive(Clone, Copy, PartialEq, Eq)]
pub struct Words {
    /// The shared region, from its lowest address.
    pub shared: [u64; 512],
    /// By the thread's number.
    pub pending: [u64; 32],
}
