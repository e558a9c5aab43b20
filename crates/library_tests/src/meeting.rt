//! A gate at which two workers meet, which shows that they run at once.
ghost use Rattle.std.specs.Prelude.{◌<◌};

use edge_io::Gate;
use std::sync::atomic::{AtomicU64, Ordering};

/// How often a first pass looks for the other worker's.
const TRIES: u32 = 100_000_000;

/// Holds the first pass of each of two workers until the other has come to its own, and counts passes.
#[derive(Drop)]
pub struct MeetingGate {
    /// Of each worker, that of its first pass: 0 before it, and then the number of its work plus one.
    pub firsts: [AtomicU64; 2],
    /// Of the first two numbers of work, how many passes were for it.
    pub passes: [AtomicU64; 2],
    /// How many first passes did not see the other's.
    pub missed: AtomicU64,
}

impl MeetingGate {
    /// Nobody has come.
    pub fn new() -> MeetingGate {
        MeetingGate {
            firsts: [AtomicU64::new(0), AtomicU64::new(0)],
            passes: [AtomicU64::new(0), AtomicU64::new(0)],
            missed: AtomicU64::new(0),
        }
    }

    /// The first pass of one of the two workers.
    fn meet(&self, core: usize, work: u32)
        requires { core < 2 }
    {
        self.firsts[core].store(u64::from(work).wrapping_add(1), Ordering::SeqCst);
        for _ in 0..TRIES {
            if self.firsts[1 - core].load(Ordering::SeqCst) != 0 {
                return;
            }
        }
        self.missed.fetch_add(1, Ordering::SeqCst);
    }
}

impl Gate for MeetingGate {
    fn pass(&self, core: u32, turn: u64, work: u32) {
        if work < 2 {
            self.passes[work as usize].fetch_add(1, Ordering::SeqCst);
        }
        if turn == 0 && core < 2 {
            self.meet(core as usize, work);
        }
    }
}
