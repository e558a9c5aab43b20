//! The events of a world of cores.

/// An event of the world.
#[derive(Clone, Copy, Debug, PartialEq, Eq)]
pub enum WorldEvent {
    /// The first resident of a core makes so many turns, until it gives way or stops.
    Run { core: u32, k: u32 },
    /// The first resident of a core moves last.
    Next { core: u32 },
    /// The thread at the queue's front becomes the last resident of a core.
    Fetch { core: u32 },
    /// The first resident of a core goes to the queue's back.
    Offer { core: u32 },
}
