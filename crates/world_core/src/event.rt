//! What the events of a world answer.
ghost use Rattle.std.specs.Prelude.{◌≡◌};
ghost use Rattle.world_core.specs.Events.{core_number};

use core_unit::CoreRun;
use sm_types::WorldEvent;

/// Why an event is not enabled: the first of those that bear on it.
#[derive(Clone, Copy, Debug, PartialEq, Eq)]
pub enum Why {
    /// There is no core of that number.
    NoCore(u32),
    /// The core has no resident.
    NoResident,
    /// The core has one resident alone.
    OneResident,
    /// The core has so many residents, and no place for another.
    CoreFull(usize),
    /// No thread is in the queue.
    QueueEmpty,
}

/// What an event came to.
#[derive(Clone, Copy, Debug, PartialEq, Eq)]
pub enum Applied {
    /// It happened.
    Done,
    /// The core ran so.
    Ran(CoreRun),
    /// It is not enabled, and nothing has changed.
    NotEnabled(Why),
}

/// The number of the core on which an event is.
pub fn core_number(event: WorldEvent) -> u32
    ensures { result ≡ core_number event }
{
    match event {
        WorldEvent::Run { core, k: _ } => core,
        WorldEvent::Next { core } => core,
        WorldEvent::Fetch { core } => core,
        WorldEvent::Offer { core } => core,
    }
}
