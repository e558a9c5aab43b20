//! The serial events of a world, all on core 0.
ghost use Rattle.std.specs.Prelude.{◌≡◌, length};
ghost use Rattle.world_core.specs.Serial.{filling, event_in, phase_by};

use core_unit::{PLACES, RunWhy};
use sm_types::WorldEvent;

/// What the core is about to do.
#[derive(Clone, Copy, Debug, PartialEq, Eq)]
pub enum Phase {
    /// It is filled from the queue, and then its first resident runs.
    Fills,
    /// Its first resident, which has run and goes on, gives way.
    GivesWay,
}

/// The event that fills the core, of so many residents, from the queue, of so many threads, or else runs it.
fn filling(slice: u32, queued: usize, resident: usize) -> Option<WorldEvent>
    ensures { result ≡ filling slice queued resident }
{
    if queued > 0 && resident < PLACES {
        Some(WorldEvent::Fetch { core: 0 })
    } else if resident > 0 {
        Some(WorldEvent::Run { core: 0, k: slice })
    } else {
        None
    }
}

/// The next serial event, if there is one.
pub fn event_in(phase: Phase, slice: u32, queued: usize, resident: usize) -> Option<WorldEvent>
    ensures { result ≡ event_in phase slice queued resident }
{
    match phase {
        Phase::Fills => filling(slice, queued, resident),
        Phase::GivesWay => {
            if queued > 0 {
                Some(WorldEvent::Offer { core: 0 })
            } else if resident >= 2 {
                Some(WorldEvent::Next { core: 0 })
            } else {
                filling(slice, queued, resident)
            }
        }
    }
}

/// What the core is about to do after a run.
pub fn phase_by(why: RunWhy) -> Phase
    ensures { result ≡ phase_by why }
{
    match why {
        RunWhy::Spent => Phase::GivesWay,
        RunWhy::Yielded => Phase::GivesWay,
        _ => Phase::Fills,
    }
}
