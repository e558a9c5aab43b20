//! The laws of worlds and of their serial events.
ghost use Rattle.std.specs.Prelude.{◌≡◌, ◌≤◌, List};
ghost use Rattle.sm_types.specs.declared.config.Config.{Config};
ghost use Rattle.paged_memory.specs.Image.{Program};
ghost use Rattle.world_core.specs.Happens.{happens, world_after};
ghost use Rattle.world_core.specs.Kept.{IsKept};
ghost use Rattle.world_core.specs.Rounds.{AreRounds};
ghost use Rattle.world_core.specs.Serial.{AreSerial};
ghost use Rattle.world_core.specs.World.{World, start_world, threads_of};
ghost use Rattle.sm_types.specs.declared.world_event.WorldEvent.{WorldEvent};

/// In each world that events lead to from the start, whatever they are, each thread is exactly once in the
/// queue, in one core's residents or among those that are done; the history is legal, each thread's journal
/// is its part of it, and each thread is where it comes to alone over its journal. Each event keeps that.
pub fn worlds_are_kept()
    ensures event { (program : Program) (w : World) (e : WorldEvent) → IsKept program w
        → IsKept program (happens w e).world }
    ensures events { (program : Program) (config : Config) (es : List WorldEvent)
        → IsKept program (world_after (start_world program config) es) }
{}

/// The serial events of a world, as the phases of the code have them, are the events of rounds on core 0, and
/// the events of rounds are the serial events. Where the rounds from the start end, each thread is done.
pub fn serial_events_are_rounds()
    ensures rounds { (w : World) (events : List WorldEvent) (last : World) → AreSerial w events last
        → AreRounds w events last }
    ensures serial { (w : World) (events : List WorldEvent) (last : World) → AreRounds w events last
        → AreSerial w events last }
    ensures done { (program : Program) (config : Config) (events : List WorldEvent) (last : World)
        → 1 ≤ config.cores → AreRounds (start_world program config) events last
        → threads_of last ≡ last.done }
{}
