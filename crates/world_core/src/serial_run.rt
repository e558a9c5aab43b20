//! A run of all threads on one core, by the serial events.
ghost use Rattle.std.specs.Prelude.{◌≡◌, IfOk};
ghost use Rattle.lone_runner.specs.LoneRun.{HaveRun};
ghost use Rattle.world_core.specs.Serial.{IsSerialRun, phase_after};

use crate::event::Applied;
use crate::serial::{Phase, phase_by};
use crate::world::{World, wants_memory};
use kernel_contexts::Finished;
use paged_memory::Image;
use sm_types::{Config, Memory};
use std::alloc::Global;

/// What the core is about to do after an event.
fn phase_after(answer: Applied) -> Phase
    ensures { result ≡ phase_after answer }
{
    match answer {
        Applied::Ran(run) => phase_by(run.why),
        _ => Phase::Fills,
    }
}

/// Runs every thread of an image to its stop, on one core and by the serial events, so that the run is a
/// function of the image and the options. `Memory` is want of memory.
pub fn run_one(alloc: Global, image: &Image, config: &Config) -> Result<Finished, Memory>
    ensures serial { IfOk result (λ run. IsSerialRun image.now config.now run.contexts.items run.words) }
    ensures run { IfOk result (λ run. HaveRun image.now config.now run.contexts.items run.words) }
{
    let mut world = World::new(alloc, image, config)?;
    let mut phase = Phase::Fills;
    'events: while let Some(event) = world.serial_event(phase) {
        let answer = world.apply(event);
        if wants_memory(answer) {
            return Err(Memory);
        }
        phase = phase_after(answer);
    }
    let run = world.close(alloc)?;
    Ok(run)
}
