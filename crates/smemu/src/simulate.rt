//! The events of a plan, made in the world of a program.
ghost use Rattle.std.specs.Prelude.{◌≡◌, false, IfOk, List, Ok};
ghost use Rattle.elf_loader.specs.Loading.{Loads};
ghost use Rattle.plan_reader.specs.Plan.{plan_in};
ghost use Rattle.sm_types.specs.declared.world_event.WorldEvent.{WorldEvent};
ghost use Rattle.smemu.specs.Views.{simulation_text};
ghost use Rattle.smemu.specs.Worlds.{IsSimulationOf};
ghost use Rattle.world_core.specs.Applies.{ApplyAll, HaveHappened};
ghost use Rattle.world_core.specs.World as plain;

use crate::answer::{RunReport, Simulation};
use paged_memory::Image;
use plan_reader::event_lines;
use report_text::Head;
use sha2::{Digest, Sha256};
use sm_types::{Config, Memory, WorldEvent};
use std::alloc::Global;
use world_core::{Applied, World, wants_memory};

/// Whether events, of which these are the answers, ended early, with a run that was wanting memory.
fn have_ended_early(answers: &[Applied]) -> bool
    ensures { (events : List WorldEvent) (old new : plain.World) → result ≡ false
        → ApplyAll events old new answers.now → HaveHappened events old new answers.now }
{
    match answers.last() {
        Some(answer) => wants_memory(*answer),
        None => false,
    }
}

/// What is written of the world of a program after the events of a plan; `Memory` is want of memory.
pub fn simulate(
    alloc: Global,
    file: &[u8],
    image: &Image,
    plan: &[u8],
    events: &[WorldEvent],
    config: &Config,
) -> Result<Simulation, Memory>
    requires loads { Loads file.now image.now }
    requires planned { plan_in plan.now ≡ Ok events.now }
    ensures { IfOk result (λ it. IsSimulationOf file.now plan.now config.now (simulation_text it)) }
{
    let mut world = World::new(alloc, image, config)?;
    let answers = world.run_events(alloc, events)?;
    if have_ended_early(answers.as_slice()) {
        return Err(Memory);
    }
    let lines = event_lines(alloc, plan)?;
    let (run, history) = world.finish(alloc)?;
    let head = Head {
        config: *config,
        image: Sha256::digest(file),
    };
    Ok(Simulation {
        lines,
        answers,
        report: RunReport { run, head },
        history,
    })
}
