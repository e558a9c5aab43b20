//! The threads and the cores of a world before its first event.
ghost use Rattle.std.specs.Prelude.{◌≡◌, ◌≤◌, ℕ, [], IfOk, Some, map, replicate, slice_get, vec_len};
ghost use Rattle.std.specs.Prelude.{vec_capacity};
ghost use Rattle.std.specs.List.{range_with_len};
ghost use Rattle.core_unit.specs.View.{core_state};
ghost use Rattle.world_core.specs.Parts.{HaveOptions, IsCoreOf, guests_of, core_guests};
ghost use Rattle.world_core.specs.World.{starting};

use core_unit::Core;
use kernel_contexts::{Context, Whole};
use paged_memory::Image;
use shared_region::{PlainPort, PlainTicket};
use sm_types::{Config, Memory};
use std::alloc::Global;

/// All guest threads before their first turn, in order. `Memory` is want of memory.
pub fn start_threads(
    alloc: Global,
    image: &Image,
    config: &Config,
) -> Result<Vec<Whole<PlainPort>>, Memory>
    ensures threads { IfOk result (λ queue. guests_of queue.items
        ≡ map (starting image.now config.now) (range_with_len 0 config.now.threads)) }
    ensures options { IfOk result (λ queue. HaveOptions config.now queue.items) }
    ensures room { IfOk result (λ queue. config.now.threads ≤ vec_capacity queue) }
{
    let mut queue = Vec::new(alloc);
    if queue.reserve(config.threads as usize).is_err() {
        return Err(Memory);
    }
    'threads: for thread in 0..config.threads {
        let context = Context::start(alloc, image, config, thread)?;
        let ticket = PlainTicket::new(alloc, thread);
        queue.push_reserved(Whole { context, ticket });
    }
    Ok(queue)
}

/// All cores, without residents, each with the number of its place. `Memory` is want of memory.
pub fn start_cores(
    alloc: Global,
    config: &Config,
    port: &PlainPort,
) -> Result<Vec<Core<PlainPort>>, Memory>
    ensures none { IfOk result (λ cores. map core_guests cores.items ≡ replicate config.now.cores []) }
    ensures fit { IfOk result (λ cores. (i : ℕ) (c : _) → slice_get cores.items i ≡ Some c
        → IsCoreOf config.now i (core_state c)) }
{
    let mut cores = Vec::new(alloc);
    if cores.reserve(config.cores as usize).is_err() {
        return Err(Memory);
    }
    'cores: for number in 0..config.cores {
        let core = Core::new(alloc, number, config, port)?;
        cores.push_reserved(core);
    }
    Ok(cores)
}
