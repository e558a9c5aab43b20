//! The threads of a world at its end.
ghost use Rattle.std.specs.Prelude.{◌≡◌, ◌+◌, ◌≤◌, ◌++◌, IfOk, length, map, vec_len, vec_capacity};
ghost use Rattle.world_core.specs.Parts.{guests_of, core_guests};
ghost use Rattle.world_core.specs.World.{residents_of};

use core_unit::Core;
use kernel_contexts::{Context, Whole};
use shared_region::PlainPort;
use sm_types::Memory;
use std::alloc::Global;

/// Takes all residents out of a core, the first one first.
fn empty_core(core: &mut Core<PlainPort>, into: &mut Vec<Whole<PlainPort>>)
    requires room { length (core_guests core.old) + vec_len into.old ≤ vec_capacity into.old }
    ensures moved { guests_of into.new.items ≡ guests_of into.old.items ++ core_guests core.old }
    ensures room { vec_capacity into.new ≡ vec_capacity into.old }
{
    'residents: while let Some(whole) = core.evict() {
        into.push_reserved(whole);
    }
}

/// Takes all residents out of some cores.
pub fn empty_cores(cores: &mut Vec<Core<PlainPort>>, into: &mut Vec<Whole<PlainPort>>)
    requires room { length (residents_of (map core_guests cores.old.items)) + vec_len into.old
        ≤ vec_capacity into.old }
    ensures moved { guests_of into.new.items
        ≡ guests_of into.old.items ++ residents_of (map core_guests cores.old.items) }
    ensures room { vec_capacity into.new ≡ vec_capacity into.old }
{
    'cores: for index in 0..cores.len() {
        empty_core(&mut cores[index], into);
    }
}

/// Some contexts without their tickets. `Memory` is want of memory.
pub fn contexts_of(alloc: Global, threads: Vec<Whole<PlainPort>>) -> Result<Vec<Context>, Memory>
    ensures { IfOk result (λ contexts. contexts.items ≡ map (λ w. w.context) threads.items) }
{
    threads
        .into_iter()
        .map(|whole| whole.context)
        .collect(alloc)
        .map_err(|_| Memory)
}
