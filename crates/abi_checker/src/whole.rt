//! What the types of a context say of its state.
ghost use Rattle.std.specs.Prelude.{◌≡◌, ◌≤◌, true, length};
ghost use Rattle.paged_memory.specs.Memory.{IsWhole};
ghost use Rattle.sve_vectors.specs.Lengths.{vector_bytes};
ghost use Rattle.za_array.specs.Array.{IsSquare};
ghost use Rattle.kernel_contexts.specs.Context.{state_of, config_of, is_home};
ghost use Rattle.abi_checker.specs.Whole.{IsWholeWith};

use kernel_contexts::Context;
use machine_step::Machine;
use za_array::Za;

/// Registers.
fn numbers(_numbers: &[u64]) {}

/// A machine has 31 registers, and whole pages.
fn machine_is_whole(machine: &Machine)
    ensures registers { length machine.now.scalars.x ≡ 31 }
    ensures pages { IsWhole machine.now.pages.memory }
{
    let scalars = &machine.scalars;
    numbers(&scalars.x);
    let _count = machine.pages.page_count();
}

/// ZA is square, and has at most 256 slices.
fn array_is_square(za: &Za)
    ensures square { IsSquare (vector_bytes za.now.svl) za.now.vectors }
    ensures short { vector_bytes za.now.svl ≤ 256 }
{
    let _size = za.size();
}

/// The state of a context is whole, with as many slices as its options say.
pub fn context_is_whole(context: &Context)
    requires home { is_home context.now ≡ true }
    ensures { IsWholeWith (vector_bytes (config_of context.now).svl) (state_of context.now).core }
{
    let bank = context.bank();
    machine_is_whole(context.machine());
    array_is_square(&bank.za);
}
