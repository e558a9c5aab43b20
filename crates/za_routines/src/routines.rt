//! Whether a thread stands where the words of a routine, or of a tail, can be run with nothing else between
//! them, and how many instructions they take.
ghost use Rattle.std.specs.Prelude.{◌≡◌, ◌+◌, ◌%◌, ◌==◌, ◌<◌, ◌≤◌, ◌↔◌, ℕ, List, true, false, Some, length};
ghost use Rattle.std.specs.Prelude.{IfSome, IfNone, IsTrue};
ghost use Rattle.paged_memory.specs.Memory.{bytes_with};
ghost use Rattle.scalar_exec.specs.Registers.{x_of};
ghost use Rattle.sve_vectors.specs.Lengths.{vector_bytes};
ghost use Rattle.za_array.specs.Array.{IsSquare};
ghost use Rattle.kernel_contexts.specs.Context.{state_of, config_of, is_home};
ghost use Rattle.kernel_contexts.specs.Kernel.{depth_limit};
ghost use Rattle.kernel_contexts.specs.Turn as turn;
ghost use Rattle.lazy_saving.specs.Dormant.{IsReady};
ghost use Rattle.lazy_saving.specs.Outcome.{instructions_past, disable_length, IsWhole};
ghost use Rattle.za_routines.specs.Places.{places_of};
ghost use Rattle.za_routines.specs.Turns.{IsQuiet, CanDisable, CanDisableAt, IsDisableKnown};
ghost use Rattle.za_routines.specs.Turns.{CanReturn, CanReturnAt, IsHalf, IsReturnKnown};

use crate::block::{instructions, read_block};
use crate::places::{RoutinePlaces, is_ready};
use kernel_contexts::Context;
use machine_step::Machine;
use sm_types::Version;
use za_array::Za;

/// Registers.
fn numbers(_numbers: &[u64]) {}

/// A machine has 31 registers.
fn registers_count(machine: &Machine)
    ensures { length machine.now.scalars.x ≡ 31 }
{
    let scalars = &machine.scalars;
    numbers(&scalars.x);
}

/// ZA is square, and has at most 256 slices.
fn array_size(za: &Za)
    ensures square { IsSquare (vector_bytes za.now.svl) za.now.vectors }
    ensures short { vector_bytes za.now.svl ≤ 256 }
{
    let _size = za.size();
}

/// A context has 31 registers and a square ZA of at most 256 slices.
fn is_whole(context: &Context)
    requires home { is_home context.now ≡ true }
    ensures { IsWhole (state_of context.now).core }
{
    let bank = context.bank();
    registers_count(context.machine());
    array_size(&bank.za);
}

/// Whether a poll of the pending signals is due.
fn is_poll_due(context: &Context) -> bool
    ensures { result ≡ turn.is_poll_due (config_of context.now) (state_of context.now) }
{
    context.count() > 0 && context.count() % context.config().slice == 0 && !context.polled()
}

/// How many handlers a thread is in at most.
fn depth_limit(version: Version) -> u32
    ensures { result ≡ depth_limit version }
{
    match version {
        Version::One => 1,
        Version::Two => 64,
    }
}

/// Whether the delivery of a signal is due.
fn is_delivery_due(context: &Context) -> bool
    ensures { result ≡ turn.is_delivery_due (config_of context.now) (state_of context.now) }
{
    let open = context.held() & !context.mask();
    context.polled() && open != 0 && context.depth() < depth_limit(context.config().version())
}

/// Whether no count from the first on, but itself, is a multiple of the slice in so many instructions.
fn stays_in_slice(count: u32, turns: u32, slice: u32) -> bool
    requires some { 1 ≤ turns }
    requires slice { 1 ≤ slice }
    ensures { IsTrue result ↔ ((n : ℕ) → 0 < n → n < turns → ((count + n) % slice == 0) ≡ false) }
{
    u64::from(count % slice) + u64::from(turns) <= u64::from(slice)
}

/// Whether nothing but so many instructions of a thread is due: no poll, no delivery, and not the budget's
/// end.
fn is_quiet(context: &Context, turns: u32) -> bool
    requires { 1 ≤ turns }
    ensures { IsTrue result ↔ IsQuiet (config_of context.now) (state_of context.now) turns }
{
    let config = context.config();
    !is_poll_due(context)
        && !is_delivery_due(context)
        && stays_in_slice(context.count(), turns, config.slice)
        && u64::from(context.count()) + u64::from(turns) <= u64::from(config.budget)
}

/// The bytes of the block at an address, where memory has it, its buffer and the words, as the thread's ZA
/// needs them; `None` exactly where it has not.
fn ready_block(context: &Context, places: &RoutinePlaces, address: u64) -> Option<[u8; 16]>
    requires home { is_home context.now ≡ true }
    ensures some { IfSome result (λ block. IsReady (places_of places.now) (state_of context.now).core.memory
        (length (state_of context.now).core.bank.za) address block) }
    ensures long { IfSome result (λ block. length block ≡ 16) }
    ensures none { IfNone result ((bytes : List ℕ) → ¬ IsReady (places_of places.now)
        (state_of context.now).core.memory (length (state_of context.now).core.bank.za) address bytes) }
{
    let pages = &context.machine().pages;
    let size = context.bank().za.size();
    match read_block(pages, address) {
        Some(block) if is_ready(pages, places, size, address, &block) => Some(block),
        _ => None,
    }
}

/// Whether a thread stands at the first word of `__arm_za_disable`, with its ZA dormant and all words in
/// their places, and comes back from it before a poll, a delivery or the budget's end is due.
pub fn can_disable(context: &Context, places: &RoutinePlaces) -> bool
    requires home { is_home context.now ≡ true }
    ensures at { IsTrue result ↔ CanDisableAt (places_of places.now) (config_of context.now)
        (state_of context.now) }
    ensures can { result ≡ true → CanDisable (config_of context.now) (state_of context.now) }
{
    let machine = context.machine();
    if !machine.za_on || machine.scalars.pc != places.disable {
        return false;
    }
    match ready_block(context, places, machine.tpidr2) {
        Some(block) => is_quiet(context, instructions(&block, 11, 13, 14)),
        None => false,
    }
}

/// How many instructions `__arm_za_disable` takes in a machine whose TPIDR2_EL0 has the address of a block.
fn disable_length(machine: &Machine) -> u32
    ensures { (bytes : List ℕ) → bytes_with 4 machine.now.pages.memory machine.now.tpidr2 16 ≡ Some bytes
        → result ≡ disable_length bytes }
{
    match read_block(&machine.pages, machine.tpidr2) {
        Some(block) => instructions(&block, 11, 13, 14),
        None => 0,
    }
}

/// How many instructions `__arm_za_disable` takes in a thread that stands at its first word.
pub fn disable_turns(context: &Context) -> u32
    requires home { is_home context.now ≡ true }
    requires can { CanDisable (config_of context.now) (state_of context.now) }
    ensures { IsDisableKnown (config_of context.now) (state_of context.now) result }
{
    is_whole(context);
    disable_length(context.machine())
}

/// Whether ZA and TPIDR2_EL0 are as a lawful callee leaves them: ZA dormant with the block at X19, or off and
/// the pointer null.
#[tactic(auto, unfolding(scalar_exec::specs::Registers::x_of))]
fn is_half(machine: &Machine) -> bool
    ensures { IsTrue result ↔ IsHalf machine.now.za_on machine.now.tpidr2 (x_of machine.now.scalars 19) }
{
    if machine.za_on {
        machine.tpidr2 == machine.scalars.x[19]
    } else {
        machine.tpidr2 == 0
    }
}

/// How many instructions the tail takes with a block.
fn tail_turns(za_on: bool, block: &[u8]) -> u32
    requires long { length block.now ≡ 16 }
    ensures value { result ≡ instructions_past za_on block.now }
    ensures some { 1 ≤ result }
{
    if za_on {
        return 4;
    }
    instructions(block, 15, 17, 18)
}

/// Whether a thread stands at the first word of the tail of a call, whose block is at X19, as a lawful callee
/// leaves it, with all words in their places, and is past the tail before a poll, a delivery or the budget's
/// end is due.
pub fn can_return(context: &Context, places: &RoutinePlaces) -> bool
    requires home { is_home context.now ≡ true }
    ensures at { IsTrue result ↔ CanReturnAt (places_of places.now) (config_of context.now)
        (state_of context.now) }
    ensures can { result ≡ true → CanReturn (config_of context.now) (state_of context.now) }
{
    let machine = context.machine();
    if machine.scalars.pc != places.tail || !is_half(machine) {
        return false;
    }
    match ready_block(context, places, machine.scalars.x[19]) {
        Some(block) => is_quiet(context, tail_turns(machine.za_on, &block)),
        None => false,
    }
}

/// How many instructions the tail takes in a machine whose X19 has the address of a block.
#[tactic(auto, unfolding(scalar_exec::specs::Registers::x_of))]
fn tail_length(machine: &Machine) -> u32
    ensures { (bytes : List ℕ)
        → bytes_with 4 machine.now.pages.memory (x_of machine.now.scalars 19) 16 ≡ Some bytes
        → result ≡ instructions_past machine.now.za_on bytes }
{
    match read_block(&machine.pages, machine.scalars.x[19]) {
        Some(block) => tail_turns(machine.za_on, &block),
        None => 0,
    }
}

/// How many instructions the tail takes in a thread that stands at its first word.
pub fn return_turns(context: &Context) -> u32
    requires home { is_home context.now ≡ true }
    requires can { CanReturn (config_of context.now) (state_of context.now) }
    ensures { IsReturnKnown (config_of context.now) (state_of context.now) result }
{
    is_whole(context);
    tail_length(context.machine())
}
