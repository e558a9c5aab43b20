//! A run that is checked turn by turn.
ghost use Rattle.std.specs.Prelude.{◌≡◌, ◌≢◌, ◌<◌, ◌^◌, true, false, List, [], None, length, nat_lt, if◌then◌else◌};
ghost use Rattle.std.specs.Prelude.{IfOk, IfErr, IfSome};
ghost use Rattle.sm_types.specs.declared.shared_op.Event.{Event};
ghost use Rattle.shared_region.specs.Ports.{ReplayEvents};
ghost use Rattle.lone_runner.specs.Parting.{IsParting};
ghost use Rattle.kernel_contexts.specs.Context.{state_of, config_of, image_of, thread_of, is_home, stop_of};
ghost use Rattle.abi_checker.specs.Watching.{IsNextWord};
ghost use Rattle.abi_checker.specs.Following.{GoesFar, IsFollowed, IsFollowedBySome};
ghost use Rattle.lone_runner.specs.Replayed.{IsAtStart};
ghost use Rattle.abi_checker.specs.Checked.{IsChecked};

use crate::abi::Abi;
use crate::marks::{call_at, next_call};
use crate::watch::Watch;
use crate::whole::context_is_whole;
use kernel_contexts::{Context, contexts_are_plain};
use lone_runner::{AloneFault, make_turn, parting};
use machine_step::Never;
use paged_memory::Image;
use shared_region::ReplayTicket;
use sm_types::{Config, Event, Memory};
use std::alloc::Global;

/// The address past the call that stood at PC before a turn, if the turn counted it.
#[inline]
fn call_made(call: Option<u64>, before: u32, now: u32) -> Option<u64>
    ensures { result ≡ (if nat_lt before now then call else None) }
{
    if before < now { call } else { None }
}

/// How turns that were made at once ended.
#[derive(Clone, Copy)]
struct Pause {
    /// Whether a fault was told in the last state.
    told: bool,
    /// The word at PC, if it was told to halt before it.
    halt: Option<u32>,
}

/// Makes turns at once up to a call or to where one may come back, and tells of the state there: in none before
/// is anything to be told. It ends too where the next turn may be more than an instruction, and at the count.
/// `Memory` is want of memory.
#[inline]
fn go_to_halt(
    context: &mut Context,
    count: u32,
    watch: &mut Watch,
    found: &mut Option<Abi>,
) -> Result<Pause, Memory>
    requires home { is_home context.old ≡ true }
    requires runs { stop_of context.old ≡ None }
    requires none { found.old ≡ None }
    requires some { IsFollowedBySome count context.old watch.old None }
    ensures followed { (journal : List Event) (ticket : ReplayEvents)
        → IsFollowed (image_of context.old) (config_of context.old) (thread_of context.old) journal count
        context.old ticket watch.old None
        → IfOk result (λ pause. IsFollowed (image_of context.old) (config_of context.old)
        (thread_of context.old) journal count context.new ticket watch.new found.new) }
    ensures quiet { IfOk result (λ pause. pause.told ≡ false → found.new ≡ None) }
    ensures goes { GoesFar context.old context.new }
    ensures there { IfOk result (λ pause. IfSome pause.halt (IsNextWord (state_of context.new))) }
{
    let left = count - context.count();
    let made = context.advance_several(&watch.near, left);
    let halt = made.halt;
    if made.count == 0 {
        return Ok(Pause { told: false, halt });
    }
    context_is_whole(context);
    let told = watch.look(context, None, found)?;
    Ok(Pause { told, halt })
}

/// Makes the turn of the instruction of that word, which stands at PC, and tells of the state after it. None is
/// made where it may be more than an instruction, and at the count. It tells whether a fault was found. `Memory`
/// is want of memory.
#[inline]
fn make_halted(
    context: &mut Context,
    count: u32,
    watch: &mut Watch,
    found: &mut Option<Abi>,
    word: u32,
) -> Result<bool, Memory>
    requires home { is_home context.old ≡ true }
    requires runs { stop_of context.old ≡ None }
    requires none { found.old ≡ None }
    requires some { IsFollowedBySome count context.old watch.old None }
    requires there { IsNextWord (state_of context.old) word }
    ensures followed { (journal : List Event) (ticket : ReplayEvents)
        → IsFollowed (image_of context.old) (config_of context.old) (thread_of context.old) journal count
        context.old ticket watch.old None
        → IfOk result (λ told. IsFollowed (image_of context.old) (config_of context.old)
        (thread_of context.old) journal count context.new ticket watch.new found.new) }
    ensures quiet { IfOk result (λ told. told ≡ false → found.new ≡ None) }
    ensures goes { GoesFar context.old context.new }
{
    if context.count() == count {
        return Ok(false);
    }
    let call = call_at(context, word);
    let made = context.advance_several(&Never, 1);
    if made.count == 0 {
        return Ok(false);
    }
    context_is_whole(context);
    watch.look(context, call, found)
}

/// Makes turns at once, from one halt to the next, and tells of the calls in their states, as long as none is
/// at fault; that before which it halts is made by itself. It ends where the next turn may be more than an
/// instruction, and at the count. `Memory` is want of memory.
fn go_at_once(context: &mut Context, count: u32, watch: &mut Watch) -> Result<Option<Abi>, Memory>
    requires home { is_home context.old ≡ true }
    requires runs { stop_of context.old ≡ None }
    requires some { IsFollowedBySome count context.old watch.old None }
    ensures followed { (journal : List Event) (ticket : ReplayEvents)
        → IsFollowed (image_of context.old) (config_of context.old) (thread_of context.old) journal count
        context.old ticket watch.old None
        → IfOk result (λ found. IsFollowed (image_of context.old) (config_of context.old)
        (thread_of context.old) journal count context.new ticket watch.new found) }
    ensures goes { GoesFar context.old context.new }
{
    let mut found = None;
    'rounds: loop {
        let pause = go_to_halt(context, count, watch, &mut found)?;
        if pause.told {
            return Ok(found);
        }
        let Some(word) = pause.halt else {
            return Ok(None);
        };
        let before = context.count();
        let told = make_halted(context, count, watch, &mut found, word)?;
        if told {
            return Ok(found);
        }
        if context.count() == before {
            return Ok(None);
        }
    }
}

/// Makes turns at once, as far as the count; where a fault was told, nothing more is. `Memory` is want of
/// memory.
fn go_far(
    context: &mut Context,
    count: u32,
    watch: &mut Watch,
    found: Option<Abi>,
) -> Result<Option<Abi>, Memory>
    requires home { is_home context.old ≡ true }
    requires runs { stop_of context.old ≡ None }
    requires some { IsFollowedBySome count context.old watch.old found }
    ensures followed { (journal : List Event) (ticket : ReplayEvents)
        → IsFollowed (image_of context.old) (config_of context.old) (thread_of context.old) journal count
        context.old ticket watch.old found
        → IfOk result (λ now. IsFollowed (image_of context.old) (config_of context.old)
        (thread_of context.old) journal count context.new ticket watch.new now) }
    ensures goes { GoesFar context.old context.new }
{
    if found.is_none() {
        return go_at_once(context, count, watch);
    }
    let left = count - context.count();
    context.advance_several(&Never, left);
    Ok(found)
}

/// Makes turns until the thread stops, or parts, and tells of the calls in its states.
fn follow(
    context: &mut Context,
    ticket: &mut ReplayTicket,
    count: u32,
    watch: &mut Watch,
) -> Result<Abi, AloneFault>
    requires start { IsAtStart context.old ticket.old }
    requires calls { watch.old.calls.items ≡ [] }
    requires returned { watch.old.returned ≡ 0 }
    ensures checked { IfOk result (λ abi. IsChecked (image_of context.old) (config_of context.old)
        (thread_of context.old) ticket.old.ahead count abi) }
    ensures parts { IfErr result (λ fault. fault ≢ AloneFault.Memory
        → IsParting (image_of context.old) (config_of context.old) (thread_of context.old) ticket.old.ahead
        count fault) }
{
    let mut found = None;
    'turns: loop {
        contexts_are_plain(context);
        let call = next_call(context);
        let before = context.count();
        let stop = make_turn(context, ticket)?;
        match parting(context, ticket, stop, count) {
            Some(fault) => return Err(fault),
            None => {}
        }
        context_is_whole(context);
        let past = call_made(call, before, context.count());
        found = watch.tell(context, past, found)?;
        if stop.is_some() {
            return Ok(watch.answer(found));
        }
        found = go_far(context, count, watch, found)?;
    }
}

/// Starts the thread of that number and makes its turns until it stops, answered by the journal as those of
/// `run_alone` are, and tells whether its marked calls are at no fault. The refusals are the partings of
/// `run_alone`, and `Memory`.
pub fn check_abi(
    alloc: Global,
    image: &Image,
    config: &Config,
    thread: u32,
    journal: &[Event],
    count: u32,
) -> Result<Abi, AloneFault>
    requires thread { thread < config.now.threads }
    requires events { length journal.now < 2 ^ 32 }
    ensures checked { IfOk result (λ abi.
        IsChecked image.now config.now thread journal.now count abi) }
    ensures parts { IfErr result (λ fault. fault ≢ AloneFault.Memory
        → IsParting image.now config.now thread journal.now count fault) }
{
    let mut context = Context::start(alloc, image, config, thread)?;
    let events = Vec::from_slice(alloc, journal)?;
    let mut ticket = ReplayTicket::new(thread, events);
    let mut watch = Watch::new(alloc);
    follow(&mut context, &mut ticket, count, &mut watch)
}
