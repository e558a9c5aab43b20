//! The turns of a thread that a journal answers.
ghost use Rattle.std.specs.Prelude.{◌≡◌, ◌≢◌, ◌+◌, ◌*◌, ◌<◌, ◌≤◌, ◌^◌, ◌++◌, List, length, None, Ok, Err, IfOk};
ghost use Rattle.std.specs.Prelude.{IfErr};
ghost use Rattle.sm_types.specs.declared.shared_op.Event.{Event};
ghost use Rattle.kernel_contexts.specs.Context.{state_of, config_of, stop_of, journal_of, IsSameThread};
ghost use Rattle.kernel_contexts.specs.Context.{IsPlaceFree, MayWantMemory, GoesOrAsks, turn_at, save_area_of};
ghost use Rattle.lone_runner.specs.Parting.{left_over, parting_at, parting_when};
ghost use Rattle.lone_runner.specs.Replayed.{HasTicket, IsAstray, next_place, place_of};

use crate::fault::AloneFault;
use kernel_contexts::{Context, Turn};
use shared_region::{ReplayPort, ReplayTicket, replay_journal_stays};
use sm_types::Stop;

/// How many events the thread has made.
fn events_made(context: &Context) -> u32
    requires { length (journal_of context.now) < 2 ^ 32 }
    ensures { result ≡ length (journal_of context.now) }
{
    context.journal().len() as u32
}

/// Makes one turn of a thread that has not stopped: the stop with which it ends, `None` where it goes on, or
/// the fault where it asks an operation that the next event does not answer. It is laid into the loops that
/// make turns, where its answer needs no place in memory.
#[inline(always)]
pub fn make_turn(
    context: &mut Context,
    ticket: &mut ReplayTicket,
) -> Result<Option<Stop>, AloneFault>
    requires ticket { HasTicket context.old ticket.old }
    requires runs { stop_of context.old ≡ None }
    ensures turn { IfOk result (λ stop.
        next_place context.old ticket.old ≡ place_of context.new ticket.new stop) }
    ensures astray { IfErr result (λ fault. fault ≢ AloneFault.Memory
        → IsAstray context.old ticket.old fault) }
    ensures memory { result ≡ Err AloneFault.Memory
        → MayWantMemory ⊥ context.old (save_area_of context.old) }
    ensures goes { result ≡ Err AloneFault.Memory → IsPlaceFree context.old
        → GoesOrAsks ⊥ (turn_at context.old) }
    ensures stop { IfOk result (λ stop. stop_of context.new ≡ stop) }
    ensures ticket { HasTicket context.new ticket.new }
    ensures journal { journal_of context.new ++ ticket.new.ahead
        ≡ journal_of context.old ++ ticket.old.ahead }
    ensures same { IsSameThread context.old context.new }
    ensures made { result ≡ Ok None → (state_of context.new).turns ≡ (state_of context.old).turns + 1 }
    ensures few { (state_of context.new).turns ≤ 64 * (config_of context.new).budget }
{
    replay_journal_stays();
    let mut port = ReplayPort::new();
    match context.advance(&mut port, ticket) {
        Turn::Ran => Ok(None),
        Turn::Yielded => Ok(None),
        Turn::Stopped(stop) => Ok(Some(stop)),
        Turn::NeedsBank => unreachable!(),
        Turn::TraceEnds => Err(AloneFault::JournalShort(context.count())),
        Turn::TraceDiffers => Err(AloneFault::JournalDiffers(events_made(context))),
        Turn::Memory => Err(AloneFault::Memory),
    }
}

/// The fault of so many events that are left.
fn left_over(left: usize) -> Option<AloneFault>
    requires { left < 2 ^ 32 }
    ensures { (events : List Event) → length events ≡ left → result ≡ left_over events }
{
    if left == 0 {
        None
    } else {
        Some(AloneFault::JournalLong(left as u32))
    }
}

/// How a thread that has counted so many instructions parts, if it does, where so many events are left; `stop`
/// tells whether it has stopped.
#[inline]
pub fn parting_of(made: u32, left: usize, stop: Option<Stop>, count: u32) -> Option<AloneFault>
    requires { left < 2 ^ 32 }
    ensures { (events : List Event) → length events ≡ left → result ≡ parting_when count made stop events }
{
    let Some(stop) = stop else {
        return if made > count {
            Some(AloneFault::GoesOn(count))
        } else {
            None
        };
    };
    if made < count {
        return Some(AloneFault::EndsEarly { count: made, stop });
    }
    if made > count {
        return Some(AloneFault::GoesOn(count));
    }
    left_over(left)
}

/// How the thread parts where it stands, if it does; `stop` tells whether it has stopped.
#[inline]
pub fn parting(
    context: &Context,
    ticket: &ReplayTicket,
    stop: Option<Stop>,
    count: u32,
) -> Option<AloneFault>
    requires { HasTicket context.now ticket.now }
    ensures { result ≡ parting_at count (place_of context.now ticket.now stop) }
{
    parting_of(context.count(), ticket.left(), stop, count)
}
