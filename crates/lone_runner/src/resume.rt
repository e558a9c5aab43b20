//! The rest of a thread's run, from a state that no run vouches for.
ghost use Rattle.std.specs.Prelude.{◌≡◌, ◌≢◌, ◌+◌, ◌*◌, ◌<◌, ◌≤◌, ◌^◌, length, None, Ok, Err, IfOk, IfErr};
ghost use Rattle.kernel_contexts.specs.Loose.{loose_state, loose_config, loose_thread, loose_events};
ghost use Rattle.kernel_contexts.specs.Loose.{loose_stop, IsSameLoose};
ghost use Rattle.lone_runner.specs.Parting.{parting_at};
ghost use Rattle.lone_runner.specs.Rest.{IsRestOfRun, IsPartingFrom};
ghost use Rattle.lone_runner.specs.Resumed.{HasLooseTicket, IsLooseAstray, loose_next, loose_place};
ghost use Rattle.lone_runner.specs.Resumed.{IsResumed, IsToResume, IsReached, IsPartingFromAll};
ghost use Rattle.lone_runner.specs.Ticket.{whole_journal};

use crate::fault::AloneFault;
use crate::replay::parting_of;
use crate::ticket::{JournalPort, JournalTicket, journal_stays};
use kernel_contexts::{Loose, Turn};
use machine_step::Never;
use sm_types::{Event, Stop};
use std::alloc::Global;

/// Makes one turn of a thread that has not stopped: the stop with which it ends, `None` where it goes on, or
/// the fault where it asks an operation that the next event does not answer.
#[inline(always)]
fn make_turn(loose: &mut Loose, ticket: &mut JournalTicket) -> Result<Option<Stop>, AloneFault>
    requires ticket { HasLooseTicket loose.old ticket.old }
    requires runs { loose_stop loose.old ≡ None }
    ensures turn { IfOk result (λ stop.
        loose_next loose.old ticket.old ≡ loose_place loose.new ticket.new stop) }
    ensures astray { IfErr result (λ fault. fault ≢ AloneFault.Memory
        → IsLooseAstray loose.old ticket.old fault) }
    ensures stop { IfOk result (λ stop. loose_stop loose.new ≡ stop) }
    ensures ticket { HasLooseTicket loose.new ticket.new }
    ensures left { length ticket.new.ahead ≤ length ticket.old.ahead }
    ensures whole { whole_journal ticket.new ≡ whole_journal ticket.old }
    ensures same { IsSameLoose loose.old loose.new }
    ensures made { result ≡ Ok None → (loose_state loose.new).turns ≡ (loose_state loose.old).turns + 1 }
    ensures few { (loose_state loose.new).turns ≤ 128 * (loose_config loose.new).budget }
{
    journal_stays();
    let mut port = JournalPort::new();
    match loose.advance(&mut port, ticket) {
        Turn::Ran => Ok(None),
        Turn::Yielded => Ok(None),
        Turn::Stopped(stop) => Ok(Some(stop)),
        Turn::NeedsBank => unreachable!(),
        Turn::TraceEnds => Err(AloneFault::JournalShort(loose.count())),
        Turn::TraceDiffers => Err(AloneFault::JournalDiffers(loose.events())),
        Turn::Memory => Err(AloneFault::Memory),
    }
}

/// Makes turns of a thread that has not passed a count, until so many instructions are counted, and tells the
/// stop where the last turn ended its run; or until it parts before that: `JournalShort`, `JournalDiffers` or
/// `EndsEarly`. A poll or a delivery that is due at the count is not made.
pub fn resume_to(
    loose: &mut Loose,
    ticket: &mut JournalTicket,
    count: u32,
) -> Result<Option<Stop>, AloneFault>
    requires { IsToResume loose.old ticket.old count }
    ensures reached { IfOk result (λ stop.
        IsReached loose.old ticket.old.ahead count loose.new stop ticket.new) }
    ensures stop { IfOk result (λ stop. loose_stop loose.new ≡ stop) }
    ensures parts { IfErr result (λ fault. fault ≢ AloneFault.Memory
        → IsPartingFromAll loose.old ticket.old.ahead count fault) }
    ensures ticket { HasLooseTicket loose.new ticket.new }
    ensures whole { whole_journal ticket.new ≡ whole_journal ticket.old }
    ensures same { IsSameLoose loose.old loose.new }
{
    'turns: while loose.count() < count {
        let Some(stop) = make_turn(loose, ticket)? else {
            let now = loose.count();
            loose.advance_several(&Never, count - now);
            continue;
        };
        let made = loose.count();
        if made < count {
            return Err(AloneFault::EndsEarly { count: made, stop });
        }
        return Ok(Some(stop));
    }
    Ok(None)
}

/// Makes turns of a thread that has not passed a count until it stops: when so many instructions are counted,
/// with all events of its ticket used. Else the fault is the first by which it parts from that, an event being
/// told by its place in the thread's journal; `Memory` is want of memory.
pub fn resume_to_end(
    loose: &mut Loose,
    ticket: &mut JournalTicket,
    count: u32,
) -> Result<Stop, AloneFault>
    requires { IsToResume loose.old ticket.old count }
    ensures run { IfOk result (λ stop. IsResumed loose.old ticket.old.ahead count loose.new stop) }
    ensures parts { IfErr result (λ fault. fault ≢ AloneFault.Memory
        → IsPartingFrom (loose_config loose.old) (loose_thread loose.old) (loose_state loose.old)
        (loose_events loose.old) ticket.old.ahead count fault) }
    ensures ticket { HasLooseTicket loose.new ticket.new }
    ensures whole { whole_journal ticket.new ≡ whole_journal ticket.old }
    ensures same { IsSameLoose loose.old loose.new }
{
    'turns: loop {
        let stop = make_turn(loose, ticket)?;
        match parting_of(loose.count(), ticket.left(), stop, count) {
            Some(fault) => return Err(fault),
            None => {}
        }
        match stop {
            Some(stop) => return Ok(stop),
            None => {}
        }
        let now = loose.count();
        loose.advance_several(&Never, count - now);
    }
}

/// Makes the turns of a thread from its state until it stops, where each operation that it asks is answered
/// by the next of these events; it is to stop when `count` instructions are counted, with all events used.
/// Then it is given back with its stop. Else the fault is the first by which it parts from that, an event
/// being told by its place in the thread's journal; `Memory` is want of memory.
pub fn resume_alone(
    alloc: Global,
    loose: Loose,
    rest: &[Event],
    count: u32,
) -> Result<(Loose, Stop), AloneFault>
    requires runs { loose_stop loose ≡ None }
    requires count { (loose_state loose).count ≤ count }
    requires events { length rest.now < 2 ^ 32 }
    ensures run { IfOk result (λ end. IsResumed loose rest.now count end.0 end.1) }
    ensures same { IfOk result (λ end. IsSameLoose loose end.0) }
    ensures parts { IfErr result (λ fault. fault ≢ AloneFault.Memory
        → IsPartingFrom (loose_config loose) (loose_thread loose) (loose_state loose) (loose_events loose)
        rest.now count fault) }
{
    let mut loose = loose;
    let events = Vec::from_slice(alloc, rest)?;
    let mut ticket = JournalTicket::new(loose.thread(), events);
    let stop = resume_to_end(&mut loose, &mut ticket, count)?;
    Ok((loose, stop))
}
