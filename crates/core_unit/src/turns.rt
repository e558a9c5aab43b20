//! The turns that a core lets a resident make.
ghost use Rattle.std.specs.Prelude.{◌≡◌, ◌≢◌};
ghost use Rattle.shared_region.specs.Tickets.{IsTicketOf, GivesEvents};
ghost use Rattle.kernel_contexts.specs.Context.{IsOn, thread_of};
ghost use Rattle.core_unit.specs.Made.{MakesTurns, waits};
ghost use Rattle.core_unit.specs.Run.{end_of_turn};

use crate::resident::Resident;
use crate::run::{CoreRun, RunWhy};
use kernel_contexts::Turn;
use machine_step::Never;
use mem_access::Bank;
use shared_region::Port;

/// How the turns of a resident ended.
#[derive(Clone, Copy)]
pub enum TurnsEnd {
    /// As a run ends.
    Ended(CoreRun),
    /// So many turns were made, and the next one needs the thread's vectors in the bank.
    NeedsBank(u32),
}

/// Why a run ends with a turn; `None` where the thread goes on.
fn end_of_turn(turn: Turn) -> Option<RunWhy>
    requires { turn ≢ Turn.NeedsBank }
    ensures { result ≡ end_of_turn turn }
{
    match turn {
        Turn::Ran => None,
        Turn::Yielded => Some(RunWhy::Yielded),
        Turn::Stopped(_) => Some(RunWhy::Stopped),
        Turn::TraceEnds => Some(RunWhy::TraceEnds),
        Turn::TraceDiffers => Some(RunWhy::TraceDiffers),
        Turn::Memory => Some(RunWhy::Memory),
        Turn::NeedsBank => unreachable!(),
    }
}

/// Whether a turn is not made since it needs the bank.
fn waits(turn: Turn) -> bool
    ensures { result ≡ waits turn }
{
    match turn {
        Turn::NeedsBank => true,
        _ => false,
    }
}

/// Lets a resident make so many turns at most, until one needs the bank, which its thread does not own: that
/// bank stays as it is.
pub fn make_turns<P: Port>(
    resident: &mut Resident<P>,
    bank: &mut Bank,
    port: &mut P,
    k: u32,
) -> TurnsEnd
    requires on { IsOn resident.old.context bank.old }
    requires ticket { IsTicketOf (thread_of resident.old.context) (P.name port.old)
        (P.tells resident.old.ticket) }
    ensures { MakesTurns (P.refuses port.new resident.new.ticket)
        (λ events. GivesEvents P.gives P.name P.tells (thread_of resident.old.context) events port.old
        resident.old.ticket port.new resident.new.ticket) k resident.old.context bank.old
        resident.new.context bank.new result }
{
    if resident.context.stop().is_some() {
        return TurnsEnd::Ended(CoreRun {
            turns: 0,
            why: RunWhy::Stopped,
        });
    }
    let begun = resident.context.turns();
    let mut turns = 0;
    'turns: while turns < k {
        let turn = resident
            .context
            .advance_on(bank, port, &mut resident.ticket);
        if waits(turn) {
            return TurnsEnd::NeedsBank(turns);
        }
        match end_of_turn(turn) {
            None => {
                turns += 1;
                turns += resident
                    .context
                    .advance_several_on(bank, &Never, k - turns)
                    .count;
            }
            Some(why) => {
                let made = (resident.context.turns() - begun) as u32;
                return TurnsEnd::Ended(CoreRun { turns: made, why });
            }
        }
    }
    TurnsEnd::Ended(CoreRun {
        turns,
        why: RunWhy::Spent,
    })
}
