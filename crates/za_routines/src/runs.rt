//! The routines of the lazy saving scheme, run word by word.
ghost use Rattle.std.specs.Prelude.{◌≡◌, true, None, IfOk, IfErr};
ghost use Rattle.shared_region.specs.Tickets.{IsTicketOf};
ghost use Rattle.kernel_contexts.specs.Context.{state_of, config_of, thread_of, stop_of, journal_of, is_home};
ghost use Rattle.kernel_contexts.specs.Context.{IsSameThread};
ghost use Rattle.za_routines.specs.Turns.{CanDisable, Disables, DisablesInPart};
ghost use Rattle.za_routines.specs.Turns.{CanReturn, Returns, ReturnsInPart};

use crate::quiet::run_quietly;
use crate::routines::{disable_turns, return_turns};
use kernel_contexts::Context;
use shared_region::Port;
use sm_types::Memory;

/// Runs `__arm_za_disable` of a thread that stands at its first word with its ZA dormant, as `can_disable`
/// tells, and gives the number of its instructions. `Memory` is want of memory, for a page of the buffer or
/// for a place in the journal's list, which each turn takes before all else; fewer instructions are made
/// then.
pub fn run_disable<P: Port>(
    context: &mut Context,
    port: &mut P,
    ticket: &mut P::Ticket,
) -> Result<u32, Memory>
    requires home { is_home context.old ≡ true }
    requires ticket { IsTicketOf (thread_of context.old) (P.name port.old) (P.tells ticket.old) }
    requires runs { stop_of context.old ≡ None }
    requires can { CanDisable (config_of context.old) (state_of context.old) }
    ensures done { IfOk result (λ turns. Disables (config_of context.old) (state_of context.old)
        (state_of context.new) turns) }
    ensures memory { IfErr result (λ wants. DisablesInPart (config_of context.old) (state_of context.old)
        (state_of context.new)) }
    ensures home { is_home context.new ≡ true }
    ensures runs { stop_of context.new ≡ None }
    ensures journal { journal_of context.new ≡ journal_of context.old }
    ensures port { port.new ≡ port.old }
    ensures ticket { ticket.new ≡ ticket.old }
    ensures same { IsSameThread context.old context.new }
{
    let turns = disable_turns(context);
    run_quietly(context, port, ticket, turns)?;
    Ok(turns)
}

/// Runs the tail of a call in a thread that stands at its first word and whose callee was lawful, as
/// `can_return` tells, and gives the number of its instructions. The tail writes no memory; `Memory` is want
/// of memory for a place in the journal's list, which each turn takes before all else, and fewer instructions
/// are made then.
pub fn run_tail<P: Port>(
    context: &mut Context,
    port: &mut P,
    ticket: &mut P::Ticket,
) -> Result<u32, Memory>
    requires home { is_home context.old ≡ true }
    requires ticket { IsTicketOf (thread_of context.old) (P.name port.old) (P.tells ticket.old) }
    requires runs { stop_of context.old ≡ None }
    requires can { CanReturn (config_of context.old) (state_of context.old) }
    ensures done { IfOk result (λ turns. Returns (config_of context.old) (state_of context.old)
        (state_of context.new) turns) }
    ensures memory { IfErr result (λ wants. ReturnsInPart (config_of context.old) (state_of context.old)
        (state_of context.new)) }
    ensures home { is_home context.new ≡ true }
    ensures runs { stop_of context.new ≡ None }
    ensures journal { journal_of context.new ≡ journal_of context.old }
    ensures port { port.new ≡ port.old }
    ensures ticket { ticket.new ≡ ticket.old }
    ensures same { IsSameThread context.old context.new }
{
    let turns = return_turns(context);
    run_quietly(context, port, ticket, turns)?;
    Ok(turns)
}
