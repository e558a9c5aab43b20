//! Turns of a thread in which nothing but its instructions is due.
ghost use Rattle.std.specs.Prelude.{◌≡◌, true, None, IfOk, IfErr, IsSome};
ghost use Rattle.shared_region.specs.Tickets.{IsTicketOf};
ghost use Rattle.kernel_contexts.specs.Context.{state_of, config_of, thread_of, stop_of, journal_of, is_home};
ghost use Rattle.kernel_contexts.specs.Context.{IsSameThread};
ghost use Rattle.za_routines.specs.Turns.{IsQuiet, IsAfter, IsOnTheWay, core_after, has_run};

use kernel_contexts::{Context, Turn};
use shared_region::Port;
use sm_types::Memory;

/// Whether a turn was made and the thread goes on.
fn has_run(turn: Turn) -> bool
    ensures { result ≡ has_run turn }
{
    match turn {
        Turn::Ran => true,
        _ => false,
    }
}

/// Makes so many turns, each of which is an instruction that is executed. `Memory` is want of memory, for a
/// page that one of them writes or for a place in the journal's list; those before it are made.
pub fn run_quietly<P: Port>(
    context: &mut Context,
    port: &mut P,
    ticket: &mut P::Ticket,
    turns: u32,
) -> Result<(), Memory>
    requires home { is_home context.old ≡ true }
    requires ticket { IsTicketOf (thread_of context.old) (P.name port.old) (P.tells ticket.old) }
    requires runs { stop_of context.old ≡ None }
    requires quiet { IsQuiet (config_of context.old) (state_of context.old) turns }
    requires executed { IsSome (core_after (config_of context.old) turns (state_of context.old)) }
    ensures after { IfOk result (λ done. IsAfter (config_of context.old) turns (state_of context.old)
        (state_of context.new)) }
    ensures memory { IfErr result (λ wants. IsOnTheWay (config_of context.old) turns (state_of context.old)
        (state_of context.new)) }
    ensures home { is_home context.new ≡ true }
    ensures runs { stop_of context.new ≡ None }
    ensures journal { journal_of context.new ≡ journal_of context.old }
    ensures port { port.new ≡ port.old }
    ensures ticket { ticket.new ≡ ticket.old }
    ensures same { IsSameThread context.old context.new }
{
    let mut made = 0;
    'turns: while made < turns {
        let turn = context.advance(port, ticket);
        if !has_run(turn) {
            return Err(Memory);
        }
        made += 1;
    }
    Ok(())
}
