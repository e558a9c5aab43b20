//! What answers a thread's accesses to the shared words.
ghost use Rattle.std.specs.Prelude.{◌≡◌, ℕ, List, [], ◌∷◌, IfOk, OnOk, OnErr, IfErr};
ghost use Rattle.sm_types.specs.declared.shared_op.SharedOp.{SharedOp};
ghost use Rattle.sm_types.specs.declared.shared_words.Entry.{Entry};
ghost use Rattle.shared_region.specs.WordRule.{HasWord};
ghost use Rattle.shared_region.specs.History.{event_of, entry_of};
ghost use Rattle.shared_region.specs.Tickets.{TicketView, IsTicketOf, with_events};
ghost use Rattle.shared_region.specs.Tickets.{Refusals, IsCause, IsAllowed};

use sm_types::SharedOp;

/// Why a port refuses an access.
#[derive(Clone, Copy, PartialEq, Eq)]
pub enum PortStop {
    /// The journal from which it answers has no event left.
    TraceEnds,
    /// The next event of that journal has another operation.
    TraceDiffers,
    /// Want of memory.
    Memory,
}

/// What answers a thread's accesses. A thread's ticket has its number, and tells the events that it was
/// given. A ticket belongs to a port of the same name.
pub trait Port {
    /// What a thread makes its accesses with.
    type Ticket: Drop;

    /// What a ticket tells: its thread's number, its events, and to which port it belongs.
    ghost tells: { Self.Ticket → TicketView };

    /// Which port it is, as plain data.
    ghost name: { Self → List ℕ };

    /// Which accesses are refused, and why.
    ghost refuses: { Self → Self.Ticket → Refusals };

    /// What an access that is answered makes of the port and the ticket.
    ghost gives: { Self → Self.Ticket → Entry → Self → Self.Ticket → Type 0 };

    /// Makes the operation for a thread, and gives its answer. A refusal changes nothing: `TraceEnds` and
    /// `TraceDiffers` come exactly where the port refuses the operation so.
    fn access(
        &mut self,
        ticket: &mut Self::Ticket,
        thread: u32,
        op: SharedOp,
    ) -> Result<u64, PortStop>
        requires ticket { IsTicketOf thread (name self.old) (tells ticket.old) }
        requires place { HasWord op }
        ensures events { IfOk result (λ answer.
            tells ticket.new ≡ with_events (tells ticket.old) (event_of op answer ∷ [])) }
        ensures gives { IfOk result (λ answer.
            gives self.old ticket.old (entry_of thread op answer) self.new ticket.new) }
        ensures goes { OnOk result (IsAllowed (refuses self.old ticket.old) op) }
        ensures cause { IfErr result (IsCause (refuses self.old ticket.old) op) }
        ensures refused { OnErr result ((self.new ≡ self.old) × (ticket.new ≡ ticket.old)) }
        ensures name { name self.new ≡ name self.old };

    /// The two refusals never meet.
    ghost apart: { (port : Self) (ticket : Self.Ticket) (op : SharedOp)
        → (refuses port ticket).ends op → (refuses port ticket).strays op → ⊥ };
}
