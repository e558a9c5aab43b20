//! Operations that the kernel itself asks of a port: polls and posts.
ghost use Rattle.std.specs.Prelude.{◌≡◌, ◌<◌, None, Err, false};
ghost use Rattle.shared_region.specs.Tickets.{IsTicketOf, GivesEvents};
ghost use Rattle.shared_region.specs.WordRule.{HasWord};
ghost use Rattle.kernel_contexts.specs.Asked.{refused_turn};

use crate::context::Turn;
use crate::guest::GuestThread;
use shared_region::{Port, PortStop};
use sm_types::{Event, JOURNAL_LIMIT, OpKind, SharedOp, Stop};

/// Why an operation was not made; nothing has changed.
#[derive(Clone, Copy)]
pub enum Refusal {
    /// The journal has no room for its event.
    Full,
    /// The port refused it, or there was no memory for its event.
    Port(PortStop),
}

/// What a turn comes to whose operation a port refuses.
fn refused_turn(stop: PortStop) -> Turn
    ensures { result ≡ refused_turn stop }
{
    match stop {
        PortStop::TraceEnds => Turn::TraceEnds,
        PortStop::TraceDiffers => Turn::TraceDiffers,
        PortStop::Memory => Turn::Memory,
    }
}

impl GuestThread {
    ghost use Rattle.kernel_contexts.specs.Turn.{poll_of};
    ghost use Rattle.kernel_contexts.specs.Asked.{Asked, Refuses, with_place};
    ghost use Rattle.kernel_contexts.specs.Context.{bare_state, guest_made, IsQuietGuest, TurnsOver};
    ghost use Rattle.kernel_contexts.specs.GuestThread.{guest_state, guest_events};
    ghost use Rattle.machine_step.specs.ProcessorState.{VectorState};
    ghost use Rattle.kernel_contexts.specs.Context.{Grows, HasFreePlace, GoesOrAsks};

    /// Makes an operation, where the journal has room for its event, and keeps that.
    pub(super) fn ask<P: Port>(
        &mut self,
        op: SharedOp,
        port: &mut P,
        ticket: &mut P::Ticket,
    ) -> Result<u64, Refusal>
        requires place { HasWord op }
        requires ticket { IsTicketOf self.old.number (P.name port.old) (P.tells ticket.old) }
        ensures made { Asked (with_place (HasFreePlace self.old) (P.refuses port.old ticket.old)) op
            (guest_events self.old) (guest_made self.old self.new) result }
        ensures state { bare_state self.new ≡ bare_state self.old }
        ensures machine { self.new.machine ≡ self.old.machine }
        ensures stop { self.new.stop ≡ self.old.stop }
        ensures watch { self.new.watch ≡ self.old.watch }
        ensures grows { Grows (λ thread events. GivesEvents P.gives P.name P.tells thread events port.old
            ticket.old port.new ticket.new) self.old self.new }
    {
        if self.events() >= JOURNAL_LIMIT as usize {
            return Err(Refusal::Full);
        }
        if self.journal.reserve(1).is_err() {
            return Err(Refusal::Port(PortStop::Memory));
        }
        match port.access(ticket, self.number, op) {
            Ok(answer) => {
                self.journal.push_reserved(Event { op, answer });
                Ok(answer)
            }
            Err(stop) => Err(Refusal::Port(stop)),
        }
    }

    /// What a turn comes to whose operation was not made.
    pub(super) fn refuse(&mut self, refusal: Refusal) -> Turn
        requires runs { self.old.stop ≡ None }
        ensures turn { (v : VectorState)
            → Refuses refusal (guest_state self.old v) (guest_state self.new v) self.new.stop result }
        ensures machine { self.new.machine ≡ self.old.machine }
        ensures same { IsQuietGuest self.old self.new }
    {
        match refusal {
            Refusal::Full => self.stop_with(Stop::TraceFull),
            Refusal::Port(stop) => refused_turn(stop),
        }
    }

    /// Takes the pending signals of the thread, which are then held.
    pub(super) fn poll<P: Port>(&mut self, port: &mut P, ticket: &mut P::Ticket) -> Turn
        requires runs { self.old.stop ≡ None }
        requires watched { self.old.count ≡ self.old.watch }
        requires count { self.old.count < self.old.config.budget }
        requires polled { self.old.polled ≡ false }
        requires ticket { IsTicketOf self.old.number (P.name port.old) (P.tells ticket.old) }
        ensures turn { (v : VectorState) → TurnsOver (P.refuses port.old ticket.old)
            (poll_of self.old.number (guest_events self.old) (guest_state self.old v))
            (guest_state self.old v) (guest_state self.new v) (guest_made self.old self.new) self.new.stop
            result }
        ensures memory { result ≡ Turn.Memory → HasFreePlace self.old
            → (P.refuses port.old ticket.old).takes_memory }
        ensures goes { (v : VectorState) → result ≡ Turn.Memory → HasFreePlace self.old
            → GoesOrAsks (P.refuses port.old ticket.old).takes_memory
            (poll_of self.old.number (guest_events self.old) (guest_state self.old v)) }
        ensures machine { self.new.machine ≡ self.old.machine }
        ensures grows { Grows (λ thread events. GivesEvents P.gives P.name P.tells thread events port.old
            ticket.old port.new ticket.new) self.old self.new }
    {
        let op = SharedOp {
            kind: OpKind::Poll,
            place: self.number,
            a: 0,
            b: 0,
        };
        match self.ask(op, port, ticket) {
            Ok(answer) => {
                self.held |= answer;
                self.polled = true;
                self.turns += 1;
                Turn::Ran
            }
            Err(refusal) => self.refuse(refusal),
        }
    }
}
