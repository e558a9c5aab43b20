//! A port that answers from a journal.
ghost use Rattle.std.specs.Prelude.{◌≡◌, ◌↔◌, [], length, slice_get, IsTrue};

use crate::port::{Port, PortStop};
use sm_types::{Event, SharedOp};
use std::marker::Model;

/// A thread's number and its journal, of which the first events are already answered.
#[derive(Drop)]
pub struct ReplayTicket {
    thread: u32,
    journal: Vec<Event>,
    answered: usize,
}

impl Model for ReplayTicket {
    ghost use Rattle.std.specs.Prelude.{◌≤◌, length, take, drop};
    ghost use Rattle.shared_region.specs.Ports.{ReplayEvents};

    ghost Value = { ReplayEvents };

    ghost view = { λ t. record {
      thread = t.thread;
      answered = take t.answered t.journal.items;
      ahead = drop t.answered t.journal.items;
    } };

    ghost invariant = { λ t. t.answered ≤ length t.journal.items };
}

impl ReplayTicket {
    /// The ticket of a thread with a journal of which nothing is answered yet.
    pub fn new(thread: u32, journal: Vec<Event>) -> ReplayTicket
        ensures { result ≡ record { thread = thread; answered = []; ahead = journal.items } }
    {
        ReplayTicket {
            thread,
            journal,
            answered: 0,
        }
    }

    /// How many events are not answered yet.
    pub fn left(&self) -> usize
        ensures { result ≡ length self.now.ahead }
    {
        self.journal.len() - self.answered
    }
}

/// The event at a place of a journal, if it has one there.
fn event_at(journal: &[Event], place: usize) -> Option<Event>
    ensures { result ≡ slice_get journal.now place }
{
    if place < journal.len() {
        Some(journal[place])
    } else {
        None
    }
}

/// Tells whether two operations are the same.
fn is_same(a: &SharedOp, b: &SharedOp) -> bool
    ensures { IsTrue result ↔ (a.now ≡ b.now) }
{
    a == b
}

/// A port that has no words: each ticket has the answers of its thread.
#[derive(Drop)]
pub struct ReplayPort;

impl ReplayPort {
    /// The port.
    pub fn new() -> ReplayPort {
        ReplayPort
    }
}

impl Port for ReplayPort {
    type Ticket = ReplayTicket;

    ghost use Rattle.std.specs.Prelude.{Some};
    ghost use Rattle.shared_region.specs.Ports.{no_table, IsAtEnd, Strays, ReplayGives, end_or_stray};

    ghost tells = { λ t. record { number = Some t.thread; events = t.answered; name = no_table } };

    ghost name = { λ p. no_table };

    ghost refuses = { λ p t. record { ends = λ op. IsAtEnd t; strays = Strays t; takes_memory = ⊥ } };

    ghost gives = { λ p t e q u. ReplayGives t e u };

    ghost apart = { λ p t op e s. end_or_stray t op e s };

    fn access(
        &mut self,
        ticket: &mut ReplayTicket,
        thread: u32,
        op: SharedOp,
    ) -> Result<u64, PortStop> {
        let Some(next) = event_at(ticket.journal.as_slice(), ticket.answered) else {
            return Err(PortStop::TraceEnds);
        };
        if !is_same(&next.op, &op) {
            return Err(PortStop::TraceDiffers);
        }
        ticket.answered += 1;
        Ok(next.answer)
    }
}
