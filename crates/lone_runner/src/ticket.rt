//! A ticket that has the journal of a run, and can be set back in it.
ghost use Rattle.std.specs.Prelude.{◌≡◌, ◌↔◌, ◌++◌, List, [], length, map, slice_get, IsTrue};
ghost use Rattle.sm_types.specs.declared.shared_words.Entry.{Entry};
ghost use Rattle.shared_region.specs.Chain.{Chain};
ghost use Rattle.shared_region.specs.Ports.{ReplayEvents};

use shared_region::{Port, PortStop};
use sm_types::{Event, SharedOp};
use std::marker::Model;

/// A thread's number and the whole journal of its run, of which the first events are already answered.
#[derive(Drop)]
pub struct JournalTicket {
    thread: u32,
    journal: Vec<Event>,
    answered: usize,
}

impl Model for JournalTicket {
    ghost use Rattle.std.specs.Prelude.{◌≤◌, length, take, drop};
    ghost use Rattle.shared_region.specs.Ports.{ReplayEvents};

    ghost Value = { ReplayEvents };

    ghost view = { λ t. record {
      thread = t.thread;
      answered = take t.answered t.journal.items;
      ahead = drop t.answered t.journal.items;
    } };

    ghost invariant = { λ t. t.answered ≤ length t.journal.items };
}

impl JournalTicket {
    ghost use Rattle.std.specs.Prelude.{◌≤◌, take, drop};
    ghost use Rattle.lone_runner.specs.Ticket.{whole_journal};

    /// The ticket of a thread with a journal of which nothing is answered yet.
    pub fn new(thread: u32, journal: Vec<Event>) -> JournalTicket
        ensures { result ≡ record { thread = thread; answered = []; ahead = journal.items } }
    {
        JournalTicket {
            thread,
            journal,
            answered: 0,
        }
    }

    /// How many events are not answered yet.
    pub fn left(&self) -> usize
        ensures { result ≡ length self.now.ahead }
    {
        self.journal.len() - self.answered
    }

    /// How many events there are.
    pub fn count(&self) -> usize
        ensures { result ≡ length (whole_journal self.now) }
    {
        self.journal.len()
    }

    /// Sets the ticket to where so many events are answered.
    pub fn set_answered(&mut self, answered: usize)
        requires { answered ≤ length (whole_journal self.old) }
        ensures { self.new ≡ record {
          thread = self.old.thread;
          answered = take answered (whole_journal self.old);
          ahead = drop answered (whole_journal self.old);
        } }
    {
        self.answered = answered;
    }
}

/// The event at a place of a journal, if it has one there.
fn event_at(journal: &[Event], place: usize) -> Option<Event>
    ensures { result ≡ slice_get journal.now place }
{
    if place < journal.len() {
        Some(journal[place])
    } else {
        None
    }
}

/// Tells whether two operations are the same.
fn is_same(a: &SharedOp, b: &SharedOp) -> bool
    ensures { IsTrue result ↔ (a.now ≡ b.now) }
{
    a == b
}

/// A port that has no words: each ticket has the answers of its thread.
#[derive(Drop)]
pub struct JournalPort;

impl JournalPort {
    /// The port.
    pub fn new() -> JournalPort {
        JournalPort
    }
}

impl Port for JournalPort {
    type Ticket = JournalTicket;

    ghost use Rattle.std.specs.Prelude.{Some};
    ghost use Rattle.shared_region.specs.Ports.{no_table, IsAtEnd, Strays, ReplayGives, end_or_stray};

    ghost tells = { λ t. record { number = Some t.thread; events = t.answered; name = no_table } };

    ghost name = { λ p. no_table };

    ghost refuses = { λ p t. record { ends = λ op. IsAtEnd t; strays = Strays t; takes_memory = ⊥ } };

    ghost gives = { λ p t e q u. ReplayGives t e u };

    ghost apart = { λ p t op e s. end_or_stray t op e s };

    fn access(
        &mut self,
        ticket: &mut JournalTicket,
        thread: u32,
        op: SharedOp,
    ) -> Result<u64, PortStop> {
        let Some(next) = event_at(ticket.journal.as_slice(), ticket.answered) else {
            return Err(PortStop::TraceEnds);
        };
        if !is_same(&next.op, &op) {
            return Err(PortStop::TraceDiffers);
        }
        ticket.answered += 1;
        Ok(next.answer)
    }
}

/// Accesses that a ticket answers are its next events, and what is left follows them.
pub(crate) fn journal_stays()
    ensures ahead { (p q : JournalPort) (t u : ReplayEvents) (es : List Entry)
        → Chain ⟦<JournalPort as Port>⟧.gives p t es q u → t.ahead ≡ map (λ e. e.event) es ++ u.ahead }
    ensures answered { (p q : JournalPort) (t u : ReplayEvents) (es : List Entry)
        → Chain ⟦<JournalPort as Port>⟧.gives p t es q u → u.answered ≡ t.answered ++ map (λ e. e.event) es }
{}
