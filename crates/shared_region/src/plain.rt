//! A port that keeps the words and their history.
ghost use Rattle.std.specs.Prelude.{◌≡◌, [], IfOk};
ghost use Rattle.shared_region.specs.WordRule.{zero_words};
ghost use Rattle.shared_region.specs.Ports.{IsPlain};

use crate::port::{Port, PortStop};
use crate::word_rule::apply;
use sm_types::{Entry, Event, Memory, SharedOp, Words};
use std::alloc::Global;
use std::marker::Model;

/// The words that the threads share, and the history of the operations on them.
#[derive(Drop)]
pub struct PlainPort {
    words: Box<Words>,
    history: Vec<Entry>,
}

impl Model for PlainPort {
    ghost use Rattle.shared_region.specs.Ports.{PlainWords, IsPlain};

    ghost Value = { PlainWords };

    ghost view = { λ p. record { words = p.words.value; history = p.history.items } };

    ghost invariant = { λ p. IsPlain (record { words = p.words.value; history = p.history.items }) };
}

impl PlainPort {
    /// Words that are all zero, without a history. `Memory` is want of memory.
    pub fn new(alloc: Global) -> Result<PlainPort, Memory>
        ensures { IfOk result (λ port. (port.words ≡ zero_words) × (port.history ≡ [])) }
    {
        let zeros = Words {
            shared: [0; 512],
            pending: [0; 32],
        };
        match Box::new(alloc, zeros) {
            Ok(words) => Ok(PlainPort {
                words,
                history: Vec::new(alloc),
            }),
            Err(_) => Err(Memory),
        }
    }

    /// The words as they stand.
    pub fn words(&self) -> &Words
        ensures value { result.now ≡ self.now.words }
        ensures plain { IsPlain self.now }
    {
        &self.words
    }

    /// All operations, the oldest first: a legal history that ends in the words.
    pub fn history(&self) -> &[Entry]
        ensures value { result.now ≡ self.now.history }
        ensures plain { IsPlain self.now }
    {
        self.history.as_slice()
    }
}

/// A thread's number, and the events that it was given.
#[derive(Drop)]
pub struct PlainTicket {
    thread: u32,
    events: Vec<Event>,
}

impl Model for PlainTicket {
    ghost use Rattle.shared_region.specs.Ports.{PlainEvents};

    ghost Value = { PlainEvents };

    ghost view = { λ t. record { thread = t.thread; events = t.events.items } };
}

impl PlainTicket {
    /// The ticket of a thread that was given no event.
    pub fn new(alloc: Global, thread: u32) -> PlainTicket
        ensures { result ≡ record { thread = thread; events = [] } }
    {
        PlainTicket {
            thread,
            events: Vec::new(alloc),
        }
    }
}

impl Port for PlainPort {
    type Ticket = PlainTicket;

    ghost use Rattle.std.specs.Prelude.{Some};
    ghost use Rattle.shared_region.specs.Ports.{no_table, PlainGives};

    ghost tells = { λ t. record { number = Some t.thread; events = t.events; name = no_table } };

    ghost name = { λ p. no_table };

    ghost refuses = { λ p t. record { ends = λ op. ⊥; strays = λ op. ⊥; takes_memory = Unit {0} } };

    ghost gives = { λ p t e q u. PlainGives p e q };

    ghost apart = { λ p t op e s. e };

    /// Takes the room of both lists first, so that no answer is lost.
    fn access(
        &mut self,
        ticket: &mut PlainTicket,
        thread: u32,
        op: SharedOp,
    ) -> Result<u64, PortStop> {
        if self.history.reserve(1).is_err() {
            return Err(PortStop::Memory);
        }
        if ticket.events.reserve(1).is_err() {
            return Err(PortStop::Memory);
        }
        let answer = apply(&mut self.words, &op);
        let event = Event { op, answer };
        self.history.push_reserved(Entry { thread, event });
        ticket.events.push_reserved(event);
        Ok(answer)
    }
}
