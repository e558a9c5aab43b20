//! The words that the threads share, reached through a port that keeps them and one that answers from a
//! journal.
ghost use Rattle.std.specs.Prelude.{◌≡◌};
ghost use Rattle.shared_region.specs.WordRule.{HasWord};

use shared_region::{PlainPort, PlainTicket, Port, PortStop, ReplayPort, ReplayTicket};
use sm_types::{Entry, Event, OpKind, SharedOp};
use std::process::Abort as Stops;

const TOP: u64 = u64::MAX;

// Operations, a line for each: its kind and place, and its two values; its answer, and the word afterwards.
macro_rules! operations {
    ($rt:ident, $port:ident, $ticket:ident;
        $($kind:ident $place:literal, $a:expr, $b:expr => $answer:expr, $word:expr;)*) => {
        $(
            let op = SharedOp { kind: OpKind::$kind, place: $place, a: $a, b: $b };
            make(&$rt, &mut $port, &mut $ticket, op, $answer);
            assert_eq!($rt; word_at(&$port, $place), $word);
        )*
    };
}

/// Makes an operation, and looks at its answer and its entry.
fn make(rt: &impl Stops, port: &mut PlainPort, ticket: &mut PlainTicket, op: SharedOp, answer: u64)
    requires number { ticket.old.thread ≡ 7 }
    requires place { HasWord op }
    ensures { ticket.new.thread ≡ 7 }
{
    let count = port.history().len();
    assert!(rt; port.access(ticket, 7, op) == Ok(answer));
    let history = port.history();
    assert_eq!(rt; history.len(), count + 1);
    let event = Event { op, answer };
    assert!(rt; history[count] == Entry { thread: 7, event });
}

/// Shared word 511, or the pending signals of thread 31.
fn word_at(port: &PlainPort, place: u32) -> u64 {
    if place == 31 {
        port.words().pending[31]
    } else {
        port.words().shared[511]
    }
}

#[test]
fn operations_in_order(rt: HostRuntime) {
    let alloc = rt.alloc();
    let mut port = PlainPort::new(alloc).ok().expect(&rt, "memory");
    let mut ticket = PlainTicket::new(alloc, 7);
    operations! { rt, port, ticket;
        Store 511, 5, 0 => 0, 5;
        Load 511, 0, 0 => 5, 5;
        Cas 511, 4, 9 => 5, 5;
        Cas 511, 5, 9 => 5, 9;
        Swap 511, 0xc, 0 => 9, 0xc;
        Clear 511, 0x6, 0 => 0xc, 0x8;
        Eor 511, 0x9, 0 => 0x8, 0x1;
        Set 511, 0x6, 0 => 0x1, 0x7;
        Umin 511, 3, 0 => 7, 3;
        Umax 511, TOP, 0 => 3, TOP;
        Add 511, 3, 0 => TOP, 2;
        Post 31, 0x8, 0 => 0, 0x8;
        Post 31, 0x20, 0 => 0x8, 0x28;
        Poll 31, 0, 0 => 0x28, 0;
    }
    assert_eq!(rt; port.words().shared[31], 0);
}

#[test]
fn answers_of_a_journal(rt: HostRuntime) {
    let alloc = rt.alloc();
    let add = SharedOp {
        kind: OpKind::Add,
        place: 0,
        a: 1,
        b: 0,
    };
    let poll = SharedOp {
        kind: OpKind::Poll,
        place: 3,
        a: 0,
        b: 0,
    };
    let mut journal = Vec::new(alloc);
    for (op, answer) in [(add, 41), (poll, 0x28)] {
        journal
            .push(Event { op, answer })
            .ok()
            .expect(&rt, "memory");
    }
    let mut port = ReplayPort::new();
    let mut ticket = ReplayTicket::new(3, journal);
    assert_eq!(rt; ticket.left(), 2);
    assert!(rt; port.access(&mut ticket, 3, poll) == Err(PortStop::TraceDiffers));
    assert_eq!(rt; ticket.left(), 2);
    assert!(rt; port.access(&mut ticket, 3, add) == Ok(41));
    assert!(rt; port.access(&mut ticket, 3, poll) == Ok(0x28));
    assert_eq!(rt; ticket.left(), 0);
    assert!(rt; port.access(&mut ticket, 3, poll) == Err(PortStop::TraceEnds));
}
