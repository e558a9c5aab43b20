//! What a seat knows, and what each kind of step tells it. None of it exists while a program runs.
ghost use Rattle.std.specs.Prelude.{ℕ};
ghost use Rattle.sm_types.specs.declared.shared_op.SharedOp.{SharedOp};

use atomic_table::{Join, Play, Split, TableRule};
use sm_types::Event;
use std::collections::LinkedList;
use std::marker::{Brand, PhantomData};

/// What the maker's seat tells of a thread's number.
pub enum Told {
    /// It was never given.
    Never,
    /// A seat has it.
    Out,
    /// Its seat was joined, with this list.
    Back(LinkedList<Event>),
}

/// What a seat knows.
pub enum SeatView {
    /// It is the maker's, with a book that tells of the numbers 0 to 31.
    Maker(LinkedList<Told>),
    /// It is a thread's: the thread's number, and the events that it was given, the oldest first.
    Thread(u32, LinkedList<Event>),
    /// It was joined to the maker's.
    Spent,
}

/// The rule of the table: what was done so far is one history.
pub struct OneHistory;

impl TableRule<u8, SeatView, ()> for OneHistory {
    ghost use Rattle.shared_table.specs.declared.view.SeatView.TheVariants.{Maker};
    ghost use Rattle.shared_table.specs.Rule.{Holds};
    ghost use Rattle.shared_table.specs.Views.{new_book};

    ghost holds = { λ _. Holds };

    ghost first = { λ _. Maker new_book };
}

/// Names the operation of a step, which the call picks.
pub trait Asks {
    ghost op: { SharedOp };
}

impl Asks for Brand {
    ghost use Rattle.shared_table.specs.Rule.{no_op};

    ghost op = { no_op };
}

/// A step that makes the operation: the seat's list gets it at its end, with its answer.
pub struct Logs<O> {
    of: PhantomData<O>,
}

impl<O: Asks> Play<u8, SeatView> for Logs<O> {
    ghost use Rattle.shared_table.specs.Rule.{Logged};

    ghost then = { λ step. Logged O.op };
}

/// Names the thread of a new seat, which the call picks.
pub trait ForThread {
    ghost thread: { ℕ };
}

impl ForThread for Brand {
    ghost thread = { 0 };
}

/// The maker's seat gives a number, and the new seat has it, with an empty list.
pub struct SplitsOff<N> {
    of: PhantomData<N>,
}

impl<N: ForThread> Split<SeatView> for SplitsOff<N> {
    ghost use Rattle.std.specs.Prelude.{[]};
    ghost use Rattle.shared_table.specs.declared.view.SeatView.TheVariants.{Thread};
    ghost use Rattle.shared_table.specs.Views.{with_split};

    ghost left = { with_split N.thread };

    ghost right = { λ _. Thread N.thread [] };
}

/// The maker's seat takes a number back, with the list.
pub struct TakesBack;

impl Join<SeatView> for TakesBack {
    ghost use Rattle.shared_table.specs.declared.view.SeatView.TheVariants.{Spent};
    ghost use Rattle.shared_table.specs.Views.{with_joined};

    ghost both = { with_joined };

    ghost spent = { Spent };
}
