//! The steps, each one operation of the thread whose seat it is.
ghost use Rattle.std.specs.Prelude.{◌≡◌, ◌<◌, ◌∷◌, [], Some};
ghost use Rattle.shared_region.specs.WordRule.{HasWord};
ghost use Rattle.shared_region.specs.History.{event_of};
ghost use Rattle.shared_region.specs.Tickets.{IsTicketOf, with_events};
ghost use Rattle.shared_table.specs.Cells.{cell_of};
ghost use Rattle.shared_table.specs.Views.{thread_in, with_event};
ghost use Rattle.shared_table.specs.Seats.{view_of, seat_name, table_name, ticket_of};

use crate::seat::Seat;
use crate::table::SharedTable;
use crate::view::{Asks, Logs};
use sm_types::{OpKind, SharedOp};
use std::marker::Brand;

/// The cell of an operation's word.
#[inline]
fn cell(op: &SharedOp) -> usize
    requires { HasWord op.now }
    ensures value { result ≡ cell_of op.now }
    ensures small { result < 544 }
{
    let place = op.place as usize;
    match op.kind {
        OpKind::Post | OpKind::Poll => 512 + place,
        _ => place,
    }
}

impl SharedTable {
    /// The step of each kind of operation. A `Poll` is a swap for 0, and `Cas` tries once.
    #[inline]
    fn step<O: Asks>(&self, seat: &mut Seat, thread: u32, op: SharedOp) -> u64
        requires asks { O.op ≡ op }
        requires name { seat_name seat.old ≡ table_name self.now }
        requires number { thread_in (view_of seat.old) ≡ Some thread }
        requires place { HasWord op }
        ensures name { seat_name seat.new ≡ seat_name seat.old }
        ensures view { view_of seat.new ≡ with_event (view_of seat.old) (event_of op result) }
    {
        let words = &self.table.shared;
        let at = cell(&op);
        let seat = &mut seat.inner;
        match op.kind {
            OpKind::Load => words.load::<Logs<O>>(seat, at),
            OpKind::Store => {
                words.store::<Logs<O>>(seat, at, op.a);
                0
            }
            OpKind::Swap => words.swap::<Logs<O>>(seat, at, op.a),
            OpKind::Add => words.fetch_add::<Logs<O>>(seat, at, op.a),
            OpKind::Clear => words.fetch_and::<Logs<O>>(seat, at, u64::MAX - op.a),
            OpKind::Eor => words.fetch_xor::<Logs<O>>(seat, at, op.a),
            OpKind::Set => words.fetch_or::<Logs<O>>(seat, at, op.a),
            OpKind::Umax => words.fetch_max::<Logs<O>>(seat, at, op.a),
            OpKind::Umin => words.fetch_min::<Logs<O>>(seat, at, op.a),
            OpKind::Cas => words.compare_exchange::<Logs<O>>(seat, at, op.a, op.b),
            OpKind::Post => words.fetch_or::<Logs<O>>(seat, at, op.a),
            OpKind::Poll => words.swap::<Logs<O>>(seat, at, 0),
        }
    }

    /// Makes the operation of a thread by one atomic step, and gives its answer.
    #[inline]
    pub(crate) fn access(&self, seat: &mut Seat, thread: u32, op: SharedOp) -> u64
        requires ticket { IsTicketOf thread (table_name self.now) (ticket_of seat.old) }
        requires place { HasWord op }
        ensures { ticket_of seat.new ≡ with_events (ticket_of seat.old) (event_of op result ∷ []) }
    {
        self.step::<Brand>(seat, thread, op)
    }
}
