//! How a table is made, how its seats are given and taken back, and what is known once it is closed.
ghost use Rattle.std.specs.Prelude.{◌≡◌, ◌+◌, ◌≤◌, [], length, take, drop, IfOk, IsSome};
ghost use Rattle.std.specs.Mem.Slots.{slots_items, slots_len, IsFull};
ghost use Rattle.shared_region.specs.History.{AreOneHistory};
ghost use Rattle.shared_table.specs.declared.view.Told.TheVariants.{Never};
ghost use Rattle.shared_table.specs.declared.view.SeatView.TheVariants.{Maker, Thread};
ghost use Rattle.shared_table.specs.Views.{new_book, thread_in, with_split, with_joined};
ghost use Rattle.shared_table.specs.Seats.{view_of, seat_name, table_name, kept_of, kept_lists};
ghost use Rattle.shared_table.specs.Seats.{IsMaker, AreAllBack};

use crate::seat::Seat;
use crate::table::SharedTable;
use crate::view::{ForThread, SplitsOff, TakesBack};
use atomic_table::{Closed, Table};
use sm_types::{Memory, Words};
use std::alloc::Global;
use std::marker::Brand;

/// Copies a closed table's words, from one of them on, into all of a slice.
fn copy_words(closed: &Closed<u8, Global>, from: usize, into: &mut [u64])
    requires full { IsFull closed.now.words }
    requires room { from + length into.old ≤ slots_len closed.now.words }
    ensures { into.new ≡ take (length into.old) (drop from (slots_items closed.now.words)) }
{
    for i in 0..into.len() {
        into[i] = closed.word(from + i);
    }
}

impl SharedTable {
    /// A table whose words are all zero, and its maker's seat, which has given no number. `Memory` is want of
    /// memory.
    pub fn new(alloc: Global) -> Result<(SharedTable, Seat), Memory>
        ensures name { IfOk result (λ made. seat_name made.1 ≡ table_name made.0) }
        ensures maker { IfOk result (λ made. view_of made.1 ≡ Maker new_book) }
    {
        let Ok(words) = Vec::from_elem(alloc, 0u64, 544) else {
            return Err(Memory);
        };
        match Table::of_words(alloc, words.as_slice(), &()) {
            Ok((table, inner)) => Ok((SharedTable { table }, Seat { inner })),
            Err(_) => Err(Memory),
        }
    }

    /// The seat of the thread that the call names.
    fn seat_for<N: ForThread>(&self, seat: &mut Seat, thread: u32) -> Seat
        requires thread { N.thread ≡ thread }
        requires name { seat_name seat.old ≡ table_name self.now }
        requires maker { IsMaker seat.old }
        requires fresh { kept_of seat.old thread ≡ Never }
        ensures name { (seat_name seat.new ≡ seat_name seat.old) × (seat_name result ≡ seat_name seat.old) }
        ensures maker { view_of seat.new ≡ with_split thread (view_of seat.old) }
        ensures given { view_of result ≡ Thread thread [] }
    {
        Seat {
            inner: self
                .table
                .shared
                .split_seat::<SplitsOff<N>>(&mut seat.inner),
        }
    }

    /// The seat of a thread, 0 to 31, whose number the maker's seat never gave. It was given no event yet,
    /// and the maker's seat tells that its number is out.
    pub fn split(&self, seat: &mut Seat, thread: u32) -> Seat
        requires name { seat_name seat.old ≡ table_name self.now }
        requires maker { IsMaker seat.old }
        requires fresh { kept_of seat.old thread ≡ Never }
        ensures name { (seat_name seat.new ≡ seat_name seat.old) × (seat_name result ≡ seat_name seat.old) }
        ensures maker { view_of seat.new ≡ with_split thread (view_of seat.old) }
        ensures given { view_of result ≡ Thread thread [] }
    {
        self.seat_for::<Brand>(seat, thread)
    }

    /// Takes the seat of a thread back. The maker's seat keeps the thread's list, at its number.
    pub fn join(&self, seat: &mut Seat, other: Seat)
        requires name { (seat_name seat.old ≡ table_name self.now) × (seat_name other ≡ seat_name seat.old) }
        requires maker { IsMaker seat.old }
        requires thread { IsSome (thread_in (view_of other)) }
        ensures name { seat_name seat.new ≡ seat_name seat.old }
        ensures maker { view_of seat.new ≡ with_joined (view_of seat.old) (view_of other) }
    {
        let Seat { inner } = other;
        self.table
            .shared
            .join_seat::<TakesBack>(&mut seat.inner, inner);
    }

    /// Ends the table, where each seat that was split was joined again: the 32 lists that the maker's seat
    /// keeps, empty where a number was never given, are one history with the words that are written.
    pub fn close(self, seat: Seat, into: &mut Words)
        requires name { seat_name seat ≡ table_name self }
        requires maker { IsMaker seat }
        requires back { AreAllBack seat }
        ensures { AreOneHistory (kept_lists seat) into.new }
    {
        let SharedTable { table } = self;
        let Seat { inner } = seat;
        let closed = table.close_with(inner);
        copy_words(&closed, 0, &mut into.shared);
        copy_words(&closed, 512, &mut into.pending);
        closed.free();
    }
}
