//! The words that guest threads share as atomic words, which several host threads reach at the same time.
//!
//! A `SharedTable` is lent to all of them, and each guest thread has a `Seat`, a token of no bytes that tells
//! the events which the thread was given. Between any two steps there is a legal history that ends in the
//! table's words, of which each thread's part is the list of its seat (`IsKept`). Which history it is, nobody
//! stores, and no clause says. The seat that comes with the table, the maker's, gives the others and takes
//! them back; once it has all, the table can be closed, and the lists and the words are one history.
//!
//! `SeatPort` is the port through which a thread's accesses go, with its seat as the ticket: each access is
//! one atomic step, which waits for nothing and takes no memory.
#![tactic(auto)]

mod make;
mod seat;
mod seat_port;
mod steps;
mod table;
mod view;

pub use seat::Seat;
pub use seat_port::SeatPort;
pub use table::SharedTable;
