//! Seats.
ghost use Rattle.std.specs.Prelude.{◌≡◌, []};

use crate::view::SeatView;

/// A token of no bytes: the maker's, or that of a guest thread, whose accesses are made with it.
///
/// A seat of a thread that is dropped keeps its number, so the table cannot be closed any more.
#[derive(Drop)]
pub struct Seat {
    pub(crate) inner: atomic_table::Seat<u8, SeatView>,
    pub ghost bare: { inner.me.1 ≡ [] },
}
