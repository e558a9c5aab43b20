//! The port to a table.
ghost use Rattle.std.specs.Prelude.{◌≡◌};

use crate::seat::Seat;
use crate::table::SharedTable;
use shared_region::{Port, PortStop};
use sm_types::SharedOp;

/// Lends a table to a thread. Its tickets are the table's seats. An access is one atomic step on one of the
/// table's words; none is refused, and none takes memory.
#[derive(Drop)]
pub struct SeatPort<'t> {
    pub(crate) table: &'t SharedTable,
}

impl<'t> SeatPort<'t> {
    /// The port of a table.
    pub fn new(table: &'t SharedTable) -> SeatPort<'t>
        ensures { result.table ≡ table.entry }
    {
        SeatPort { table }
    }
}

impl<'t> Port for SeatPort<'t> {
    type Ticket = Seat;

    ghost use Rattle.shared_table.specs.Seats.{ticket_of, table_name};

    ghost tells = { ticket_of };

    ghost name = { λ p. table_name p.table.now };

    ghost refuses = { λ p t. record { ends = λ op. ⊥; strays = λ op. ⊥; takes_memory = ⊥ } };

    ghost gives = { λ p t e q u. Unit {0} };

    ghost apart = { λ p t op e s. e };

    #[inline]
    fn access(&mut self, ticket: &mut Seat, thread: u32, op: SharedOp) -> Result<u64, PortStop> {
        Ok(self.table.access(ticket, thread, op))
    }
}
