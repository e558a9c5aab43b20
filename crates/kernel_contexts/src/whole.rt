//! Contexts with their tickets.
ghost use Rattle.std.specs.Prelude.{◌≡◌, true, Some};
ghost use Rattle.kernel_contexts.specs.Context.{is_home, thread_of, journal_of};

use crate::context::Context;
use shared_region::Port;

/// A context with its ticket, whole: its vectors and ZA are in its save area, the ticket's number is its
/// thread, and its journal is the ticket's list.
#[derive(Drop)]
pub struct Whole<P: Port> {
    pub context: Context,
    pub ticket: P::Ticket,
    pub ghost home: { is_home context ≡ true },
    pub ghost number: { (P.tells ticket).number ≡ Some (thread_of context) },
    pub ghost journal: { (P.tells ticket).events ≡ journal_of context },
}
