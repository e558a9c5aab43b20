//! The residents of a core.
ghost use Rattle.std.specs.Prelude.{◌≡◌, Some};
ghost use Rattle.kernel_contexts.specs.Context.{thread_of, journal_of};

use kernel_contexts::Context;
use shared_region::Port;

/// A context with its ticket. Its vectors and ZA are in its save area, or in the bank of the core.
#[derive(Drop)]
pub struct Resident<P: Port> {
    pub context: Context,
    pub ticket: P::Ticket,
    pub ghost number: { (P.tells ticket).number ≡ Some (thread_of context) },
    pub ghost journal: { (P.tells ticket).events ≡ journal_of context },
}
