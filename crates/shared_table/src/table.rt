//! The table.
ghost use Rattle.std.specs.Prelude.{◌≡◌};

use crate::view::{OneHistory, SeatView};
use atomic_table::Table;
use std::alloc::Global;

/// The 512 words of the shared region and the 32 of the pending signals, each an atomic word.
#[derive(Drop)]
pub struct SharedTable {
    pub(crate) table: Table<u8, SeatView, (), OneHistory, Global>,
    pub ghost counts: { (table.shared.table_id.words ≡ 544) × (table.shared.table_id.slots ≡ 0) },
}
