//! The commands of the debugger.

use sm_types::Elem;

/// The slices of a tile.
#[derive(Clone, Copy, PartialEq, Eq)]
pub enum Direction {
    /// The rows.
    Horizontal,
    /// The columns.
    Vertical,
}

/// A command of the debugger. Places in a run are counts of a thread's instructions.
#[derive(Clone, Copy, PartialEq, Eq)]
pub enum DebugCommand {
    /// So many instructions on.
    Step {
        count: u32,
    },
    /// So many instructions back.
    Back {
        count: u32,
    },
    /// To that count.
    Goto {
        count: u32,
    },
    /// To the next count whose PC is that address.
    Break {
        address: u64,
    },
    /// Shows the registers.
    Registers,
    /// Shows the array ZA.
    Za,
    /// Shows a slice of a tile.
    Slice {
        elem: Elem,
        tile: u32,
        direction: Direction,
        slice: u32,
    },
    /// Shows at most 4,096 bytes from an address on.
    Memory {
        address: u64,
        length: u32,
    },
    /// Shows the count, the PC and the instruction there.
    Where,
}
