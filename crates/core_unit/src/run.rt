//! What a run of a core came to.

/// Why a run of a core ended.
#[derive(Clone, Copy, Debug, PartialEq, Eq)]
pub enum RunWhy {
    /// The first resident made as many turns as it was let.
    Spent,
    /// It gave way to others.
    Yielded,
    /// It stopped, now or before.
    Stopped,
    /// There is no resident.
    Idle,
    /// Its next turn asks an operation, and the port's journal has no event left.
    TraceEnds,
    /// Its next turn asks an operation, and the next event of the port's journal has another.
    TraceDiffers,
    /// There was no memory for its next turn.
    Memory,
}

/// A run of a core.
#[derive(Clone, Copy, Debug, PartialEq, Eq)]
pub struct CoreRun {
    /// How many turns the first resident made.
    pub turns: u32,
    /// Why it made no more.
    pub why: RunWhy,
}
