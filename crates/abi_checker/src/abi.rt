//! What is told of a run.

/// The kinds of faults of a marked call.
#[derive(Clone, Copy, Debug, PartialEq, Eq)]
pub enum AbiKind {
    /// The caller's ZA is not dormant, with the block at X19, in the state after the call.
    NotDormant,
    /// At the call's return the callee has not done as the scheme allows.
    NotLawful,
    /// The call is made while 256 others have not returned.
    TooDeep,
}

/// Whether the marked calls of a run are at no fault.
#[derive(Clone, Copy, Debug, PartialEq, Eq)]
pub enum Abi {
    /// None is at fault: so many returned, and so many did not.
    Yes { calls: u32, unreturned: u32 },
    /// The first fault: the instructions that are counted there, PC, and its kind.
    No { count: u32, pc: u64, kind: AbiKind },
}
