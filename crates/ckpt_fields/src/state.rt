//! What the file of a thread's state says.

use paged_memory::PageList;

/// How far a thread has come.
#[derive(Clone, Copy, Debug, PartialEq, Eq)]
pub struct Progress {
    /// The thread's number.
    pub thread: u32,
    /// Counted instructions.
    pub count: u32,
    /// Events used so far, from the start of the thread's journal.
    pub events: u32,
    /// The handlers that the thread is in.
    pub depth: u32,
    /// Turns made.
    pub turns: u64,
}

/// The system registers, and what the kernel keeps of the thread's signals.
#[derive(Clone, Copy, Debug, PartialEq, Eq)]
pub struct System {
    /// The flags, in bits 31 to 28.
    pub nzcv: u64,
    /// PSTATE.SM in bit 0, PSTATE.ZA in bit 1.
    pub svcr: u64,
    pub tpidr: u64,
    pub tpidr2: u64,
    /// The signals that are held back, a bit for each.
    pub held: u64,
    /// The signals that are not delivered, a bit for each.
    pub mask: u64,
    /// Whether the pending signals were polled since the last counted instruction.
    pub polled: bool,
}

/// The bytes of the vectors, one register after the other.
#[derive(Drop)]
pub struct VectorBytes<'a> {
    /// Z0 to Z31.
    pub z: &'a [u8],
    /// P0 to P15, and FFR.
    pub predicates: &'a [u8],
    /// The vectors of ZA; empty where PSTATE.ZA is 0.
    pub za: &'a [u8],
}

/// The handler of a signal.
#[derive(Clone, Copy, Debug, PartialEq, Eq)]
pub struct SignalHandler {
    /// 1 to 62.
    pub signal: u32,
    /// Where it begins; not 0.
    pub address: u64,
}

/// All that the file of a thread's state says past what it was made for.
#[derive(Drop)]
pub struct StateFields<'a> {
    pub progress: Progress,
    /// PC, SP and X0 to X30, 8 bytes each.
    pub registers: &'a [u8],
    pub system: System,
    pub vectors: VectorBytes<'a>,
    /// By ascending signal.
    pub handlers: Vec<SignalHandler>,
    /// The bytes that the thread has written.
    pub output: &'a [u8],
    /// By ascending address.
    pub pages: PageList,
}
