//! The state of one guest thread in plain fields, as a file has it.

use paged_memory::PageList;
use sm_types::Bytes;

/// The handler of a signal.
#[derive(Clone, Copy, Debug, PartialEq, Eq)]
pub struct Handler {
    /// 1 to 62.
    pub signal: u32,
    /// Where the handler begins; not 0.
    pub address: u64,
}

/// Handlers, by ascending signal.
pub type Handlers = Vec<Handler>;

/// The state of one guest thread, that no one vouches for: whatever the fields are, `IsLooseState` says which
/// of them are those of a thread. L is the vector length of the mode in bytes, S the streaming vector length.
#[derive(Drop)]
pub struct LooseState {
    /// The thread's number.
    pub thread: u32,
    /// Counted instructions.
    pub count: u32,
    /// The events that it made since its start.
    pub events: u32,
    /// How many handlers it is in.
    pub depth: u32,
    /// Turns made.
    pub turns: u64,
    pub pc: u64,
    pub sp: u64,
    /// X0 to X30.
    pub x: [u64; 31],
    /// NZCV: the flags in bits 31 to 28.
    pub nzcv: u64,
    /// SVCR: PSTATE.SM in bit 0, PSTATE.ZA in bit 1.
    pub svcr: u64,
    /// TPIDR_EL0
    pub tpidr: u64,
    /// TPIDR2_EL0
    pub tpidr2: u64,
    /// The signals that are held, a bit for each.
    pub held: u64,
    /// The signals that are not delivered, a bit for each.
    pub mask: u64,
    /// The pending signals were polled since the last counted instruction.
    pub polled: bool,
    /// Z0 to Z31, each of L bytes, one after the other.
    pub z: Bytes,
    /// P0 to P15, each of L / 8 bytes, one after the other.
    pub p: Bytes,
    /// FFR, of L / 8 bytes.
    pub ffr: Bytes,
    /// The S vectors of ZA, each of S bytes, one after the other; empty where PSTATE.ZA is 0.
    pub za: Bytes,
    pub handlers: Handlers,
    /// The bytes that the thread has written.
    pub output: Bytes,
    /// The thread's pages.
    pub pages: PageList,
}
