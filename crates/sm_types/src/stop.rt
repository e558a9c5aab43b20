//! Exceptions, and why a thread stops.

/// How an access uses memory.
#[derive(Clone, Copy, Debug, PartialEq, Eq)]
pub enum Access {
    Read,
    Write,
}

/// Why an instruction raises. Addresses are in bytes.
#[derive(Clone, Copy, Debug, PartialEq, Eq)]
pub enum Exception {
    /// The word is no instruction of the table.
    Undefined(u32),
    /// PC is no multiple of 4.
    PcAlign,
    /// A byte of the instruction is in no executable page.
    Fetch,
    /// The byte at the address may not be accessed so.
    Data { address: u64, access: Access },
    /// SP as a base is no multiple of 16.
    SpAlign,
    /// The address of an ordered or atomic access is no multiple of its size.
    Align(u64),
    /// The instruction may not be executed in streaming mode.
    IllegalStreaming,
    /// The instruction needs streaming mode.
    NotStreaming,
    /// The instruction needs PSTATE.ZA.
    ZaInactive,
    /// `brk`, with its number.
    Breakpoint(u16),
    /// The access touches the shared region at the address, and is none of those that may.
    Shared(u64),
}

/// Why a thread stopped.
#[derive(Clone, Copy, Debug, PartialEq, Eq)]
pub enum Stop {
    /// By the call exit, with the low byte of its status.
    Exited(u8),
    /// By an exception, at an instruction.
    Raised { exception: Exception, pc: u64 },
    /// By a signal that has no handler.
    Killed(u32),
    /// A delivery's frame may not be written, or a return's cannot be read: the address of the first such
    /// byte. Or a return is from no frame, outside a handler or from fields that are not a frame's: SP.
    BadFrame(u64),
    /// The options' budget of counted instructions is used up.
    Budget,
    /// The journal is full.
    TraceFull,
    /// A write would pass the limit of a thread's output.
    OutputFull,
}
