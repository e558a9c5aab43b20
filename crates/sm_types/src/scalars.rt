//! The scalar registers.

/// The scalar registers and the flags of PSTATE (DDI 0487, B1.2).
#[derive(Clone, Copy, Debug)]
pub struct Scalars {
    /// X0 to X30.
    pub x: [u64; 31],
    /// The stack pointer.
    pub sp: u64,
    /// The program counter.
    pub pc: u64,
    /// PSTATE.N, negative.
    pub n: bool,
    /// PSTATE.Z, zero.
    pub z: bool,
    /// PSTATE.C, carry.
    pub c: bool,
    /// PSTATE.V, overflow.
    pub v: bool,
}
