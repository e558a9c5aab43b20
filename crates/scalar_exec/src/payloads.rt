//! The fields of flat instructions.
use sm_types::{Condition, Extend, ShiftKind};

/// A register and an immediate of 12 bits.
#[derive(Clone, Copy)]
pub struct Immediate {
    pub imm: u16,
    pub rn: u8,
    pub rd: u8,
}

/// Two registers that are read, and one that is written.
#[derive(Clone, Copy)]
pub struct Registers {
    pub rm: u8,
    pub rn: u8,
    pub rd: u8,
}

/// The same, with the first shifted left.
#[derive(Clone, Copy)]
pub struct LeftShifted {
    pub amount: u8,
    pub rm: u8,
    pub rn: u8,
    pub rd: u8,
}

/// The same, with the first shifted.
#[derive(Clone, Copy)]
pub struct Shifted {
    pub shift: ShiftKind,
    pub amount: u8,
    pub rm: u8,
    pub rn: u8,
    pub rd: u8,
}

/// The same, with the first extended, and then shifted left.
#[derive(Clone, Copy)]
pub struct Extended {
    pub extend: Extend,
    pub amount: u8,
    pub rm: u8,
    pub rn: u8,
    pub rd: u8,
}

/// Bits of a register, or of a mask.
#[derive(Clone, Copy)]
pub struct BitFields {
    pub immr: u8,
    pub imms: u8,
    pub rn: u8,
    pub rd: u8,
}

/// An immediate of 16 bits, for a halfword of a register.
#[derive(Clone, Copy)]
pub struct Halfword {
    pub hw: u8,
    pub rd: u8,
    pub imm: u16,
}

/// Two registers, of which a condition selects one.
#[derive(Clone, Copy)]
pub struct Selection {
    pub condition: Condition,
    pub rm: u8,
    pub rn: u8,
    pub rd: u8,
}

/// Two factors, and what is added to their product or it is subtracted from.
#[derive(Clone, Copy)]
pub struct Factors {
    pub rm: u8,
    pub ra: u8,
    pub rn: u8,
    pub rd: u8,
}

/// A register in memory, at an offset from the base in units of its size.
#[derive(Clone, Copy)]
pub struct OffsetAccess {
    pub imm: u16,
    pub rn: u8,
    pub rt: u8,
}

/// The base of an address, and the register that is loaded or stored.
#[derive(Clone, Copy)]
pub struct Base {
    pub rn: u8,
    pub rt: u8,
}
