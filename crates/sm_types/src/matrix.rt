//! The instructions of SME: one type for each group of the table.
//!
//! A register of a slice or of a vector of ZA is W12 to W15, by its number 12 to 15.
use crate::vector::Elem;

/// What of streaming mode is switched: PSTATE.SM, PSTATE.ZA, or both.
#[derive(Clone, Copy, PartialEq, Eq)]
pub enum ModePart {
    Sm,
    Za,
    Both,
}

/// `smstart sm`, `smstop sm`
#[derive(Clone, Copy, PartialEq, Eq)]
pub struct Mode {
    pub start: bool,
    pub part: ModePart,
}

/// The operations on whole vectors of ZA.
#[derive(Clone, Copy, PartialEq, Eq)]
pub enum ArrayAccess {
    /// `zero #m`; bit i zeroes tile i of doublewords.
    Zero {
        mask: u8,
    },
    /// `ldr za[wv, n], [xn{, #n, mul vl}]`, or `str`; n is 0 to 15, and base register 31 is SP.
    Transfer {
        store: bool,
        rv: u8,
        offset: u8,
        rn: u8,
    },
}

/// A slice of a tile, `za0h.t[wv, n]`: the tile is below the size of its elements in bytes, and the offset
/// below 16 divided by it.
#[derive(Clone, Copy, PartialEq, Eq)]
pub struct TileSlice {
    pub size: Elem,
    pub vertical: bool,
    pub rv: u8,
    pub tile: u8,
    pub offset: u8,
}

/// `ld1b {za0h.b[wv, n]}, pg/z, [xn, xm{, lsl #k}]`, or `st1b` with `pg`; base register 31 is SP.
#[derive(Clone, Copy, PartialEq, Eq)]
pub struct TileAccess {
    pub store: bool,
    pub slice: TileSlice,
    pub pg: u8,
    pub rm: u8,
    pub rn: u8,
}

/// `mova za0h.t[wv, n], pg/m, zn.t`, or `mova zd.t, pg/m, za0h.t[wv, n]`
#[derive(Clone, Copy, PartialEq, Eq)]
pub struct TileMove {
    pub to_tile: bool,
    pub slice: TileSlice,
    pub pg: u8,
    /// The vector.
    pub z: u8,
}

/// `addha za0.t, pn/m, pm/m, zn.t`, or `addva`
#[derive(Clone, Copy, PartialEq, Eq)]
pub struct TileAdd {
    /// To each element of the tile that of `zn` at its row, and not at its column.
    pub vertical: bool,
    /// Elements of 64 bits, else of 32.
    pub wide: bool,
    pub tile: u8,
    /// The predicate of the rows.
    pub pn: u8,
    /// The predicate of the columns.
    pub pm: u8,
    pub zn: u8,
}

/// The outer products: the signs of the two sources.
#[derive(Clone, Copy, PartialEq, Eq)]
pub enum OuterProductOp {
    Smopa,
    Sumopa,
    Usmopa,
    Umopa,
}

/// `smopa za0.s, pn/m, pm/m, zn.b, zm.b`, or `smops`, which subtracts
#[derive(Clone, Copy, PartialEq, Eq)]
pub struct OuterProduct {
    pub op: OuterProductOp,
    pub subtract: bool,
    /// Sources of 16 bits and sums of 64, else of 8 and 32.
    pub wide: bool,
    pub tile: u8,
    pub pn: u8,
    pub pm: u8,
    pub zn: u8,
    pub zm: u8,
}

/// The streaming vector length.
#[derive(Clone, Copy, PartialEq, Eq)]
pub enum StreamingLength {
    /// `rdsvl xd, #n`; 6 signed bits.
    Length {
        imm: i32,
        rd: u8,
    },
    /// `addsvl xd, xn, #n`, or `addspl` by lengths of a predicate; 6 signed bits, and register 31 is SP.
    AddLength {
        predicate: bool,
        imm: i32,
        rn: u8,
        rd: u8,
    },
}
