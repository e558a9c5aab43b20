//! The rows of the tables of instructions.

/// The groups of instructions, by what they have in common in the manual (DDI 0487, C4.1 and C8.2; SME's in
/// the supplement to it).
#[derive(Clone, Copy)]
pub enum Group {
    /// Add and subtract, immediate.
    G1,
    /// Add and subtract, shifted register.
    G2,
    /// Logical, shifted register.
    G3,
    /// Add and subtract, extended register.
    G4,
    /// Logical, immediate.
    G5,
    /// Move wide.
    G6,
    /// Bit field moves.
    G7,
    /// Extract from two registers.
    G8,
    /// Addresses relative to the program counter.
    G9,
    /// Branches to a distance.
    G10,
    /// Branches to a register.
    G11,
    /// Add and subtract with carry.
    G12,
    /// Conditional select.
    G13,
    /// Conditional compare.
    G14,
    /// Operations on one register.
    G15,
    /// Operations on two registers.
    G16,
    /// Multiplications.
    G17,
    /// Load and store of one register.
    G18,
    /// Loads relative to the program counter.
    G19,
    /// Load and store of two registers.
    G20,
    /// Ordered and atomic accesses.
    G21,
    /// Exceptions, hints and barriers.
    G22,
    /// Moves of system registers.
    G23,
    /// Adds and subtractions of vectors, some of them saturating.
    G24,
    /// Logical operations on vectors.
    G25,
    /// Operations on two vectors under a predicate.
    G26,
    /// Multiplications with addition under a predicate.
    G27,
    /// Operations on one vector under a predicate.
    G28,
    /// Shifts by an immediate.
    G29,
    /// Copies, indices, immediates and selections.
    G30,
    /// Permutations.
    G31,
    /// Last elements and reductions.
    G32,
    /// Comparisons.
    G33,
    /// Patterns and logical operations on predicates.
    G34,
    /// Loops over predicates, counts and the first-fault register.
    G35,
    /// Counts of elements and addresses by vector lengths.
    G36,
    /// Contiguous loads and stores.
    G37,
    /// Multiplications, and operations of SVE2.
    G38,
    /// Changes of streaming mode and ZA.
    G39,
    /// Vectors of ZA.
    G40,
    /// Loads and stores of slices of tiles.
    G41,
    /// Moves between tiles and vectors.
    G42,
    /// Additions to tiles.
    G43,
    /// Outer products.
    G44,
    /// Streaming vector lengths.
    G45,
}

/// A row: which bits of a word are fixed, their values, and the group.
#[derive(Clone, Copy)]
pub struct Row {
    pub mask: u32,
    pub value: u32,
    pub group: Group,
}
