//! The tree that leads a word to the one row that it may match.
ghost use Rattle.std.specs.Prelude.{◌≡◌, ℕ, Some, bit_and, slice_get};
ghost use Rattle.insn_forms.specs.declared.line.Line.{Line};
ghost use Rattle.a64_table.specs.declared.operation.Operation.{Operation};
ghost use Rattle.a64_table.specs.declared.rows.TheConstants.{SCALAR_LINES};

use insn_forms::{Fork, Node, line_number, nodes};

/// The number of the one row that may match the word.
#[inline(always)]
pub fn row_number(word: u32) -> Option<usize>
    ensures { (i : ℕ) (line : Line Operation) → slice_get SCALAR_LINES i ≡ Some line
        → bit_and word line.mask ≡ line.value → result ≡ Some i }
{
    line_number(ROOT, &NODES, STEPS, word)
}

// The rest is written by tools/make_tree.py.

/// As many steps as the longest way from the root has nodes.
const STEPS: u32 = 4;

/// By a word's top eight bits.
const ROOT: Fork = Fork {
    low: 24,
    mask: 255,
    first: 162,
};

/// A fork's lowest bit, the mask above it and its first node; a leaf's row, or 126 where no row matches.
static NODES: [Node; 418] = nodes! {
    100 101 99 101 8 9 4 16 20 24 27 33 47 51 51 67 52 68 (23 1 12) 52 65 66 51 52 126 126
    (22 1 14) (22 1 16) 69 70 51 52 126 126 71 72 87 90 88 91 89 92 10 11 5 17 80 81 126 82 102 110
    (15 1 50) 83 103 83 104 83 105 83 106 83 107 83 108 83 109 83 (10 3 46) (11 15 52) 48 55
    (22 1 70) 56 12 13 6 18 22 25 53 54 59 60 61 126 63 64 126 126 49 126 (10 1 80) (10 7 82) 14 15
    7 19 23 26 50 57 (22 1 100) 58 28 34 73 74 75 76 (15 1 34) (15 1 106) 77 126 126 (15 1 108) 78
    126 93 96 94 97 95 98 112 111 122 118 125 121 (21 1 126) (21 1 128) 123 119 124 120 (21 1 132)
    (21 1 134) 116 115 117 126 (6 1 130) (5 1 136) 114 (5 3 138) 44 45 46 126 59 60 61 62 63 64 126
    126 49 126 (10 1 80) (10 7 150) 113 126 126 126 126 126 126 126 (21 3 0) 126 (21 1 4) (21 1 6)
    126 126 126 126 35 0 (23 1 8) (23 1 10) 37 37 37 37 84 126 (10 15 18) (15 1 34) 126 126 126 126
    126 126 126 126 126 126 126 126 (22 1 36) (22 3 38) (21 1 42) (21 1 44) 126 126 126 126 35 1 21
    29 40 41 42 43 (21 1 68) 79 (11 1 72) 126 126 126 126 126 126 126 126 126 126 126 126 126
    (21 3 0) 126 (21 1 74) (21 1 76) 126 126 126 126 35 2 (23 1 78) 31 39 126 126 126 85 126
    (22 3 90) 126 126 126 126 126 126 126 126 126 126 126 126 126 126 126 (21 1 94) (21 1 96) 126
    126 126 126 35 3 (23 1 98) 126 126 126 126 126 (21 1 68) 79 (11 1 102) 126 126 126 126 126 126
    126 126 126 126 126 126 126 (21 3 0) 126 (21 1 4) (21 1 6) 126 126 126 126 36 0 (23 1 8)
    (23 1 104) 38 38 38 38 86 126 (10 15 18) (21 7 110) 126 126 126 126 126 126 126 126 126 126 126
    126 (22 1 118) (22 3 120) (21 1 42) (21 1 44) 126 126 126 126 36 1 21 30 40 41 42 43 (21 1 68)
    79 (11 1 72) 126 126 126 126 126 126 126 126 126 126 126 126 126 (21 3 0) 126 (21 1 74)
    (21 1 76) 126 126 126 126 36 2 (23 1 78) 32 (0 1 124) (12 3 142) (21 3 146) 126 126 126
    (22 3 158) 126 126 126 126 126 126 126 126 126 126 126 126 126 126 126 (21 1 94) (21 1 96) 126
    126 126 126 36 3 (23 1 98) 126 126 126 126 126 (21 1 68) 79 (11 1 102) 126 126 126 126 126
};
