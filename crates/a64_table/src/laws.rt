//! The laws of the table.
ghost use Rattle.std.specs.Prelude.{◌≡◌, ◌<◌, ◌^◌, ◌↔◌, Some, ℕ, map, slice_get};
ghost use Rattle.insn_forms.specs.declared.line.Line.{Line};
ghost use Rattle.sm_types.specs.declared.insn.Insn.{Insn};
ghost use Rattle.insn_forms.specs.Tables.{HasAtMostOneLine, HasWord, Means, fits_in};
ghost use Rattle.a64_table.specs.declared.operation.Operation.{Operation};
ghost use Rattle.a64_table.specs.declared.rows.TheConstants.{SCALAR_LINES};
ghost use Rattle.a64_table.specs.Ranges.{IsInRow};
ghost use Rattle.a64_table.specs.Rows.{row_fits, row_of};
ghost use Rattle.a64_table.specs.Table.{meaning_of, scalar};

use crate::rows::SCALAR_ROWS;

/// The rows are those of the lines.
pub fn rows_of_lines()
    ensures { map row_of SCALAR_LINES ≡ SCALAR_ROWS }
{}

/// The condition that `fits` tests for a row is that of the row's line.
pub fn fits_of_rows()
    ensures { (place : ℕ) (line : Line Operation) (word : ℕ) → slice_get SCALAR_LINES place ≡ Some line
        → row_fits (row_of line) word ≡ fits_in scalar line.operation word }
{}

/// At most one row of the table matches and fits a word.
pub fn one_row()
    ensures { (word : ℕ) → HasAtMostOneLine scalar word }
{}

/// What a word means by the first row that stands for it is what it means by any.
pub fn one_meaning()
    ensures { (word : ℕ) (it : Insn) → word < 2 ^ 32 → (meaning_of word ≡ Some it) ↔ Means scalar word it }
{}

/// The fields of each instruction that a word means are in their ranges.
pub fn in_range()
    ensures { (word : ℕ) (it : Insn) → Means scalar word it → IsInRow it }
{}

/// An instruction whose fields are in their ranges has a word.
pub fn has_word()
    ensures { (it : Insn) → IsInRow it → HasWord scalar it }
{}

/// An instruction has at most one word.
pub fn one_word()
    ensures { (word other : ℕ) (it : Insn) → Means scalar word it → Means scalar other it → word ≡ other }
{}
