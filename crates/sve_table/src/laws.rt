//! The laws of the table.
ghost use Rattle.std.specs.Prelude.{◌≡◌, ◌<◌, ◌^◌, ◌↔◌, Some, ℕ, map, slice_get};
ghost use Rattle.sm_types.specs.declared.insn.Insn.{Insn};
ghost use Rattle.insn_forms.specs.declared.line.Line.{Line};
ghost use Rattle.insn_forms.specs.Tables.{HasAtMostOneLine, HasWord, Means, fits_in};
ghost use Rattle.sve_table.specs.declared.operation.VectorOperation.{VectorOperation};
ghost use Rattle.sve_table.specs.declared.rows.TheConstants.{VECTOR_LINES};
ghost use Rattle.sve_table.specs.Rows.{vector_row_fits, vector_row_of};
ghost use Rattle.sve_table.specs.Table.{vector, vector_meaning_of};
ghost use Rattle.sve_table.specs.Ranges.{IsInVectorRow};

use crate::rows::VECTOR_ROWS;

/// The rows are those of the lines.
pub fn rows_of_lines()
    ensures { map vector_row_of VECTOR_LINES ≡ VECTOR_ROWS }
{}

/// The condition that `fits` tests for a row is that of the row's line.
pub fn fits_of_rows()
    ensures { (place : ℕ) (line : Line VectorOperation) (word : ℕ) → slice_get VECTOR_LINES place ≡ Some line
        → vector_row_fits (vector_row_of line) word ≡ fits_in vector line.operation word }
{}

/// At most one row of the table matches and fits a word.
pub fn one_row()
    ensures { (word : ℕ) → HasAtMostOneLine vector word }
{}

/// What a word means by the first row that stands for it is what it means by any.
pub fn one_meaning()
    ensures { (word : ℕ) (it : Insn) → word < 2 ^ 32
        → (vector_meaning_of word ≡ Some it) ↔ Means vector word it }
{}

/// The fields of each instruction that a word means are in their ranges.
pub fn in_range()
    ensures { (word : ℕ) (it : Insn) → Means vector word it → IsInVectorRow it }
{}

/// An instruction whose fields are in their ranges has a word.
pub fn has_word()
    ensures { (it : Insn) → IsInVectorRow it → HasWord vector it }
{}

/// An instruction has at most one word.
pub fn one_word()
    ensures { (word other : ℕ) (it : Insn) → Means vector word it → Means vector other it → word ≡ other }
{}
