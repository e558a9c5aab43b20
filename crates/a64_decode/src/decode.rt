//! Decoding a word.
ghost use Rattle.std.specs.Prelude.{◌≡◌, ◌≢◌, ◌↔◌, IsTrue, ℕ, Some, bit_and, slice_get};
ghost use Rattle.sm_types.specs.declared.insn.Insn.{Insn};
ghost use Rattle.insn_forms.specs.declared.line.Line.{Line};
ghost use Rattle.insn_forms.specs.Tables.{Means};
ghost use Rattle.a64_table.specs.declared.operation.Operation.{Operation};
ghost use Rattle.a64_table.specs.declared.rows.TheConstants.{SCALAR_LINES};
ghost use Rattle.a64_table.specs.Ranges.{IsInRow};
ghost use Rattle.a64_table.specs.Table.{meaning_of, scalar};

use crate::tree::row_number;
use a64_table::{SCALAR_LINES, insn_given};
use insn_forms::{line_at, matches};
use sm_types::Insn;

/// The instruction that the rows of the table give the word; `None` exactly where there is none.
pub fn decode_scalar(word: u32) -> Option<Insn>
    ensures rows { (it : Insn) → (result ≡ Some it) ↔ Means scalar word it }
    ensures value { result ≡ meaning_of word }
    ensures fields { (it : Insn) → result ≡ Some it → IsInRow it }
{
    by_tree(word)
}

/// The instruction of the one row that the tree leads to, where the word has its fixed bits and meets its
/// condition.
#[inline(always)]
fn by_tree(word: u32) -> Option<Insn>
    ensures { (it : Insn) → (result ≡ Some it) ↔ Means scalar word it }
{
    if is_of_vectors(word) {
        return None;
    }
    let Some(number) = row_number(word) else {
        return None;
    };
    let Some(line) = line_at(&SCALAR_LINES, number) else {
        return None;
    };
    if matches(line.mask, line.value, word) {
        insn_given(line.operation, word)
    } else {
        None
    }
}

/// Whether the word is one of those that SVE and SME have to themselves, none of which matches a row here:
/// bits 28, 27 and 25 are 0, and it is not UDF (DDI 0487, C4.1).
#[inline(always)]
fn is_of_vectors(word: u32) -> bool
    ensures { IsTrue result → (i : ℕ) (line : Line Operation) → slice_get SCALAR_LINES i ≡ Some line
        → bit_and word line.mask ≢ line.value }
{
    matches(0x1A00_0000, 0, word) && !matches(0xFFFF_0000, 0, word)
}
