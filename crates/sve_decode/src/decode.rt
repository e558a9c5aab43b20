//! Decoding a word.
ghost use Rattle.std.specs.Prelude.{◌≡◌, ◌↔◌, Some};
ghost use Rattle.sm_types.specs.declared.insn.Insn.{Insn};
ghost use Rattle.insn_forms.specs.Tables.{Means};
ghost use Rattle.sve_table.specs.Ranges.{IsInVectorRow};
ghost use Rattle.sve_table.specs.Table.{vector, vector_meaning_of};

use crate::tree::row_number;
use insn_forms::{line_at, matches};
use sm_types::Insn;
use sve_table::{VECTOR_LINES, insn_given};

/// The instruction that the rows of the table give the word; `None` exactly where there is none.
pub fn decode_vector(word: u32) -> Option<Insn>
    ensures rows { (it : Insn) → (result ≡ Some it) ↔ Means vector word it }
    ensures value { result ≡ vector_meaning_of word }
    ensures fields { (it : Insn) → result ≡ Some it → IsInVectorRow it }
{
    by_tree(word)
}

/// The instruction of the one row that the tree leads to, where the word has its fixed bits and meets its
/// condition.
#[inline(always)]
fn by_tree(word: u32) -> Option<Insn>
    ensures { (it : Insn) → (result ≡ Some it) ↔ Means vector word it }
{
    let Some(number) = row_number(word) else {
        return None;
    };
    let Some(line) = line_at(&VECTOR_LINES, number) else {
        return None;
    };
    if matches(line.mask, line.value, word) {
        insn_given(line.operation, word)
    } else {
        None
    }
}
