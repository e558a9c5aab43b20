//! The word of an instruction.
ghost use Rattle.std.specs.Prelude.{◌≡◌, ◌↔◌, ℕ, IsTrue, Some, option_map};
ghost use Rattle.insn_forms.specs.Tables.{Means};
ghost use Rattle.a64_encode.specs.Either.{MeansEither};
ghost use Rattle.a64_encode.specs.Lines.{IsLineOf};

use crate::table::TableOperation;
use a64_table::Operation;
use insn_forms::{Line, fields_of, word_in};
use sm_types::Insn;
use sve_table::{VectorOperation, is_vector};

/// The word to which a row of either table gives the instruction; `None` exactly where there is none, that
/// is where a field is outside the ranges of the instruction's rows.
pub fn encode(insn: &Insn) -> Option<u32>
    ensures { (word : ℕ) → (result ≡ Some word) ↔ MeansEither word insn.now }
{
    if is_vector(insn) {
        word_by::<VectorOperation>(insn)
    } else {
        word_by::<Operation>(insn)
    }
}

/// The same by the rows of one table.
fn word_by<O: TableOperation>(insn: &Insn) -> Option<u32>
    ensures { (word : ℕ) → (result ≡ Some word) ↔ Means O.table word insn.now }
{
    let Some(parts) = O::parts_of(insn) else {
        return None;
    };
    let Some(line) = line_of(O::lines(), parts.operation.number_of()) else {
        return None;
    };
    let Some(word) = word_in(line.value, &fields_of(&line.fields), &parts.numbers) else {
        return None;
    };
    if line.operation.fits(word) {
        Some(word)
    } else {
        None
    }
}

/// Whether the operation of the line has the number.
fn has_number<O: TableOperation>(line: &Line<O>, number: u32) -> bool
    ensures { IsTrue result ↔ (O.number line.now.operation ≡ number) }
{
    line.operation.number_of() == number
}

/// The line whose operation has the number.
fn line_of<O: TableOperation>(lines: &[Line<O>], number: u32) -> Option<&Line<O>>
    ensures { IsLineOf O.number lines.now number (option_map (λ line. line.now) result) }
{
    for line in lines {
        if has_number(line, number) {
            return Some(line);
        }
    }
    None
}
