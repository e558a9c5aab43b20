//! The vector that a line says.
ghost use Rattle.std.specs.Prelude.{◌≡◌, ◌+◌, ◌<◌, ◌≤◌, ◌^◌, IfOk, map};
ghost use Rattle.line_reader.specs.Lines.{words_in};
ghost use Rattle.line_reader.specs.Told.{words_ahead};
ghost use Rattle.vector_runner.specs.Grammar.{line_said};
ghost use Rattle.vector_runner.specs.Told.{field_told, vector_told, SaysAs};
ghost use Rattle.vector_runner.specs.Words as spec;

use crate::vector::{Field, Modes, Vector};
use crate::words::{Unread, field_in};
use line_reader::{Fields, hex_number, line_text};
use sm_types::VecLen;
use std::alloc::Global;

/// The field that a word says, where it may stand.
#[tactic(auto, unfolding(crate::specs::Words::field_here))]
fn field_here(
    alloc: Global,
    vl: VecLen,
    svl: VecLen,
    modes: Modes,
    least: usize,
    word: &[u8],
) -> Result<Field, Unread>
    ensures { SaysAs field_told (spec.field_here vl svl modes least word.now) result }
{
    let field = field_in(alloc, word)?;
    if field.fits(vl, svl, modes) && least <= field.rank() {
        Ok(field)
    } else {
        Err(Unread::Outside)
    }
}

/// The fields that the words say that are left.
fn read_fields(
    alloc: Global,
    vl: VecLen,
    svl: VecLen,
    words: &mut Fields,
) -> Result<Vec<Field>, Unread>
    ensures { SaysAs (λ fields. map field_told fields.items)
        (spec.fields_in vl svl spec.no_modes 0 (words_ahead words.old)) result }
{
    let mut fields = Vec::new(alloc);
    let mut modes = Modes {
        streaming: false,
        za_on: false,
    };
    let mut least = 0;
    'words: while let Some(word) = words.next() {
        let field = field_here(alloc, vl, svl, modes, least, word)?;
        modes = field.modes_after(modes);
        least = field.rank() + 1;
        if fields.push(field).is_err() {
            return Err(Unread::Memory);
        }
    }
    Ok(fields)
}

/// The vector that the words of a line say.
#[tactic(auto, unfolding(crate::specs::Words::vector_in))]
fn read_words(alloc: Global, vl: VecLen, svl: VecLen, words: &mut Fields) -> Result<Vector, Unread>
    ensures { SaysAs vector_told (spec.vector_in vl svl (words_ahead words.old)) result }
{
    let Some(first) = words.next() else {
        return Err(Unread::Outside);
    };
    let Some(word) = hex_number(8, first) else {
        return Err(Unread::Outside);
    };
    let fields = read_fields(alloc, vl, svl, words)?;
    Ok(Vector {
        word: word as u32,
        fields,
    })
}

/// The vector that a line says.
#[tactic(auto, unfolding(crate::specs::Grammar::line_said))]
pub fn read_line(alloc: Global, vl: VecLen, svl: VecLen, line: &[u8]) -> Result<Vector, Unread>
    ensures { SaysAs vector_told (line_said vl svl line.now) result }
{
    let mut words = Fields::of_text(line_text(line));
    read_words(alloc, vl, svl, &mut words)
}
