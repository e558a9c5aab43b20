//! A file with a value on each line that is not empty, read line by line.
ghost use Rattle.std.specs.Prelude.{◌≡◌, ℕ, List, Result};
ghost use Rattle.line_reader.specs.Lines.{words_in};
ghost use Rattle.line_reader.specs.File.{all_said, file_in, has_text, line_said, some_lines};
ghost use Rattle.line_reader.specs.Told.{AnswersAs, left_of, next_of};
ghost use Rattle.line_reader.specs.declared.text_fault.TextKind.{TextKind};

use crate::fields::line_text;
use crate::lines::Lines;
use crate::text_fault::{TextFault, TextKind};
use std::alloc::Global;

/// The most bytes that a file may have.
const LARGEST_FILE: usize = 67_108_864;

/// A format of the lines of a file, by which each says a value that is not empty.
pub trait LineFormat {
    /// What a line says.
    type Value: Copy;

    /// What the words of a line say, or what is wrong with the first of them that does not say it.
    ghost said_by: { List (List ℕ) → Result Self.Value TextKind };

    /// What the words of a text say.
    fn value_in(text: &[u8]) -> Result<Self::Value, TextKind>
        ensures { result ≡ said_by (words_in text.now) };
}

/// Tells whether a line is not empty.
pub fn has_text(line: &[u8]) -> bool
    ensures { result ≡ has_text line.now }
{
    0 < line_text(line).len()
}

/// What the next line says; it is at fault where it says nothing.
#[tactic(auto, unfolding(crate::specs::File::line_said, crate::specs::Reading::fault_at))]
fn read_line<F: LineFormat>(lines: &Lines) -> Result<F::Value, TextFault>
    ensures { AnswersAs (λ value. value) (line_said F.said_by (next_of (left_of lines.now))) result }
{
    match F::value_in(line_text(lines.line())) {
        Ok(value) => Ok(value),
        Err(kind) => {
            let fault = lines.fault(TextKind::NotText, kind);
            Err(TextFault::Line {
                line: fault.line,
                kind: fault.kind,
            })
        }
    }
}

/// What the lines say, of which those that are empty are passed over.
fn read_lines<F: LineFormat>(alloc: Global, lines: &mut Lines) -> Result<Vec<F::Value>, TextFault>
    ensures { AnswersAs (λ values. values.items)
        (all_said F.said_by (some_lines (left_of lines.old).line (left_of lines.old).lines)) result }
{
    let mut values = Vec::new(alloc);
    'lines: while !lines.line().is_empty() {
        if has_text(lines.line()) {
            let value = read_line::<F>(lines)?;
            values.push(value)?;
        }
        lines.pass();
    }
    Ok(values)
}

/// What the lines of a file say that are not empty, in order. `Line` is the first of them that says nothing,
/// counted from 1, with what is wrong with it; a file of more than 67,108,864 bytes is `TooLong` at line 0.
/// `Memory` is want of memory.
#[tactic(auto, unfolding(crate::specs::File::file_lines))]
pub fn read_file<F: LineFormat>(alloc: Global, bytes: &[u8]) -> Result<Vec<F::Value>, TextFault>
    ensures { AnswersAs (λ values. values.items) (file_in F.said_by bytes.now) result }
{
    if bytes.len() > LARGEST_FILE {
        return Err(TextFault::Line {
            line: 0,
            kind: TextKind::TooLong,
        });
    }
    let mut lines = Lines::of(bytes);
    read_lines::<F>(alloc, &mut lines)
}
