//! The vectors of a file.
ghost use Rattle.std.specs.Prelude.{◌≡◌, ◌≢◌, ◌<◌, ◌≤◌, [], true, false, All, IfOk, length, map};
ghost use Rattle.line_reader.specs.Reading.{next_line};
ghost use Rattle.line_reader.specs.Told.{left_of};
ghost use Rattle.vector_runner.specs.Grammar.{IsVector, line_said, lines_said, most_lines, vectors_in};
ghost use Rattle.vector_runner.specs.Told.{vector_told, or_line, AnswersAs};

use crate::line::read_line;
use crate::vector::Vector;
use crate::words::Unread;
use line_reader::Lines;
use sm_types::VecLen;
use std::alloc::Global;

/// The most bytes that a file may have.
const MOST_BYTES: usize = 67_108_864;

/// The most lines that a file may have.
const MOST_LINES: u32 = 2_048;

/// Why a file is refused.
#[derive(Clone, Copy, Debug, PartialEq, Eq)]
pub enum VectorFault {
    /// It has more than 67,108,864 bytes.
    TooLong,
    /// Its first line, counted from 1, that is not in the grammar, or 2,049 where there are more than 2,048.
    Line(u32),
    /// Want of memory.
    Memory,
}

/// Tells whether no line is left.
fn at_end(lines: &Lines) -> bool
    ensures none { result ≡ true → (left_of lines.now).lines ≡ [] }
    ensures some { result ≡ false → length (next_line (left_of lines.now)) ≢ 0 }
{
    lines.line().is_empty()
}

/// The vector of a line behind so many others.
fn next_vector(
    alloc: Global,
    vl: VecLen,
    svl: VecLen,
    line: &[u8],
    before: u32,
) -> Result<Vector, VectorFault>
    requires { before < 2048 }
    ensures { AnswersAs vector_told (or_line before (line_said vl svl line.now)) result }
{
    match read_line(alloc, vl, svl, line) {
        Ok(vector) => Ok(vector),
        Err(Unread::Outside) => Err(VectorFault::Line(before + 1)),
        Err(Unread::Memory) => Err(VectorFault::Memory),
    }
}

/// The vectors that the lines say.
fn read_lines(
    alloc: Global,
    vl: VecLen,
    svl: VecLen,
    lines: &mut Lines,
) -> Result<Vec<Vector>, VectorFault>
    requires { (left_of lines.old).line ≡ 0 }
    ensures { AnswersAs (λ vectors. map vector_told vectors.items)
        (lines_said vl svl 0 (left_of lines.old).lines) result }
{
    let mut vectors = Vec::new(alloc);
    for number in 0..MOST_LINES {
        if at_end(lines) {
            return Ok(vectors);
        }
        let vector = next_vector(alloc, vl, svl, lines.line(), number)?;
        if vectors.push(vector).is_err() {
            return Err(VectorFault::Memory);
        }
        lines.pass();
    }
    if at_end(lines) {
        Ok(vectors)
    } else {
        Err(VectorFault::Line(MOST_LINES + 1))
    }
}

/// The vectors of a file with one on each line, for these lengths, in order. `Line` is the first line,
/// counted from 1, that is not in the grammar of docs/VECTORS.md, or 2,049 where the first 2,048 are in it
/// and there are more; a file of more than 67,108,864 bytes is `TooLong`. The last line may lack its line
/// feed, an empty one is not in the grammar, and an empty file has no vectors. `Memory` is want of memory.
#[tactic(auto, unfolding(crate::specs::Grammar::vectors_in))]
pub fn read_vectors(
    alloc: Global,
    bytes: &[u8],
    vl: VecLen,
    svl: VecLen,
) -> Result<Vec<Vector>, VectorFault>
    ensures said { AnswersAs (λ vectors. map vector_told vectors.items) (vectors_in vl svl bytes.now)
        result }
    ensures fit { IfOk result (λ vectors. All (IsVector vl svl) (map vector_told vectors.items)) }
    ensures few { IfOk result (λ vectors. length vectors.items ≤ most_lines) }
{
    if bytes.len() > MOST_BYTES {
        return Err(VectorFault::TooLong);
    }
    let mut lines = Lines::of(bytes);
    read_lines(alloc, vl, svl, &mut lines)
}
