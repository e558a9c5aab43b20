//! The first line in which two texts differ.
ghost use Rattle.std.specs.Prelude.{◌≡◌, ◌≤◌, None, IfSome, length, option_map};
ghost use Rattle.line_reader.specs.Difference as spec;
ghost use Rattle.line_reader.specs.Lines.{lines_of};
ghost use Rattle.line_reader.specs.Told.{difference_said};

use crate::lines::split_line;

/// The first line in which two texts differ.
#[derive(Clone, Copy)]
pub struct Difference<'a> {
    /// How many lines of either text stand before it.
    pub line: usize,
    /// The line of the first text, with the line feed that ends it; empty where it has none there.
    pub first: &'a [u8],
    /// The line of the second text, likewise.
    pub second: &'a [u8],
}

/// The first line in which two texts differ; `None` only where they are the same.
pub fn first_difference<'a>(first: &'a [u8], second: &'a [u8]) -> Option<Difference<'a>>
    ensures line { option_map difference_said result
        ≡ spec.first_difference 0 (lines_of first.now) (lines_of second.now) }
    ensures same { result ≡ None → first.now ≡ second.now }
    ensures within { IfSome result (λ it. it.line ≤ length first.now) }
{
    let mut line = 0;
    let mut left = first;
    let mut right = second;
    loop {
        let (a, more) = split_line(left);
        let (b, others) = split_line(right);
        if a != b {
            return Some(Difference {
                line,
                first: a,
                second: b,
            });
        }
        if a.is_empty() {
            return None;
        }
        line += 1;
        left = more;
        right = others;
    }
}
