//! The words of a line, read one after another.
ghost use Rattle.std.specs.Prelude.{◌≡◌, ◌∷◌, [], ◌+◌, ◌-◌, ◌<◌, ◌==◌, ◌^◌, Some, None, option_map};
ghost use Rattle.std.specs.Prelude.{length, take, if◌then◌else◌, MatchOption, IfSome};
ghost use Rattle.std.specs.List.{position};
ghost use Rattle.std.specs.Str.{bytes_eq};
ghost use Rattle.line_reader.specs.Lines.{is_ended, line_text, words_in, words_of};
ghost use Rattle.line_reader.specs.Fields as spec;
ghost use Rattle.line_reader.specs.Fields.{Says};
ghost use Rattle.line_reader.specs.Told.{words_ahead};

use crate::numbers::{hex_number, number_below};

/// The words of a line that are left.
#[derive(Clone, Copy)]
pub struct Fields<'a> {
    /// What is left of the line, if any word is.
    left: Option<&'a [u8]>,
}

/// Tells whether a word is that one.
pub fn is_word(word: &[u8], name: &[u8]) -> bool
    ensures { result ≡ bytes_eq word.now name.now }
{
    word == name
}

/// The place of the first space.
fn space(text: &[u8]) -> Option<usize>
    ensures { result ≡ position (λ b. b == 32) text.now }
{
    text.iter().position(|b| *b == b' ')
}

/// The line without the line feed that ends it.
#[tactic(auto, unfolding(crate::specs::Lines::is_ended))]
fn ended_text(line: &[u8]) -> Option<&[u8]>
    ensures { option_map (λ text. text.now) result
        ≡ (if is_ended line.now then Some (take (length line.now - 1) line.now) else None) }
{
    if line.is_empty() {
        return None;
    }
    let end = line.len() - 1;
    if line[end] == b'\n' {
        Some(&line[..end])
    } else {
        None
    }
}

/// A line without the line feed that may end it.
#[tactic(auto, unfolding(crate::specs::Lines::line_text))]
pub fn line_text(line: &[u8]) -> &[u8]
    ensures { result.now ≡ line_text line.now }
{
    match ended_text(line) {
        Some(text) => text,
        None => line,
    }
}

impl<'a> Fields<'a> {
    /// The words of a text.
    pub fn of_text(text: &'a [u8]) -> Fields<'a>
        ensures { words_ahead result ≡ words_in text.now }
    {
        Fields { left: Some(text) }
    }

    /// The words of a line; what no line feed ends has none.
    #[tactic(auto, unfolding(crate::specs::Lines::words_of))]
    pub fn of(line: &'a [u8]) -> Fields<'a>
        ensures { words_ahead result ≡ words_of line.now }
    {
        Fields {
            left: ended_text(line),
        }
    }

    /// The next word.
    pub fn next(&mut self) -> Option<&'a [u8]>
        ensures { MatchOption result (words_ahead self.old ≡ [])
            (λ word. words_ahead self.old
            ≡ word.now ∷ words_ahead self.new) }
    {
        let text = self.left?;
        match space(text) {
            Some(at) => {
                self.left = Some(&text[at + 1..]);
                Some(&text[..at])
            }
            None => {
                self.left = None;
                Some(text)
            }
        }
    }

    /// Reads the next word, which is that one.
    #[tactic(auto, unfolding(crate::specs::Fields::named, crate::specs::Fields::is_name))]
    pub fn named(&mut self, name: &[u8]) -> Option<()>
        ensures { Says (spec.named name.now (words_ahead self.old)) result
            (words_ahead self.new) }
    {
        let word = self.next()?;
        if is_word(word, name) { Some(()) } else { None }
    }

    /// Reads the next word, which is a decimal number below the bound.
    #[tactic(auto, unfolding(crate::specs::Fields::number))]
    pub fn number(&mut self, bound: u64) -> Option<u64>
        ensures says { Says (spec.number bound (words_ahead self.old)) result
            (words_ahead self.new) }
        ensures small { IfSome result (λ n. n < bound) }
    {
        let word = self.next()?;
        number_below(bound, word)
    }

    /// Reads the next word, which is a number of so many hexadecimal digits.
    #[tactic(auto, unfolding(crate::specs::Fields::hex))]
    pub fn hex(&mut self, count: usize) -> Option<u64>
        ensures says { Says (spec.hex count (words_ahead self.old)) result (words_ahead self.new) }
        ensures small { IfSome result (λ n. n < 16 ^ count) }
    {
        let word = self.next()?;
        hex_number(count, word)
    }

    /// Ends with a value, where no word is left.
    pub fn end<T: Drop>(&self, value: T) -> Option<T>
        ensures { result ≡ option_map (λ said. said.0) (spec.ended value (words_ahead self.now)) }
    {
        match self.left {
            None => Some(value),
            Some(_) => None,
        }
    }
}
