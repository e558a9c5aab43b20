//! The lines of a text, read one after another.
ghost use Rattle.std.specs.Prelude.{◌≡◌, ◌≢◌, ◌+◌, ◌<◌, ◌^◌, ◌==◌, ◌||◌, length};
ghost use Rattle.std.specs.List.{position};
ghost use Rattle.line_reader.specs.Lines.{is_text, begins_with, lines_of, with_first};

use crate::fault::LineFault;
use crate::fields::is_word;

/// The lines of a text that are left.
#[derive(Drop)]
pub struct Lines<'a> {
    /// The next line, with the line feed that ends it; empty where none is left.
    line: &'a [u8],
    /// What follows the next line.
    rest: &'a [u8],
    /// How many lines stand before the next.
    number: u64,
    /// How many bytes stand before it.
    place: usize,
    ghost whole: { length line.now ≡ 0 → length rest.now ≡ 0 },
    ghost countable: { number + (length line.now + length rest.now) < 2 ^ 62 },
    ghost inside: { place + (length line.now + length rest.now) < 2 ^ 62 },
}

/// The place of the first line feed.
fn line_feed(text: &[u8]) -> Option<usize>
    ensures { result ≡ position (λ b. b == 10) text.now }
{
    text.iter().position(|b| *b == b'\n')
}

/// The first line of a text, with the line feed that ends it, and what follows it.
pub fn split_line(text: &[u8]) -> (&[u8], &[u8])
    ensures lines { lines_of text.now ≡ with_first result.0.now (lines_of result.1.now) }
    ensures lengths { length result.0.now + length result.1.now ≡ length text.now }
    ensures whole { length result.0.now ≡ 0 → length result.1.now ≡ 0 }
{
    match line_feed(text) {
        Some(at) => text.split_at(at + 1),
        None => (text, &[]),
    }
}

/// The place of the first space or line feed.
fn word_end(line: &[u8]) -> Option<usize>
    ensures { result ≡ position (λ b. (b == 32) || (b == 10)) line.now }
{
    line.iter().position(|b| *b == b' ' || *b == b'\n')
}

/// Tells whether the first word of a line is that one.
#[tactic(auto, unfolding(crate::specs::Lines::begins_with))]
pub fn begins_with(name: &[u8], line: &[u8]) -> bool
    ensures { result ≡ begins_with name.now line.now }
{
    match word_end(line) {
        Some(at) => is_word(&line[..at], name),
        None => is_word(line, name),
    }
}

/// Tells whether a line is UTF-8.
#[tactic(auto, unfolding(crate::specs::Lines::is_text))]
fn is_text(line: &[u8]) -> bool
    ensures { result ≡ is_text line.now }
{
    match str::from_utf8(line) {
        Ok(_) => true,
        Err(_) => false,
    }
}

impl<'a> Lines<'a> {
    ghost use Rattle.line_reader.specs.Reading.{taken, said_if, past_line, fault_at, next_line, nothing};
    ghost use Rattle.line_reader.specs.Told.{left_of, Reads};

    /// The lines of a text.
    pub fn of(text: &'a [u8]) -> Lines<'a>
        requires { length text.now < 2 ^ 62 }
        ensures { left_of result ≡ record { line = 0; place = 0; lines = lines_of text.now } }
    {
        let (line, rest) = split_line(text);
        Lines {
            line,
            rest,
            number: 0,
            place: 0,
        }
    }

    /// The next line, with the line feed that ends it; empty where none is left.
    pub fn line(&self) -> &'a [u8]
        ensures { result.now ≡ next_line (left_of self.now) }
    {
        self.line
    }

    /// How many lines stand before the next.
    pub fn number(&self) -> u64
        ensures { result ≡ (left_of self.now).line }
    {
        self.number
    }

    /// How many bytes stand before the next line.
    pub fn place(&self) -> usize
        ensures { result ≡ (left_of self.now).place }
    {
        self.place
    }

    /// Passes the next line, where one is left.
    #[tactic(auto, unfolding(crate::specs::Reading::past_line))]
    pub fn pass(&mut self)
        ensures past { left_of self.new ≡ past_line (left_of self.old) }
        ensures fewer { length self.old.line.now ≢ 0 → length self.new.line.now + length self.new.rest.now
            < length self.old.line.now + length self.old.rest.now }
    {
        let size = self.line.len();
        if size == 0 {
            return;
        }
        let (line, rest) = split_line(self.rest);
        self.line = line;
        self.rest = rest;
        self.number += 1;
        self.place += size;
    }

    /// The fault of the next line, which should be of that kind; a line that is not UTF-8 is no text.
    #[tactic(auto, unfolding(crate::specs::Reading::fault_at))]
    pub fn fault<K: Copy>(&self, no_text: K, kind: K) -> LineFault<K>
        ensures line { result.line ≡ (fault_at no_text kind (left_of self.now)).line }
        ensures kind { result.kind ≡ (fault_at no_text kind (left_of self.now)).kind }
    {
        let line = self.number + 1;
        if is_text(self.line()) {
            LineFault { line, kind }
        } else {
            LineFault {
                line,
                kind: no_text,
            }
        }
    }

    /// Passes the next line, which says something; it is at fault where it does not.
    pub fn take<K: Copy, T: Drop>(
        &mut self,
        no_text: K,
        kind: K,
        said: Option<T>,
    ) -> Result<T, LineFault<K>>
        ensures { Reads (taken no_text kind said (left_of self.old)) result (left_of self.new) }
    {
        match said {
            Some(value) => {
                self.pass();
                Ok(value)
            }
            None => Err(self.fault(no_text, kind)),
        }
    }

    /// Passes the next line, which is as it should be; it is at fault where it is not.
    pub fn expect<K: Copy>(&mut self, no_text: K, kind: K, holds: bool) -> Result<(), LineFault<K>>
        ensures { Reads (taken no_text kind (said_if holds) (left_of self.old)) result (left_of self.new) }
    {
        if holds {
            self.pass();
            Ok(())
        } else {
            Err(self.fault(no_text, kind))
        }
    }

    /// The lines end here; the next one is at fault where they do not.
    pub fn end<K: Copy>(&self, no_text: K, kind: K) -> Result<(), LineFault<K>>
        ensures { Reads (nothing no_text kind (left_of self.now)) result (left_of self.now) }
    {
        if self.line.is_empty() {
            Ok(())
        } else {
            Err(self.fault(no_text, kind))
        }
    }
}
