//! The lines of events, of shared words, and of numbers.
ghost use Rattle.std.specs.Prelude.{◌≡◌, ◌<◌, ◌≤◌, ◌^◌, IfSome, option_map};
ghost use Rattle.report_reader.specs.Events as spec;
ghost use Rattle.line_reader.specs.Fields.{field, Says};
ghost use Rattle.line_reader.specs.Told.{words_ahead};

use line_reader::{Fields, found_in, is_hex};
use sm_types::{Event, OpKind, SharedOp};

/// The number that a line with that name says.
#[tactic(auto, unfolding(crate::specs::Events::number_line, line_reader::specs::Fields::said_by))]
pub fn number_line(name: &[u8], line: &[u8]) -> Option<u32>
    ensures { result ≡ spec.number_line name.now line.now }
{
    let mut words = Fields::of(line);
    words.named(name)?;
    let number = words.number(0x1_0000_0000)? as u32;
    words.end(number)
}

/// Tells whether a line begins the block of that thread.
#[tactic(auto, unfolding(crate::specs::Events::is_thread))]
pub fn is_thread(thread: u32, line: &[u8]) -> bool
    ensures { result ≡ spec.is_thread thread line.now }
{
    match number_line(b"thread", line) {
        Some(number) => number == thread,
        None => false,
    }
}

/// A word is a string of so many bytes.
#[tactic(auto, unfolding(crate::specs::Events::bytes_of))]
fn bytes_of(size: u32, word: &[u8]) -> Option<()>
    ensures { result ≡ spec.bytes_of size word.now }
{
    if word.len() == 2 * (size as usize) && is_hex(word) {
        Some(())
    } else {
        None
    }
}

/// Reads the next word, which is a string of so many bytes.
fn read_bytes(size: u32, words: &mut Fields) -> Option<()>
    ensures { Says (field (spec.bytes_of size) (words_ahead words.old)) result (words_ahead words.new) }
{
    let word = words.next()?;
    bytes_of(size, word)
}

/// A line is so many bytes of output.
#[tactic(auto, unfolding(crate::specs::Events::out_line, line_reader::specs::Fields::said_by))]
pub fn out_line(size: u32, line: &[u8]) -> Option<()>
    ensures { result ≡ spec.out_line size line.now }
{
    let mut words = Fields::of(line);
    words.named(b"out")?;
    read_bytes(size, &mut words)?;
    words.end(())
}

/// The operations by their words.
const KINDS: [(&[u8], OpKind); 12] = [
    (b"ld", OpKind::Load),
    (b"st", OpKind::Store),
    (b"swp", OpKind::Swap),
    (b"add", OpKind::Add),
    (b"clr", OpKind::Clear),
    (b"eor", OpKind::Eor),
    (b"set", OpKind::Set),
    (b"umax", OpKind::Umax),
    (b"umin", OpKind::Umin),
    (b"cas", OpKind::Cas),
    (b"post", OpKind::Post),
    (b"poll", OpKind::Poll),
];

/// The operation of a word.
#[tactic(auto, unfolding(crate::specs::Events::kind_of, line_reader::specs::Tables::found))]
fn kind_of(word: &[u8]) -> Option<OpKind>
    ensures { result ≡ spec.kind_of word.now }
{
    found_in(&KINDS, word)
}

/// Reads the next word, which is that of an operation.
fn read_kind(words: &mut Fields) -> Option<OpKind>
    ensures { Says (field spec.kind_of (words_ahead words.old)) result (words_ahead words.new) }
{
    let word = words.next()?;
    kind_of(word)
}

/// The event that a line says.
#[tactic(auto, unfolding(crate::specs::Events::event_line, line_reader::specs::Fields::said_by))]
pub fn event_line(line: &[u8]) -> Option<Event>
    ensures { result ≡ spec.event_line line.now }
{
    let mut words = Fields::of(line);
    words.named(b"e")?;
    let kind = read_kind(&mut words)?;
    let place = words.number(0x1_0000_0000)? as u32;
    let a = words.hex(16)?;
    let b = words.hex(16)?;
    let answer = words.hex(16)?;
    let op = SharedOp { kind, place, a, b };
    words.end(Event { op, answer })
}

/// A word's number and its value.
#[derive(Clone, Copy)]
pub struct Setting {
    pub place: usize,
    pub value: u64,
}

/// The word and its value that a line with that name says, the word below the bound.
#[tactic(auto, unfolding(crate::specs::Events::setting_line, line_reader::specs::Fields::said_by))]
pub fn setting_line(name: &[u8], bound: usize, line: &[u8]) -> Option<Setting>
    ensures says { result ≡ spec.setting_line name.now bound line.now }
    ensures small { IfSome result (λ setting. setting.place < bound) }
{
    let mut words = Fields::of(line);
    words.named(name)?;
    let place = words.number(bound as u64)? as usize;
    let value = words.hex(16)?;
    words.end(Setting { place, value })
}
