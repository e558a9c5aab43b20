//! The words of a line of a script.
ghost use Rattle.std.specs.Prelude.{◌≡◌};
ghost use Rattle.line_reader.specs.Lines.{words_in};
ghost use Rattle.line_reader.specs.Phrases.{field, first_word};
ghost use Rattle.line_reader.specs.Told.{Speaks, words_ahead};
ghost use Rattle.line_reader.specs.declared.text_fault.TextKind.TheVariants as kind;
ghost use Rattle.script_reader.specs.Words as spec;

use crate::address::address_of;
use crate::command::{DebugCommand, Direction};
use line_reader::{Fields, TextKind, end, found_in, read_number};
use sm_types::Elem;

/// The commands, before their operands.
#[derive(Clone, Copy)]
pub enum Verb {
    Step,
    Back,
    Goto,
    Break,
    Slice,
    Memory,
    Registers,
    Za,
    Where,
}

/// Numbers are below 2^32.
const NUMBERS: u64 = 0x1_0000_0000;

/// The most bytes that are shown.
const MOST_BYTES: u64 = 4096;

/// The commands by their words.
const VERBS: [(&[u8], Verb); 9] = [
    (b"step", Verb::Step),
    (b"back", Verb::Back),
    (b"goto", Verb::Goto),
    (b"break", Verb::Break),
    (b"slice", Verb::Slice),
    (b"mem", Verb::Memory),
    (b"regs", Verb::Registers),
    (b"za", Verb::Za),
    (b"where", Verb::Where),
];

/// The sizes of elements by their letters.
const SIZES: [(&[u8], Elem); 5] = [
    (b"b", Elem::B),
    (b"h", Elem::H),
    (b"s", Elem::S),
    (b"d", Elem::D),
    (b"q", Elem::Q),
];

/// The slices by their letters.
const DIRECTIONS: [(&[u8], Direction); 2] = [
    (b"h", Direction::Horizontal),
    (b"v", Direction::Vertical),
];

/// The command of a word.
#[tactic(auto, unfolding(crate::specs::Words::verb_of, line_reader::specs::Tables::found))]
fn verb_of(word: &[u8]) -> Option<Verb>
    ensures { result ≡ spec.verb_of word.now }
{
    found_in(&VERBS, word)
}

/// The size of elements of a letter.
#[tactic(auto, unfolding(crate::specs::Words::size_of, line_reader::specs::Tables::found))]
fn size_of(word: &[u8]) -> Option<Elem>
    ensures { result ≡ spec.size_of word.now }
{
    found_in(&SIZES, word)
}

/// The slices of a letter.
#[tactic(auto, unfolding(crate::specs::Words::direction_of, line_reader::specs::Tables::found))]
fn direction_of(word: &[u8]) -> Option<Direction>
    ensures { result ≡ spec.direction_of word.now }
{
    found_in(&DIRECTIONS, word)
}

/// Reads the next word, which is that of a command.
#[tactic(auto, unfolding(line_reader::specs::Phrases::first_word))]
fn read_verb(words: &mut Fields) -> Result<Verb, TextKind>
    ensures { Speaks (first_word spec.verb_of (words_ahead words.old)) result (words_ahead words.new) }
{
    let Some(word) = words.next() else {
        return Err(TextKind::Unknown);
    };
    match verb_of(word) {
        Some(verb) => Ok(verb),
        None => Err(TextKind::Unknown),
    }
}

/// Reads the next word, which is the letter of a size.
#[tactic(auto, unfolding(line_reader::specs::Phrases::field))]
fn read_size(words: &mut Fields) -> Result<Elem, TextKind>
    ensures { Speaks (field kind.Unknown spec.size_of (words_ahead words.old)) result
        (words_ahead words.new) }
{
    let Some(word) = words.next() else {
        return Err(TextKind::Missing);
    };
    match size_of(word) {
        Some(size) => Ok(size),
        None => Err(TextKind::Unknown),
    }
}

/// Reads the next word, which is the letter of slices.
#[tactic(auto, unfolding(line_reader::specs::Phrases::field))]
fn read_direction(words: &mut Fields) -> Result<Direction, TextKind>
    ensures { Speaks (field kind.Unknown spec.direction_of (words_ahead words.old)) result
        (words_ahead words.new) }
{
    let Some(word) = words.next() else {
        return Err(TextKind::Missing);
    };
    match direction_of(word) {
        Some(direction) => Ok(direction),
        None => Err(TextKind::Unknown),
    }
}

/// Reads the next word, which is an address.
#[tactic(auto, unfolding(line_reader::specs::Phrases::field))]
fn read_address(words: &mut Fields) -> Result<u64, TextKind>
    ensures { Speaks (field kind.BadNumber spec.address_of (words_ahead words.old)) result
        (words_ahead words.new) }
{
    let Some(word) = words.next() else {
        return Err(TextKind::Missing);
    };
    match address_of(word) {
        Some(address) => Ok(address),
        None => Err(TextKind::BadNumber),
    }
}

/// Reads the slice of a tile.
#[tactic(auto, unfolding(crate::specs::Words::slice_said))]
fn read_slice(words: &mut Fields) -> Result<DebugCommand, TextKind>
    ensures { Speaks (spec.slice_said (words_ahead words.old)) result (words_ahead words.new) }
{
    let elem = read_size(words)?;
    let tile = read_number(0, NUMBERS, words)?;
    let direction = read_direction(words)?;
    let slice = read_number(0, NUMBERS, words)?;
    Ok(DebugCommand::Slice {
        elem,
        tile,
        direction,
        slice,
    })
}

/// Reads an address and a number of bytes.
#[tactic(auto, unfolding(crate::specs::Words::memory_said))]
fn read_memory(words: &mut Fields) -> Result<DebugCommand, TextKind>
    ensures { Speaks (spec.memory_said (words_ahead words.old)) result (words_ahead words.new) }
{
    let address = read_address(words)?;
    let length = read_number(0, MOST_BYTES + 1, words)?;
    Ok(DebugCommand::Memory { address, length })
}

/// Reads the operands of a command.
#[tactic(auto, unfolding(crate::specs::Words::command_of))]
fn read_command(verb: Verb, words: &mut Fields) -> Result<DebugCommand, TextKind>
    ensures { Speaks (spec.command_of verb (words_ahead words.old)) result (words_ahead words.new) }
{
    match verb {
        Verb::Step => Ok(DebugCommand::Step {
            count: read_number(0, NUMBERS, words)?,
        }),
        Verb::Back => Ok(DebugCommand::Back {
            count: read_number(0, NUMBERS, words)?,
        }),
        Verb::Goto => Ok(DebugCommand::Goto {
            count: read_number(0, NUMBERS, words)?,
        }),
        Verb::Break => Ok(DebugCommand::Break {
            address: read_address(words)?,
        }),
        Verb::Slice => read_slice(words),
        Verb::Memory => read_memory(words),
        Verb::Registers => Ok(DebugCommand::Registers),
        Verb::Za => Ok(DebugCommand::Za),
        Verb::Where => Ok(DebugCommand::Where),
    }
}

/// The command that the words of a text say, or what is wrong with the first of them that does not say it.
#[tactic(auto, unfolding(crate::specs::Words::command_in))]
pub fn command_in(text: &[u8]) -> Result<DebugCommand, TextKind>
    ensures { result ≡ spec.command_in (words_in text.now) }
{
    let mut words = Fields::of_text(text);
    let verb = read_verb(&mut words)?;
    let command = read_command(verb, &mut words)?;
    end(command, &mut words)
}
