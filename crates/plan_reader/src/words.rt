//! The words of a line of a plan.
ghost use Rattle.std.specs.Prelude.{◌≡◌};
ghost use Rattle.line_reader.specs.Lines.{words_in};
ghost use Rattle.line_reader.specs.Phrases.{first_word};
ghost use Rattle.line_reader.specs.Told.{Speaks, words_ahead};
ghost use Rattle.plan_reader.specs.Words as spec;

use line_reader::{Fields, TextKind, end, found_in, read_number};
use sm_types::WorldEvent;

/// The events, before their numbers.
#[derive(Clone, Copy)]
pub enum Verb {
    Run,
    Next,
    Fetch,
    Offer,
}

/// Numbers are below 2^32.
const NUMBERS: u64 = 0x1_0000_0000;

/// The events by their words.
const VERBS: [(&[u8], Verb); 4] = [
    (b"run", Verb::Run),
    (b"next", Verb::Next),
    (b"fetch", Verb::Fetch),
    (b"offer", Verb::Offer),
];

/// The event of a word.
#[tactic(auto, unfolding(crate::specs::Words::verb_of, line_reader::specs::Tables::found))]
fn verb_of(word: &[u8]) -> Option<Verb>
    ensures { result ≡ spec.verb_of word.now }
{
    found_in(&VERBS, word)
}

/// Reads the next word, which is that of an event.
#[tactic(auto, unfolding(line_reader::specs::Phrases::first_word))]
fn read_verb(words: &mut Fields) -> Result<Verb, TextKind>
    ensures { Speaks (first_word spec.verb_of (words_ahead words.old)) result (words_ahead words.new) }
{
    let Some(word) = words.next() else {
        return Err(TextKind::Unknown);
    };
    match verb_of(word) {
        Some(verb) => Ok(verb),
        None => Err(TextKind::Unknown),
    }
}

/// Reads the rest of an event on that core.
#[tactic(auto, unfolding(crate::specs::Words::event_on))]
fn read_event(verb: Verb, core: u32, words: &mut Fields) -> Result<WorldEvent, TextKind>
    ensures { Speaks (spec.event_on verb core (words_ahead words.old)) result (words_ahead words.new) }
{
    match verb {
        Verb::Run => {
            let k = read_number(1, NUMBERS, words)?;
            Ok(WorldEvent::Run { core, k })
        }
        Verb::Next => Ok(WorldEvent::Next { core }),
        Verb::Fetch => Ok(WorldEvent::Fetch { core }),
        Verb::Offer => Ok(WorldEvent::Offer { core }),
    }
}

/// The event that the words of a text say, or what is wrong with the first of them that does not say it.
#[tactic(auto, unfolding(crate::specs::Words::event_in))]
pub fn event_in(text: &[u8]) -> Result<WorldEvent, TextKind>
    ensures { result ≡ spec.event_in (words_in text.now) }
{
    let mut words = Fields::of_text(text);
    let verb = read_verb(&mut words)?;
    let core = read_number(0, NUMBERS, &mut words)?;
    let event = read_event(verb, core, &mut words)?;
    end(event, &mut words)
}
