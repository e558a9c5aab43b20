//! The location counter: where the next byte goes.
ghost use Rattle.std.specs.Prelude.{◌≡◌, ◌≤◌, ◌<◌, ◌+◌, ◌^◌, true, false, MatchOption};
ghost use Rattle.asm_parser.specs.Statements.{says_of};
ghost use Rattle.asm_core.specs.Layout as layout;
ghost use Rattle.asm_core.specs.Faults.{is_too_large};
ghost use Rattle.asm_core.specs.Limits.{IsInLimits, HasSmallAlign};

use asm_parser::Statement;
use sm_types::Section;

/// How many bytes a part may have.
pub const PART_LIMIT: u128 = 4_194_304;

/// The location counter: the part that is written to, and how many bytes each part has so far.
#[derive(Clone, Copy)]
pub struct LocationCounter {
    pub part: Section,
    pub text_size: u64,
    pub data_size: u64,
}

/// Where a source begins: in the text.
pub fn first_counter() -> LocationCounter
    ensures { result ≡ layout.first_counter }
{
    LocationCounter {
        part: Section::Text,
        text_size: 0,
        data_size: 0,
    }
}

/// How many bytes the part has that is written to.
pub fn here(counter: &LocationCounter) -> u64
    ensures { result ≡ layout.here counter.now }
{
    match counter.part {
        Section::Text => counter.text_size,
        Section::Data => counter.data_size,
    }
}

/// How many zeros there are up to the next multiple of a power of 2.
#[tactic(auto, unfolding(crate::specs::Layout::padding))]
fn padding(power: u8, offset: u64) -> u64
    requires { power ≤ 12 }
    ensures value { result ≡ layout.padding (2 ^ power) offset }
    ensures small { result < 2 ^ 64 }
{
    let unit = 1u64 << power as u32;
    (unit - offset % unit) % unit
}

/// How many bytes a statement puts after so many.
#[tactic(auto, unfolding(crate::specs::Layout::size_of, crate::specs::Code::code_words))]
pub fn size_of(statement: &Statement<'_>, offset: u64) -> u128
    requires { HasSmallAlign (says_of statement.now) }
    ensures value { result ≡ layout.size_of (says_of statement.now) offset }
    ensures small { result < 2 ^ 70 }
{
    match statement {
        Statement::Empty | Statement::Text | Statement::Data | Statement::Global(_) => 0,
        Statement::Quad(values) => 8 * values.len() as u128,
        Statement::Word(numbers) => 4 * numbers.len() as u128,
        Statement::Byte(numbers) => numbers.len() as u128,
        Statement::Zero(count) => *count as u128,
        Statement::Align(power) => padding(*power, offset) as u128,
        Statement::Instruction { .. } => 4,
        Statement::SupportRoutines { .. } => 224,
        Statement::CallTail { .. } => 24,
    }
}

/// The part that a statement leaves to be written to.
pub fn part_after(statement: &Statement<'_>, part: Section) -> Section
    ensures { result ≡ layout.part_after (says_of statement.now) part }
{
    match statement {
        Statement::Text => Section::Text,
        Statement::Data => Section::Data,
        _ => part,
    }
}

/// The location counter with so many bytes more in its part, if that may have them.
fn grown(counter: &LocationCounter, size: u128) -> Option<LocationCounter>
    requires limits { IsInLimits counter.now }
    requires small { size < 2 ^ 70 }
    ensures { MatchOption result (4194304 < layout.here counter.now + size)
        (λ after. (layout.here counter.now + size ≤ 4194304)
        × (after ≡ layout.grown_in counter.now.part counter.now size)) }
{
    let total = here(counter) as u128 + size;
    if total > PART_LIMIT {
        return None;
    }
    match counter.part {
        Section::Text => Some(LocationCounter {
            part: counter.part,
            text_size: total as u64,
            data_size: counter.data_size,
        }),
        Section::Data => Some(LocationCounter {
            part: counter.part,
            text_size: counter.text_size,
            data_size: total as u64,
        }),
    }
}

/// The location counter after a statement, or `None` exactly where its part has too many bytes with it.
pub fn counter_after(
    counter: &LocationCounter,
    statement: &Statement<'_>,
) -> Option<LocationCounter>
    requires limits { IsInLimits counter.now }
    requires align { HasSmallAlign (says_of statement.now) }
    ensures { MatchOption result (is_too_large counter.now (says_of statement.now) ≡ true)
        (λ after. (is_too_large counter.now (says_of statement.now) ≡ false)
        × (after ≡ layout.counter_after counter.now (says_of statement.now)) × IsInLimits after) }
{
    let after = grown(counter, size_of(statement, here(counter)))?;
    Some(LocationCounter {
        part: part_after(statement, counter.part),
        ..after
    })
}
