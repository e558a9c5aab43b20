//! The second pass, one line after the other.
ghost use Rattle.std.specs.Prelude.{◌≡◌, ◌≢◌, ◌≤◌, ◌+◌, List, [], Some, None, Ok, map, length, OnOk, IfErr};
ghost use Rattle.asm_parser.specs.Lines.{line_of};
ghost use Rattle.asm_parser.specs.Statements.{SourceLine, line_said, says_of};
ghost use Rattle.asm_core.specs.Layout as layout;
ghost use Rattle.asm_core.specs.Faults.{target_fault};
ghost use Rattle.asm_core.specs.Assembly as assembly;
ghost use Rattle.asm_core.specs.Parts.{bytes_in};
ghost use Rattle.asm_core.specs.Limits.{IsInLimits, HasSmallAlign};
ghost use Rattle.asm_core.specs.Kept.{IsKept};
ghost use Rattle.asm_core.specs.Emitted.{Adds, AreNear, HasWord, HaveGrown, IsFine, other, names_by};

use crate::emit_bytes::put_statement;
use crate::fault::AsmFault;
use crate::kept_words::{KeptWord, line_again};
use crate::location_counter::{LocationCounter, counter_after, first_counter};
use crate::object_parts::Parts;
use crate::symbols::{put_symbols, text_is};
use crate::target_addresses::Addresses;
use asm_parser::{Line, Statement};
use sm_types::{Content, Section};
use std::alloc::Global;

/// What some lines have put: the parts, the location counter of the next line, and what the text is so far:
/// code, data, or nothing yet.
#[derive(Drop)]
pub struct Emission {
    pub parts: Parts,
    pub counter: LocationCounter,
    pub content: Option<Content>,
}

/// What no line has put.
pub fn new_emission(alloc: Global) -> Emission
    ensures text_bytes { result.parts.text_bytes.items ≡ [] }
    ensures data_bytes { result.parts.data_bytes.items ≡ [] }
    ensures symbols { result.parts.symbols.items ≡ [] }
    ensures counter { result.counter ≡ layout.first_counter }
    ensures content { result.content ≡ None }
{
    Emission {
        parts: Parts {
            text_bytes: Vec::new(alloc),
            data_bytes: Vec::new(alloc),
            symbols: Vec::new(alloc),
        },
        counter: first_counter(),
        content: None,
    }
}

/// Appends the bytes of line number `number` to the part of its location counter, or tells the fault of its
/// names and distances.
fn put_bytes(
    parts: &mut Parts,
    number: u32,
    counter: &LocationCounter,
    statement: &Statement<'_>,
    addresses: &Addresses<'_, '_>,
) -> Result<(), AsmFault>
    requires align { HasSmallAlign (says_of statement.now) }
    requires has_word { HasWord (says_of statement.now) }
    requires size { length (bytes_in parts.old counter.now.part) ≡ layout.here counter.now }
    requires fits { layout.here counter.now + layout.size_of (says_of statement.now) (layout.here counter.now)
        ≤ 4194304 }
    requires near { AreNear addresses.now }
    ensures ok { OnOk result (target_fault number addresses.now.text_size (names_by addresses.now) counter.now
        (says_of statement.now) ≡ None) }
    ensures bytes { OnOk result (Adds addresses.now.text_size (names_by addresses.now) counter.now
        (says_of statement.now)
        (bytes_in parts.old counter.now.part) (bytes_in parts.new counter.now.part)) }
    ensures others { OnOk result
        (bytes_in parts.new (other counter.now.part) ≡ bytes_in parts.old (other counter.now.part)) }
    ensures symbols { OnOk result (parts.new.symbols ≡ parts.old.symbols) }
    ensures err { IfErr result (λ fault. fault ≢ AsmFault.Memory
        → target_fault number addresses.now.text_size (names_by addresses.now) counter.now
        (says_of statement.now) ≡ Some fault) }
{
    match counter.part {
        Section::Text => put_statement(
            &mut parts.text_bytes,
            number,
            counter,
            statement,
            addresses,
        ),
        Section::Data => put_statement(
            &mut parts.data_bytes,
            number,
            counter,
            statement,
            addresses,
        ),
    }
}

/// Appends what line number `number` puts at a location counter, or tells the fault of its names and
/// distances.
fn put_line(
    parts: &mut Parts,
    alloc: Global,
    number: u32,
    counter: &LocationCounter,
    content: Option<Content>,
    line: &Line<'_>,
    addresses: &Addresses<'_, '_>,
) -> Result<(), AsmFault>
    requires align { HasSmallAlign (says_of line.now.statement) }
    requires has_word { HasWord (says_of line.now.statement) }
    requires size { length (bytes_in parts.old counter.now.part) ≡ layout.here counter.now }
    requires fits { layout.here counter.now
        + layout.size_of (says_of line.now.statement) (layout.here counter.now) ≤ 4194304 }
    requires near { AreNear addresses.now }
    ensures ok { OnOk result (target_fault number addresses.now.text_size (names_by addresses.now) counter.now
        (says_of line.now.statement) ≡ None) }
    ensures grown { OnOk result (HaveGrown addresses.now.text_size
        (names_by addresses.now) counter.now content (line_said line.now)
        parts.old parts.new) }
    ensures err { IfErr result (λ fault. fault ≢ AsmFault.Memory
        → target_fault number addresses.now.text_size (names_by addresses.now) counter.now
        (says_of line.now.statement)
        ≡ Some fault) }
{
    put_symbols(
        &mut parts.symbols,
        alloc,
        counter,
        line,
        content,
        addresses.text_size,
    )?;
    put_bytes(parts, number, counter, &line.statement, addresses)
}

/// Appends what line number `number` puts, as it was kept or is read again, or tells the fault of its names
/// and distances.
pub fn emit_line(
    emission: &mut Emission,
    alloc: Global,
    number: u32,
    text: &[u8],
    kept: Option<KeptWord>,
    addresses: &Addresses<'_, '_>,
) -> Result<(), AsmFault>
    requires short { length text.now ≤ 67108864 }
    requires kept { IsKept kept text.now }
    requires fine { IsFine emission.old.counter text.now }
    requires limits { IsInLimits emission.old.counter }
    requires text_size { length emission.old.parts.text_bytes.items ≡ emission.old.counter.text_size }
    requires data_size { length emission.old.parts.data_bytes.items ≡ emission.old.counter.data_size }
    requires near { AreNear addresses.now }
    ensures ok { (line : SourceLine)
        → line_of text.now ≡ Ok line
        → OnOk result (target_fault number addresses.now.text_size
        (names_by addresses.now) emission.old.counter line.says
        ≡ None) }
    ensures grown { (line : SourceLine)
        → line_of text.now ≡ Ok line
        → OnOk result (HaveGrown addresses.now.text_size
        (names_by addresses.now) emission.old.counter emission.old.content line
        emission.old.parts emission.new.parts) }
    ensures counter { (line : SourceLine) → line_of text.now ≡ Ok line
        → OnOk result (emission.new.counter ≡ layout.counter_after emission.old.counter line.says) }
    ensures content { (line : SourceLine) → line_of text.now ≡ Ok line
        → OnOk result (emission.new.content
        ≡ assembly.text_is emission.old.counter line.says emission.old.content) }
    ensures err { (line : SourceLine)
        → line_of text.now ≡ Ok line
        → IfErr result (λ fault. fault ≢ AsmFault.Memory
        → target_fault number addresses.now.text_size
        (names_by addresses.now) emission.old.counter line.says ≡ Some fault) }
{
    let Ok(line) = line_again(alloc, text, kept) else {
        return Err(AsmFault::Memory);
    };
    let counter = emission.counter;
    let content = emission.content;
    let Some(after) = counter_after(&counter, &line.statement) else {
        unreachable!()
    };
    put_line(
        &mut emission.parts,
        alloc,
        number,
        &counter,
        content,
        &line,
        addresses,
    )?;
    emission.content = text_is(&counter, &line.statement, content);
    emission.counter = after;
    Ok(())
}
