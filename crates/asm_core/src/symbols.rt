//! The symbols of lines: those of their labels, and the mapping symbols where the text changes between code
//! and data.
ghost use Rattle.std.specs.Prelude.{◌≡◌, ◌≤◌, ◌+◌, ◌++◌, true, false, Some, None, map, is_some, OnOk, IfErr};
ghost use Rattle.std.specs.Prelude.{option_map};
ghost use Rattle.sm_types.specs.Objects.{is_same, name_says};
ghost use Rattle.asm_parser.specs.Statements.{line_said, says_of};
ghost use Rattle.asm_core.specs.Code as code;
ghost use Rattle.asm_core.specs.Layout as layout;
ghost use Rattle.asm_core.specs.Assembly as assembly;
ghost use Rattle.asm_core.specs.Limits.{HasSmallAlign};
ghost use Rattle.asm_core.specs.Emitted.{line_symbols, one_symbol};

use crate::fault::AsmFault;
use crate::labels::LabelPosition;
use crate::location_counter::{LocationCounter, here, size_of};
use crate::routines::{Routine, name_of, offset_of};
use crate::target_addresses::address_in;
use asm_parser::{Line, Statement};
use sm_types::{Content, Section, Symbol, Symbols, name_says};
use std::alloc::Global;

/// Tells whether a name is a mapping symbol's.
fn is_mapping_name(name: &[u8]) -> bool
    ensures { result ≡ is_some (name_says name.now) }
{
    name_says(name).is_some()
}

/// What a statement's bytes are.
#[tactic(auto, unfolding(crate::specs::Assembly::content_of, crate::specs::Assembly::puts_code))]
fn content_of(statement: &Statement<'_>) -> Content
    ensures { result ≡ assembly.content_of (says_of statement.now) }
{
    match statement {
        Statement::Instruction { .. }
        | Statement::SupportRoutines { .. }
        | Statement::CallTail { .. } => Content::Code,
        _ => Content::Data,
    }
}

/// Tells whether a statement puts bytes into the text.
#[tactic(auto, unfolding(crate::specs::Assembly::fills_text))]
fn fills_text(counter: &LocationCounter, statement: &Statement<'_>) -> bool
    requires { HasSmallAlign (says_of statement.now) }
    ensures { result ≡ assembly.fills_text counter.now (says_of statement.now) }
{
    match counter.part {
        Section::Text => size_of(statement, here(counter)) > 0,
        Section::Data => false,
    }
}

/// What the text is after a statement: code, data, or nothing yet.
#[tactic(auto, unfolding(crate::specs::Assembly::text_is))]
pub fn text_is(
    counter: &LocationCounter,
    statement: &Statement<'_>,
    before: Option<Content>,
) -> Option<Content>
    requires { HasSmallAlign (says_of statement.now) }
    ensures { result ≡ assembly.text_is counter.now (says_of statement.now) before }
{
    if fills_text(counter, statement) {
        Some(content_of(statement))
    } else {
        before
    }
}

/// Tells whether the text is already what the next bytes are.
fn is_same(before: Option<Content>, now: Content) -> bool
    ensures { result ≡ is_same before now }
{
    before == Some(now)
}

/// The name of the mapping symbol of code or of data.
fn mapping_name(content: Content) -> &'static [u8]
    ensures { result.now ≡ assembly.mapping_name content }
{
    match content {
        Content::Code => b"$x",
        Content::Data => b"$d",
    }
}

/// Appends a symbol.
fn put_symbol(
    symbols: &mut Symbols,
    alloc: Global,
    name: &[u8],
    address: u64,
    section: Section,
) -> Result<(), AsmFault>
    ensures ok { OnOk result (map assembly.symbol_said symbols.new.items
        ≡ map assembly.symbol_said symbols.old.items ++ one_symbol name.now address section) }
    ensures err { IfErr result (λ fault. fault ≡ AsmFault.Memory) }
{
    let name = Vec::from_slice(alloc, name)?;
    symbols.push(Symbol {
        name,
        address,
        section,
    })?;
    Ok(())
}

/// Appends the symbol of a label, unless it is called like a mapping symbol.
#[tactic(auto, unfolding(crate::specs::Assembly::label_symbol))]
fn put_label(
    symbols: &mut Symbols,
    alloc: Global,
    name: &[u8],
    position: LabelPosition,
    text_size: u64,
) -> Result<(), AsmFault>
    requires text { text_size ≤ 4194304 }
    requires offset { position.offset ≤ 4194304 }
    ensures ok { OnOk result (map assembly.symbol_said symbols.new.items
        ≡ map assembly.symbol_said symbols.old.items
        ++ assembly.label_symbol text_size (layout.label_of name.now position)) }
    ensures err { IfErr result (λ fault. fault ≡ AsmFault.Memory) }
{
    if is_mapping_name(name) {
        return Ok(());
    }
    let address = address_in(position.part, position.offset, text_size);
    put_symbol(symbols, alloc, name, address, position.part)
}

/// Appends the symbol of a routine, where the three stand at a location counter.
fn put_routine(
    symbols: &mut Symbols,
    alloc: Global,
    counter: &LocationCounter,
    routine: Routine,
    text_size: u64,
) -> Result<(), AsmFault>
    requires text { text_size ≤ 4194304 }
    requires here { layout.here counter.now + 224 ≤ 4194304 }
    ensures ok { OnOk result (map assembly.symbol_said symbols.new.items
        ≡ map assembly.symbol_said symbols.old.items
        ++ assembly.label_symbol text_size (layout.label_past counter.now (code.named_byte routine))) }
    ensures err { IfErr result (λ fault. fault ≡ AsmFault.Memory) }
{
    let position = LabelPosition {
        part: counter.part,
        offset: here(counter) + offset_of(routine),
    };
    put_label(symbols, alloc, name_of(routine), position, text_size)
}

/// Appends the symbols of the labels that a line's directive brings at a location counter.
#[tactic(auto, unfolding(crate::specs::Assembly::label_symbols))]
fn put_names(
    symbols: &mut Symbols,
    alloc: Global,
    counter: &LocationCounter,
    statement: &Statement<'_>,
    text_size: u64,
) -> Result<(), AsmFault>
    requires text { text_size ≤ 4194304 }
    requires fits { layout.here counter.now + layout.size_of (says_of statement.now) (layout.here counter.now)
        ≤ 4194304 }
    ensures ok { OnOk result (map assembly.symbol_said symbols.new.items
        ≡ map assembly.symbol_said symbols.old.items
        ++ assembly.label_symbols text_size
        (map (layout.label_past counter.now) (code.names_said (says_of statement.now)))) }
    ensures err { IfErr result (λ fault. fault ≡ AsmFault.Memory) }
{
    match statement {
        Statement::SupportRoutines { .. } => {
            put_routine(symbols, alloc, counter, Routine::Save, text_size)?;
            put_routine(symbols, alloc, counter, Routine::Disable, text_size)?;
            put_routine(symbols, alloc, counter, Routine::Restore, text_size)
        }
        _ => Ok(()),
    }
}

/// Appends the symbol of the label that stands on a line at a location counter.
#[tactic(auto, unfolding(crate::specs::Assembly::label_symbols))]
fn put_own(
    symbols: &mut Symbols,
    alloc: Global,
    counter: &LocationCounter,
    label: Option<&[u8]>,
    text_size: u64,
) -> Result<(), AsmFault>
    requires text { text_size ≤ 4194304 }
    requires here { layout.here counter.now ≤ 4194304 }
    ensures ok { OnOk result (map assembly.symbol_said symbols.new.items
        ≡ map assembly.symbol_said symbols.old.items
        ++ assembly.label_symbols text_size
        (layout.if_some (option_map (layout.label_at counter.now)
        (option_map (λ name. name.now) label.entry)))) }
    ensures err { IfErr result (λ fault. fault ≡ AsmFault.Memory) }
{
    let Some(name) = label else {
        return Ok(());
    };
    let position = LabelPosition {
        part: counter.part,
        offset: here(counter),
    };
    put_label(symbols, alloc, name, position, text_size)
}

/// Appends the symbols of the labels of a line at a location counter.
fn put_labels(
    symbols: &mut Symbols,
    alloc: Global,
    counter: &LocationCounter,
    line: &Line<'_>,
    text_size: u64,
) -> Result<(), AsmFault>
    requires text { text_size ≤ 4194304 }
    requires fits { layout.here counter.now
        + layout.size_of (says_of line.now.statement) (layout.here counter.now) ≤ 4194304 }
    ensures ok { OnOk result (map assembly.symbol_said symbols.new.items
        ≡ map assembly.symbol_said symbols.old.items
        ++ assembly.label_symbols text_size (layout.labels_at counter.now (line_said line.now))) }
    ensures err { IfErr result (λ fault. fault ≡ AsmFault.Memory) }
{
    put_own(symbols, alloc, counter, line.label, text_size)?;
    put_names(symbols, alloc, counter, &line.statement, text_size)
}

/// Appends the mapping symbol of a statement at a location counter, where the text changes between code and
/// data with it.
#[tactic(auto, unfolding(crate::specs::Assembly::mapping_symbol))]
fn put_mapping(
    symbols: &mut Symbols,
    alloc: Global,
    counter: &LocationCounter,
    statement: &Statement<'_>,
    before: Option<Content>,
    text_size: u64,
) -> Result<(), AsmFault>
    requires text { text_size ≤ 4194304 }
    requires here { layout.here counter.now ≤ 4194304 }
    requires align { HasSmallAlign (says_of statement.now) }
    ensures ok { OnOk result (map assembly.symbol_said symbols.new.items
        ≡ map assembly.symbol_said symbols.old.items
        ++ assembly.mapping_symbol text_size counter.now (says_of statement.now) before) }
    ensures err { IfErr result (λ fault. fault ≡ AsmFault.Memory) }
{
    let content = content_of(statement);
    if !fills_text(counter, statement) || is_same(before, content) {
        return Ok(());
    }
    let address = address_in(counter.part, here(counter), text_size);
    put_symbol(symbols, alloc, mapping_name(content), address, counter.part)
}

/// Appends the symbols of a line at a location counter.
#[tactic(auto, unfolding(crate::specs::Emitted::line_symbols))]
pub fn put_symbols(
    symbols: &mut Symbols,
    alloc: Global,
    counter: &LocationCounter,
    line: &Line<'_>,
    before: Option<Content>,
    text_size: u64,
) -> Result<(), AsmFault>
    requires text { text_size ≤ 4194304 }
    requires fits { layout.here counter.now
        + layout.size_of (says_of line.now.statement) (layout.here counter.now) ≤ 4194304 }
    requires align { HasSmallAlign (says_of line.now.statement) }
    ensures ok { OnOk result (map assembly.symbol_said symbols.new.items
        ≡ map assembly.symbol_said symbols.old.items
        ++ line_symbols text_size counter.now before (line_said line.now)) }
    ensures err { IfErr result (λ fault. fault ≡ AsmFault.Memory) }
{
    put_labels(symbols, alloc, counter, line, text_size)?;
    put_mapping(symbols, alloc, counter, &line.statement, before, text_size)
}
