//! The mapping symbols that are written of an object's text.
ghost use Rattle.std.specs.Prelude.{◌≡◌, ◌≤◌, ◌+◌, ◌*◌, ◌/◌, ◌++◌, length, cond, IfOk, OnOk, Some, None, []};
ghost use Rattle.sm_types.specs.Objects.{symbol_says, mappings_of, mapping_of, is_same};
ghost use Rattle.elf_headers.specs.Below.{answers, answers_below};
ghost use Rattle.elf_writer.specs.TextMappings.{text_mapping_at, word_address, text_mappings};
ghost use Rattle.elf_writer.specs.Slots.{as_mapping, as_mapping_if, newer, word_from, says_word, slots_say};
ghost use Rattle.elf_writer.specs.Slots.{AreSlots, KeepsMapping, KeepsSymbol};

use sm_types::{Content, Object, Section, Symbol, TEXT_ADDRESS, name_says};
use std::alloc::{AllocError, Global};

/// A mapping symbol of the text: its content begins at the address.
#[derive(Clone, Copy, Drop)]
pub struct TextMapping {
    pub address: u64,
    pub content: Content,
}

/// What a symbol says of the bytes of the text from its address on.
#[tactic(auto, unfolding(sm_types::specs::Objects::symbol_says))]
fn symbol_says(symbol: &Symbol) -> Option<Content>
    ensures { result ≡ symbol_says symbol.now }
{
    match symbol.section {
        Section::Text => name_says(symbol.name.as_slice()),
        Section::Data => None,
    }
}

/// The symbol, where it is a mapping symbol of the text.
fn mapping_of(symbol: &Symbol) -> Option<TextMapping>
    ensures { as_mapping_if result ≡ mapping_of symbol.now }
{
    match symbol_says(symbol) {
        Some(content) => Some(TextMapping {
            address: symbol.address,
            content,
        }),
        None => None,
    }
}

/// The first word that begins at an address or past it.
fn word_from(address: u64) -> u64
    ensures { result ≡ word_from address }
{
    (address.saturating_sub(TEXT_ADDRESS) + 3) / 4
}

/// Of one mapping symbol and a later one for the same word, that which says what stands there.
fn newer(best: Option<TextMapping>, mapping: TextMapping) -> TextMapping
    ensures { as_mapping result ≡ newer (as_mapping_if best) (as_mapping mapping) }
{
    match best {
        Some(best) => {
            if best.address <= mapping.address {
                mapping
            } else {
                best
            }
        }
        None => mapping,
    }
}

/// Puts a mapping symbol at the first word that it is for, unless that has a newer one.
fn keep_mapping(slots: &mut Vec<Option<TextMapping>>, mapping: TextMapping)
    ensures count { length slots.new.items ≡ length slots.old.items }
    ensures keeps { KeepsMapping slots.old.items slots.new.items (as_mapping mapping) }
{
    let n = word_from(mapping.address);
    if n < slots.len() as u64 {
        let i = n as usize;
        slots[i] = Some(newer(slots[i], mapping));
    }
}

/// Puts a symbol at the first word that it is for, where it is a mapping symbol of the text.
fn keep_symbol(slots: &mut Vec<Option<TextMapping>>, symbol: &Symbol)
    ensures count { length slots.new.items ≡ length slots.old.items }
    ensures keeps { KeepsSymbol slots.old.items slots.new.items symbol.now }
{
    let Some(mapping) = mapping_of(symbol) else {
        return;
    };
    keep_mapping(slots, mapping);
}

/// The mapping symbols of symbols, each at the first word that it is for.
fn fill_slots(
    alloc: Global,
    symbols: &[Symbol],
    count: usize,
) -> Result<Vec<Option<TextMapping>>, AllocError>
    ensures count { IfOk result (λ slots. length slots.items ≡ count) }
    ensures slots { IfOk result (λ slots. AreSlots slots.items [] (mappings_of symbols.now)) }
{
    let mut slots = Vec::new(alloc);
    slots.resize(count, None)?;
    for symbol in symbols {
        keep_symbol(&mut slots, symbol);
    }
    Ok(slots)
}

/// What a word's own mapping symbol says, else what was said before, else that it is code.
fn says_word(before: Option<Content>, slot: Option<TextMapping>) -> Content
    ensures { result ≡ says_word before slot }
{
    match slot {
        Some(mapping) => mapping.content,
        None => before.unwrap_or(Content::Code),
    }
}

/// The mapping symbol that is written of word number `n`, where it says other than what was said before.
fn mapping_where(before: Option<Content>, content: Content, n: usize) -> Option<TextMapping>
    requires { n ≤ 1048576 }
    ensures { result ≡ cond (is_same before content) None (Some
        (record { address = word_address n; content = content })) }
{
    if before == Some(content) {
        return None;
    }
    Some(TextMapping {
        address: TEXT_ADDRESS + 4 * n as u64,
        content,
    })
}

/// Adds the mapping symbol, if there is one.
fn push_mapping(
    mapping: Option<TextMapping>,
    mappings: &mut Vec<TextMapping>,
) -> Result<(), AllocError>
    ensures { OnOk result (mappings.new.items ≡ mappings.old.items ++ answers mapping) }
{
    match mapping {
        Some(mapping) => mappings.push(mapping)?,
        None => {}
    }
    Ok(())
}

/// The mapping symbols that are written, of those that each word is the first for.
fn list_mappings(
    alloc: Global,
    slots: &[Option<TextMapping>],
) -> Result<Vec<TextMapping>, AllocError>
    requires { length slots.now ≤ 1048576 }
    ensures { IfOk result (λ mappings. mappings.items ≡ answers_below (text_mapping_at (slots_say slots.now))
        (length slots.now)) }
{
    let mut mappings = Vec::new(alloc);
    let mut before = None;
    for (n, slot) in slots.iter().enumerate() {
        let content = says_word(before, *slot);
        push_mapping(mapping_where(before, content, n), &mut mappings)?;
        before = Some(content);
    }
    Ok(mappings)
}

/// The mapping symbols that are written of an object.
pub fn text_mappings(alloc: Global, object: &Object) -> Result<Vec<TextMapping>, AllocError>
    requires { length object.now.text_bytes.items ≤ 4194304 }
    ensures mappings { IfOk result (λ mappings. mappings.items ≡ text_mappings object.now) }
    ensures few { IfOk result (λ mappings. length mappings.items ≤ 1048576) }
{
    let count = object.text_bytes.len() / 4;
    let slots = fill_slots(alloc, object.symbols.as_slice(), count)?;
    list_mappings(alloc, slots.as_slice())
}
