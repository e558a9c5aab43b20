//! Mnemonics and keywords, found in their tables.
ghost use Rattle.std.specs.Prelude.{◌≡◌, ◌≤◌, ◌<◌, Some, slice_index, length, IfSome};
ghost use Rattle.std.specs.Str.{bytes_eq};
ghost use Rattle.insn_text.specs.declared.keywords.TheConstants.{KEYWORDS, MNEMONICS, SUFFIXES};
ghost use Rattle.insn_text.specs.Texts.{text_in};
ghost use Rattle.asm_tokens.specs.Tokens.{index_in};
ghost use Rattle.asm_tokens.specs.Slots.{hash_after, index_if, index_by, probed};

use crate::slots::{FACTOR, FREE, KEYWORD_SLOTS, MNEMONIC_SLOTS};
use insn_text::{KEYWORDS, MNEMONICS, SUFFIXES, Text};

#[inline(always)]
fn hash(text: &[u8], factor: u32, size: u32) -> usize
    requires some { 0 < size }
    requires small { size ≤ 4096 }
    requires short { factor ≤ 4096 }
    ensures value { result ≡ hash_after factor size 0 text.now }
    ensures small { result < size }
{
    let mut hash: u32 = 0;
    for offset in 0..text.len() {
        hash = (hash * factor + text[offset] as u32) % size;
    }
    hash as usize
}

fn slot_at(slots: &[u16], slot: usize) -> u16
    ensures { result ≡ slice_index slots.now slot }
{
    if slot < slots.len() { slots[slot] } else { 0 }
}

#[tactic(auto, unfolding(insn_text::specs::Texts::text_in))]
fn is_text(text: &Text, bytes: &[u8]) -> bool
    ensures { result ≡ bytes_eq (text_in (Some text.now)) bytes.now }
{
    if (text.length as usize) < text.bytes.len() {
        &text.bytes[..text.length as usize] == bytes
    } else {
        text.bytes.as_slice() == bytes
    }
}

#[tactic(auto, unfolding(crate::specs::Slots::index_if))]
fn index_if(texts: &[Text], index: u16, bytes: &[u8]) -> Option<u16>
    ensures { result ≡ index_if texts.now index bytes.now }
{
    if (index as usize) < texts.len() && is_text(&texts[index as usize], bytes) {
        Some(index)
    } else {
        None
    }
}

/// The index of the text by at most 16 slots from one on; a free slot is the last.
#[inline(always)]
fn probed(texts: &[Text], slots: &[u16], size: usize, text: &[u8], start: usize) -> Option<u16>
    requires some { 0 < size }
    requires small { size ≤ 4096 }
    requires start { start < size }
    ensures { result ≡ probed texts.now slots.now size text.now 16 start }
{
    let mut slot = start;
    for step in 0..16usize {
        let entry = slot_at(slots, slot);
        if entry == FREE {
            return None;
        }
        match index_if(texts, entry, text) {
            Some(index) => return Some(index),
            None => slot = (slot + 1) % size,
        }
    }
    None
}

/// The first index of the text in a table.
#[tactic(auto, unfolding(crate::specs::Tokens::index_in))]
fn index_in(texts: &[Text], text: &[u8]) -> Option<usize>
    ensures value { result ≡ index_in texts.now text.now }
    ensures within { IfSome result (λ index. index < length texts.now) }
{
    texts.iter().position(|t| is_text(t, text))
}

#[tactic(auto, unfolding(crate::specs::Slots::index_by))]
fn keyword_by(text: &[u8]) -> Option<u16>
    ensures { result ≡ index_by KEYWORDS KEYWORD_SLOTS FACTOR 512 text.now }
{
    probed(
        &KEYWORDS,
        &KEYWORD_SLOTS,
        512,
        text,
        hash(text, FACTOR, 512),
    )
}

#[tactic(auto, unfolding(crate::specs::Slots::index_by))]
fn mnemonic_by(text: &[u8]) -> Option<u16>
    ensures { result ≡ index_by MNEMONICS MNEMONIC_SLOTS FACTOR 1024 text.now }
{
    probed(
        &MNEMONICS,
        &MNEMONIC_SLOTS,
        1024,
        text,
        hash(text, FACTOR, 1024),
    )
}

/// The index of a keyword of operands.
#[tactic(auto, using(crate::proofs::Leading::keyword_index))]
pub fn keyword_index(text: &[u8]) -> Option<u16>
    ensures { result ≡ index_in KEYWORDS text.now }
{
    keyword_by(text)
}

/// The index of a suffix of registers of vectors, predicates or ZA.
pub fn suffix_index(text: &[u8]) -> Option<u16>
    ensures { result ≡ index_in SUFFIXES text.now }
{
    match index_in(&SUFFIXES, text) {
        Some(index) => Some(index as u16),
        None => None,
    }
}

/// The index of a mnemonic.
#[tactic(auto, using(crate::proofs::Leading::mnemonic_index))]
pub fn mnemonic_index(text: &[u8]) -> Option<u16>
    ensures { result ≡ index_in MNEMONICS text.now }
{
    mnemonic_by(text)
}
