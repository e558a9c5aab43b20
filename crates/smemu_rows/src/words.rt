//! Words and the instructions that they mean.
use a64_decode::decode_scalar;
use a64_encode::encode;
use anyhow::Result;
use arrayvec::ArrayString;
use asm_parser::{Statement, parse_line};
use insn_text::print_word;
use std::alloc::Global;
use sve_decode::decode_vector;

/// The first field of a line as a word in hexadecimal.
fn word_of(line: &str) -> Option<u32> {
    let field = match line.split_once('\t') {
        Some((field, _)) => field,
        None => line,
    };
    u32::from_str_radix(field, 16).ok()
}

/// Tells whether the word means an instruction, of either table, whose word it is.
fn round_trips(word: u32) -> bool {
    match decode_scalar(word) {
        Some(insn) => encode(&insn) == Some(word),
        None => match decode_vector(word) {
            Some(insn) => encode(&insn) == Some(word),
            None => false,
        },
    }
}

/// Tells whether the text is that of the word.
fn is_text_of(word: u32, text: &str) -> bool {
    let mut printed = ArrayString::<96>::new();
    print_word(word, &mut printed);
    printed.as_str() == text
}

/// Tells whether the statement is an instruction of that word.
fn is_instruction_of(wanted: u32, statement: &Statement<'_>) -> bool {
    match statement {
        Statement::Instruction {
            word,
            target: None,
            ..
        } => *word == wanted,
        _ => false,
    }
}

/// Tells whether the text is read as an instruction of that word.
fn is_word_of(alloc: Global, text: &str, word: u32) -> bool {
    if text.len() > 96 {
        return false;
    }
    match parse_line(alloc, text) {
        Ok(line) => is_instruction_of(word, &line.statement),
        Err(_) => false,
    }
}

/// Tells whether the word means an instruction whose word it is, and whether the text is its text, from
/// which the word is read.
fn is_printed_as(alloc: Global, word: u32, text: &str) -> bool {
    round_trips(word) && is_text_of(word, text) && is_word_of(alloc, text, word)
}

/// Tells whether the word means an instruction whose word it is, and whether it is read from the text,
/// which is not its text.
fn has_alias(alloc: Global, word: u32, text: &str) -> bool {
    round_trips(word) && !is_text_of(word, text) && is_word_of(alloc, text, word)
}

/// Tells whether the line is a word and its text.
fn agrees(alloc: Global, line: &str) -> bool {
    match (word_of(line), line.split_once('\t')) {
        (Some(word), Some((_, text))) => is_printed_as(alloc, word, text),
        _ => false,
    }
}

/// The sorts of a text: that in which a word is printed, and one that is read alone.
#[derive(Drop)]
enum Sort {
    Printed,
    Alias,
}

/// The sort that a line names, and its text.
fn sorted_text(line: &str) -> Option<(Sort, &str)> {
    let (_, rest) = line.split_once('\t')?;
    match rest.split_once('\t')? {
        ("printed", text) => Some((Sort::Printed, text)),
        ("alias", text) => Some((Sort::Alias, text)),
        _ => None,
    }
}

/// Tells whether the word means no instruction.
fn has_no_row(word: u32) -> bool {
    decode_scalar(word).is_none() && decode_vector(word).is_none()
}

/// Prints each line whose word means no instruction, or one with another word or another text, or whose
/// text is read as another word, and how many agree.
pub fn check_words<R: Print + AllocGlobal>(rt: &R, text: &str) -> Result<()> {
    let mut agree = 0u64;
    for line in text.lines() {
        if agrees(rt.alloc(), line) {
            agree = agree.saturating_add(1);
        } else {
            println!(rt; "DIFFERS: {line}")?;
        }
    }
    println!(rt; "words and texts, both ways: {agree} agree")?;
    Ok(())
}

/// Prints each line of a word, `printed` or `alias`, and a text, where the word means no instruction, or
/// one with another word; where the text is read as another word; and where it is printed and should not
/// be, or the other way round. Prints how many of both sorts agree.
pub fn check_texts<R: Print + AllocGlobal>(rt: &R, text: &str) -> Result<()> {
    let mut printed = 0u64;
    let mut aliases = 0u64;
    for line in text.lines() {
        match (word_of(line), sorted_text(line)) {
            (Some(word), Some((Sort::Printed, text))) if is_printed_as(rt.alloc(), word, text) => {
                printed = printed.saturating_add(1);
            }
            (Some(word), Some((Sort::Alias, text))) if has_alias(rt.alloc(), word, text) => {
                aliases = aliases.saturating_add(1);
            }
            _ => println!(rt; "DIFFERS: {line}")?,
        }
    }
    println!(rt; "texts: {printed} agree both ways, {aliases} aliases are read")?;
    Ok(())
}

/// Prints each line whose word means an instruction, and how many agree.
pub fn check_no_row<R: Print>(rt: &R, text: &str) -> Result<()> {
    let mut agree = 0u64;
    for line in text.lines() {
        if word_of(line).is_some_and(has_no_row) {
            agree = agree.saturating_add(1);
        } else {
            println!(rt; "DIFFERS: {line}")?;
        }
    }
    println!(rt; "words of no row: {agree} agree")?;
    Ok(())
}
