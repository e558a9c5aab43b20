//! Files with changes, and what a command is to answer to them. A line without a tab begins a group: the name
//! of the file that is changed, and the words of the command, among which `@` is the changed file, and each
//! other one with a `.` is a file. In the place of the name there may be the words of another command and `>`:
//! then what that command writes is changed.
//!
//! Each other line is a case: for each change the range of bytes that is changed and the bytes that take its
//! place, then the status, and past a tab the text that is to be written, with `|` for each line feed. Bytes
//! are `-`, or in hexadecimal, with `+` between parts, each with `*` and how many times it stands there where
//! that is not once. The text is also said as `#`, its length, and the first 16 digits of its SHA-256; and
//! `block` is the block of the thread, the last word, in the changed report.
//!
//! There are lists of such cases too of which each is to come to its status and to another text.

use crate::files::{add_named, read_file, words_in};
use anyhow::{Context, Result, anyhow};
use edge_io::{MemFiles, MemSink, OpenGate};
use sha2::{Digest, Sha256};
use smemu::smemu_main;
use std::alloc::Global;
use std::rt::Files;
use std::str;
use std::sync::Wait;
use std::thread::Threads;

/// The most bytes that a command writes whose text is not known, or is said by its digest.
const ROOM: usize = 0x200_0000;

/// What the cases of a group have in common.
#[derive(Drop)]
struct Group {
    base: Vec<u8>,
    words: Vec<String>,
}

/// What a command writes.
fn written_by<R: Files + AllocGlobal + Threads + Wait + Sync>(
    rt: &R,
    command: &str,
) -> Result<Vec<u8>> {
    let alloc = rt.alloc();
    let words = words_in(alloc, command)?;
    let mut files = MemFiles::new(alloc);
    add_named(rt, &mut files, words.as_slice())?;
    let mut out = MemSink::new(alloc, ROOM).map_err(|_| anyhow!("memory"))?;
    let _ = smemu_main(rt, alloc, words.as_slice(), &mut files, &mut out, &OpenGate);
    Ok(Vec::from_slice(alloc, out.bytes())?)
}

/// The group of a line.
fn group_of<R: Files + AllocGlobal + Threads + Wait + Sync>(rt: &R, line: &str) -> Result<Group> {
    let (base, words) = if let Some((command, words)) = line.split_once(" > ") {
        (written_by(rt, command)?, words)
    } else {
        let (name, words) = line.split_once(' ').context("a file and words")?;
        (read_file(rt, name)?, words)
    };
    Ok(Group {
        base,
        words: words_in(rt.alloc(), words)?,
    })
}

/// The bytes that take the place of others.
fn bytes_of(alloc: Global, text: &str) -> Option<Vec<u8>> {
    let mut bytes = Vec::new(alloc);
    if text == "-" {
        return Some(bytes);
    }
    for part in text.split('+') {
        let (digits, times) = part.split_once('*').unwrap_or((part, "1"));
        let piece = hex::decode(alloc, digits).ok()?;
        for _ in 0..times.parse::<u32>().ok()? {
            bytes.extend_from_slice(piece.as_slice()).ok()?;
        }
    }
    Some(bytes)
}

/// The file after a change.
fn after_change(
    alloc: Global,
    file: &[u8],
    start: &str,
    end: &str,
    bytes: &str,
) -> Option<Vec<u8>> {
    let bytes = bytes_of(alloc, bytes)?;
    let mut changed = Vec::from_slice(alloc, file.get(..start.parse::<usize>().ok()?)?).ok()?;
    changed.extend_from_slice(bytes.as_slice()).ok()?;
    changed
        .extend_from_slice(file.get(end.parse::<usize>().ok()?..)?)
        .ok()?;
    Some(changed)
}

/// The file after the changes of a case, and the status.
fn changed_file(alloc: Global, base: &[u8], case: &str) -> Option<(Vec<u8>, u8)> {
    let mut file = Vec::from_slice(alloc, base).ok()?;
    let mut words = case.split_whitespace();
    loop {
        let word = words.next()?;
        let Some(end) = words.next() else {
            return Some((file, word.parse::<u8>().ok()?));
        };
        file = after_change(alloc, file.as_slice(), word, end, words.next()?)?;
    }
}

/// The text of the block of a thread in a report.
fn block_in(alloc: Global, report: &[u8], thread: &str) -> Option<String> {
    let report = str::from_utf8(report).ok()?;
    let first = format!(in alloc; "\nthread {thread}\n").ok()?;
    let (_, rest) = report.split_once(first.as_str())?;
    let (lines, _) = rest.split_once("\nend-thread\n")?;
    format!(in alloc; "thread {thread}\n{lines}\nend-thread\n").ok()
}

/// The length of a text and the first digits of its digest.
fn summary(alloc: Global, text: &[u8]) -> Option<String> {
    let digest = Sha256::digest(text);
    let digits = hex::encode(alloc, digest.get(..8)?).ok()?;
    let length = text.len();
    format!(in alloc; "#{length} {digits}").ok()
}

/// Tells whether what was written is the text that a case says.
fn is_text(alloc: Global, out: &[u8], file: &[u8], thread: &str, text: &str) -> Option<bool> {
    if text.starts_with('#') {
        return Some(summary(alloc, out)?.as_str() == text);
    }
    let wanted = if text == "block" {
        block_in(alloc, file, thread)?
    } else {
        text.replace(alloc, '|', "\n").ok()?
    };
    Some(out == wanted.as_bytes())
}

/// What a case came to.
#[derive(Clone, Copy, PartialEq, Eq)]
enum Outcome {
    /// Its status and its text.
    Agrees,
    /// Its status, and another text.
    OtherText,
    /// Another status.
    OtherStatus,
}

/// What the case of these parts of a line comes to; none where there is no such case, or no memory.
fn outcome_of<R: Files + AllocGlobal + Threads + Wait + Sync>(
    rt: &R,
    group: &Option<Group>,
    case: &str,
    text: &str,
) -> Option<Outcome> {
    let alloc = rt.alloc();
    let group = group.as_ref()?;
    let (file, status) = changed_file(alloc, group.base.as_slice(), case)?;
    let mut files = MemFiles::new(alloc);
    files.add("@", file.as_slice()).ok()?;
    add_named(rt, &mut files, group.words.as_slice()).ok()?;
    let mut out = MemSink::new(alloc, ROOM).ok()?;
    let words = group.words.as_slice();
    let ended = smemu_main(rt, alloc, words, &mut files, &mut out, &OpenGate);
    let thread = words.last()?.as_str();
    let same = is_text(alloc, out.bytes(), file.as_slice(), thread, text)?;
    Some(if ended.code() != status {
        Outcome::OtherStatus
    } else if same {
        Outcome::Agrees
    } else {
        Outcome::OtherText
    })
}

/// Shows the cases of the list that do not come to what is wanted of all, and counts those that do, and all.
fn count_cases<R: Files + Print + AllocGlobal + Threads + Wait + Sync>(
    rt: &R,
    name: &str,
    list: &str,
    wanted: Outcome,
) -> Result<(u32, u32)> {
    let mut group: Option<Group> = None;
    let mut cases = 0u32;
    let mut right = 0u32;
    for line in list.lines() {
        let Some((case, text)) = line.split_once('\t') else {
            group = Some(group_of(rt, line)?);
            continue;
        };
        cases = cases.saturating_add(1);
        if outcome_of(rt, &group, case, text) == Some(wanted) {
            right = right.saturating_add(1);
        } else {
            println!(rt; "{name}: {line} FAILS")?;
        }
    }
    Ok((right, cases))
}

/// Compares the cases of the list, shows those that differ, and counts those that agree.
pub fn compare_changed<R: Files + Print + AllocGlobal + Threads + Wait + Sync>(
    rt: &R,
    name: &str,
    list: &str,
) -> Result<()> {
    let (right, cases) = count_cases(rt, name, list, Outcome::Agrees)?;
    println!(rt; "{name}: {right} of {cases} changed files agree")?;
    Ok(())
}

/// Shows the cases of the list that do not come to their status and another text, and counts those that do.
pub fn compare_differing<R: Files + Print + AllocGlobal + Threads + Wait + Sync>(
    rt: &R,
    name: &str,
    list: &str,
) -> Result<()> {
    let (right, cases) = count_cases(rt, name, list, Outcome::OtherText)?;
    println!(rt; "{name}: {right} of {cases} cases have another text, as they must")?;
    Ok(())
}
