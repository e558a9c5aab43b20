//! Gives lines of data to the emulator, and compares what it makes of each with what the line says. Each
//! argument is a sort of lines, `=` and the name of a file of them:
//!
//! - `rows`: files and sources, each with a command, and the text and the status that it is to answer;
//! - `changed`: files with changes, each with what a command answers to it;
//! - `failing`: rows whose reads and writes fail in turn;
//! - `words`: words that mean instructions, each with its text, from which the word is read;
//! - `texts`: words with texts from which they are read, and that are printed exactly where the line says so;
//! - `no-row`: words that mean none;
//! - `faults`: lines of sources that are refused, each with its fault;
//! - `differing`: files with changes, and texts that were altered by hand, which the command must not answer.
//!
//! A line that cannot be read is shown as one that differs.
#![tactic(auto)]

mod changed;
mod failing;
mod faults;
mod files;
mod rows;
mod words;

use crate::changed::{compare_changed, compare_differing};
use crate::failing::compare_failing;
use crate::faults::check_faults;
use crate::rows::compare_rows;
use crate::words::{check_no_row, check_texts, check_words};
use anyhow::{Context, Result, anyhow};
use std::rt::Files;
use std::sync::Wait;
use std::thread::Threads;
use std::{env, fs};

/// Compares the lines of a file, which are of that sort.
fn compare<R: Files + Print + AllocGlobal + Threads + Wait + Sync>(
    rt: &R,
    sort: &str,
    name: &str,
) -> Result<()> {
    let file = fs::read_to_string(rt, name).context("a file of lines")?;
    let text = file.as_str();
    match sort {
        "rows" => compare_rows(rt, text),
        "changed" => compare_changed(rt, name, text),
        "failing" => compare_failing(rt, text),
        "words" => check_words(rt, text),
        "texts" => check_texts(rt, text),
        "no-row" => check_no_row(rt, text),
        "faults" => check_faults(rt, text),
        "differing" => compare_differing(rt, name, text),
        _ => Err(anyhow!("no sort of lines: {sort}")),
    }
}

fn main(rt: HostRuntime) -> Result<()> {
    let words: Vec<String> = env::args(&rt)?.skip(1).collect(rt.alloc())?;
    for word in words {
        let (sort, name) = word.split_once('=').context("no SORT=NAME")?;
        compare(&rt, sort, name)?;
    }
    Ok(())
}
