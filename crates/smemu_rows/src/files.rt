//! The files of the rows, each of which has a `.` in its name.

use anyhow::{Context, Result, anyhow};
use edge_io::MemFiles;
use std::alloc::Global;
use std::fs;
use std::rt::Files;

/// The bytes of a file.
pub fn read_file<R: Files + AllocGlobal>(rt: &R, name: &str) -> Result<Vec<u8>> {
    Ok(fs::read(rt, name).context("a file")?)
}

/// Adds a file to those in memory, under a name.
pub fn add_file<R: Files + AllocGlobal>(
    rt: &R,
    files: &mut MemFiles,
    name: &str,
    path: &str,
) -> Result<()> {
    let bytes = read_file(rt, path)?;
    files
        .add(name, bytes.as_slice())
        .map_err(|_| anyhow!("memory"))
}

/// Adds each file that the words name.
pub fn add_named<R: Files + AllocGlobal>(
    rt: &R,
    files: &mut MemFiles,
    words: &[String],
) -> Result<()> {
    for word in words {
        if word.contains('.') {
            add_file(rt, files, word.as_str(), word.as_str())?;
        }
    }
    Ok(())
}

/// The words of a text.
pub fn words_in(alloc: Global, text: &str) -> Result<Vec<String>> {
    let mut words = vec![in alloc;]?;
    for word in text.split_whitespace() {
        words.push(String::from_str(alloc, word)?)?;
    }
    Ok(words)
}
