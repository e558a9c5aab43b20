//! Words that are given to the command, with their files in memory, and what it is to write, with its status.
//! Each line of the list has a file's name, a status, and the words; `@` among them stands for the file. The
//! text that is to be written stands in the file of that name with `.txt` behind it. Other words with a `.` are
//! names of files too.

use crate::files::{add_file, read_file};
use anyhow::Result;
use edge_io::{MemFiles, MemSink, OpenGate};
use smemu::smemu_main;
use std::rt::Files;
use std::sync::Wait;
use std::thread::Threads;

/// The words of the command line and the files that they name.
pub fn asked<R: Files + AllocGlobal>(
    rt: &R,
    name: &str,
    words: &str,
) -> Result<(Vec<String>, MemFiles)> {
    let alloc = rt.alloc();
    let mut files = MemFiles::new(alloc);
    let mut asked = vec![in alloc;]?;
    for word in words.split_whitespace() {
        if word == "@" {
            add_file(rt, &mut files, word, name)?;
        } else if word.contains('.') {
            add_file(rt, &mut files, word, word)?;
        }
        asked.push(String::from_str(alloc, word)?)?;
    }
    Ok((asked, files))
}

/// Tells whether a row agrees.
fn agrees<R: Files + AllocGlobal + Threads + Wait + Sync>(
    rt: &R,
    name: &str,
    wanted: u8,
    words: &str,
) -> Result<bool> {
    let (asked, mut files) = asked(rt, name, words)?;
    let text_name = format!(in rt.alloc(); "{name}.txt")?;
    let text = read_file(rt, text_name.as_str())?;
    let mut out = MemSink::new(rt.alloc(), text.len()).map_err(|_| anyhow::anyhow!("memory"))?;
    let alloc = rt.alloc();
    let status = smemu_main(rt, alloc, asked.as_slice(), &mut files, &mut out, &OpenGate);
    Ok(status.code() == wanted && out.bytes() == text.as_slice())
}

/// The file's name, the status and the words of a row.
pub fn row_of(row: &str) -> Option<(&str, u8, &str)> {
    let (name, rest) = row.split_once(' ')?;
    let (status, words) = rest.split_once(' ')?;
    Some((name, status.parse::<u8>().ok()?, words))
}

/// Tells of each row of the list whether it agrees.
pub fn compare_rows<R: Files + Print + AllocGlobal + Threads + Wait + Sync>(
    rt: &R,
    rows: &str,
) -> Result<()> {
    for row in rows.lines() {
        let Some((name, wanted, words)) = row_of(row) else {
            println!(rt; "{row}: no file, no status or no command")?;
            continue;
        };
        if agrees(rt, name, wanted, words)? {
            println!(rt; "{name} agrees")?;
        } else {
            println!(rt; "{name} DIFFERS")?;
        }
    }
    Ok(())
}
