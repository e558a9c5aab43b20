//! Programs that run until their journal is full, and are replayed.

use crate::tests::status_of;
use edge_io::{MemFiles, MemSink};
use smemu::Status;
use std::sync::Wait;
use std::test::Fail;
use std::thread::Threads;

/// Assembles the source into the file `--vl`.
fn assembled<R: AllocGlobal + Threads + Wait + Sync>(
    rt: &R,
    source: &str,
) -> Result<MemFiles, Fail> {
    let mut files = MemFiles::new(rt.alloc());
    files.add("dis", source.as_bytes())?;
    let mut program = MemSink::new(rt.alloc(), 20_000)?;
    if status_of(rt, &["asm", "dis"], &mut files, &mut program)? != Status::Done {
        return Err("a source that is refused".into());
    }
    files.add("--vl", program.bytes())?;
    Ok(files)
}

/// What the command of the words writes, of at most so many bytes.
fn written_within<R: AllocGlobal + Threads + Wait + Sync>(
    rt: &R,
    room: usize,
    words: &[&str],
    files: &mut MemFiles,
) -> Result<MemSink, Fail> {
    let mut out = MemSink::new(rt.alloc(), room)?;
    if status_of(rt, words, files, &mut out)? != Status::Done {
        return Err("a program that is refused".into());
    }
    Ok(out)
}

#[test]
fn a_journal_that_is_full_and_is_replayed(rt: HostRuntime) -> Result<(), Fail> {
    let load = "_start: movz x0, #32512, lsl #32\nagain: ldr x1, [x0]\n cbz x1, again\n";
    let post = "_start: mov x0, #0\n mov x1, #5\n mov x8, #131\nagain: svc #0\n b again\n";
    let cases = [
        (load, "1000000", "count 524289\nturns 524289\n", "e ld 0 "),
        (post, "1000000", "count 524291\nturns 524291\n", "e post 0 "),
        (
            "_start: b _start\n",
            "1",
            "count 262145\nturns 524289\n",
            "e poll 0 ",
        ),
    ];
    for (source, slice, counts, event) in cases {
        let mut files = assembled(&rt, source)?;
        let words = ["run", "--vl", "--slice", slice];
        let out = written_within(&rt, 20_000_000, &words, &mut files)?;
        let report = std::str::from_utf8(out.bytes()).map_err(|_| "not text")?;
        let stop = format!(in rt.alloc(); "\nstop tracefull\n{counts}")?;
        let journal = format!(in rt.alloc(); "\njournal 262144\n{event}")?;
        assert!(rt; report.contains(stop.as_str()), "{source}");
        assert!(rt; report.contains(journal.as_str()), "{source}");
        files.add("report", out.bytes())?;
        let words = ["replay", "--vl", "report", "0"];
        let block = written_within(&rt, 20_000_000, &words, &mut files)?;
        let block = std::str::from_utf8(block.bytes()).map_err(|_| "not text")?;
        assert!(rt; report.contains(block), "{source}");
        assert!(rt; block.ends_with("\nend-thread\n"), "{source}");
    }
    Ok(())
}

/// Threads that each add 1 to the first shared word 1,000 times: the word has all of them at the end, and
/// each thread of the report is replayed, on any number of cores.
#[test]
fn threads_that_add_on_cores_are_replayed(rt: HostRuntime) -> Result<(), Fail> {
    let source = "_start: movz x0, #32512, lsl #32\n movz x1, #1\n movz x3, #1000\n\
                  again: ldadd x1, x2, [x0]\n subs x3, x3, #1\n b.ne again\n movz x8, #93\n svc #0\n";
    let cases = [
        ("1", "2", "100", "00000000000007d0"),
        ("2", "2", "100", "00000000000007d0"),
        ("3", "2", "100", "00000000000007d0"),
        ("4", "2", "100", "00000000000007d0"),
        ("4", "2", "1000", "00000000000007d0"),
        ("4", "4", "100", "0000000000000fa0"),
        ("64", "2", "1000", "00000000000007d0"),
        ("2", "8", "100", "0000000000001f40"),
    ];
    for (cores, threads, slice, sum) in cases {
        let mut files = assembled(&rt, source)?;
        let words = [
            "run",
            "--vl",
            "--cores",
            cores,
            "--threads",
            threads,
            "--slice",
            slice,
        ];
        let out = written_within(&rt, 2_000_000, &words, &mut files)?;
        let report = std::str::from_utf8(out.bytes()).map_err(|_| "not text")?;
        let word = format!(in rt.alloc(); "\nshared\nw 0 {sum}\nend\n")?;
        assert!(rt; report.ends_with(word.as_str()), "{cores} {threads}");
        files.add("report", out.bytes())?;
        for thread in 0..threads.parse::<u32>().map_err(|_| "no number")? {
            let number = format!(in rt.alloc(); "{thread}")?;
            let words = ["replay", "--vl", "report", number.as_str()];
            let block = written_within(&rt, 2_000_000, &words, &mut files)?;
            let block = std::str::from_utf8(block.bytes()).map_err(|_| "not text")?;
            assert!(rt; report.contains(block), "{cores} {threads} {thread}");
        }
    }
    Ok(())
}
