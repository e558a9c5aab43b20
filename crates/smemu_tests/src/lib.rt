//! Tests of the command, of what no row reaches: where the outside fails, its words, files that are too long,
//! programs that run until their journal is full, and runs that are to use all their cores; and of the
//! outside itself.
#![tactic(auto)]

#[cfg(test)]
mod cores;
#[cfg(test)]
mod outside;
#[cfg(test)]
mod programs;

#[cfg(test)]
mod tests {
    use edge_io::{Gate, MemFiles, MemSink, OpenGate};
    use smemu::{Status, refuse_foreign_word, smemu_alone, smemu_in_memory, smemu_main};
    use std::alloc::Global;
    use std::sync::Wait;
    use std::test::Fail;
    use std::thread::Threads;

    /// `movz x0, #42`, `movz x8, #93`, `svc #0` in a load at 0x400000 that begins at byte 120 of the file.
    const ANSWER: [u8; 132] = [
        0x7F, 0x45, 0x4C, 0x46, 2, 1, 1, 0, 0, 0, 0, 0, 0, 0, 0, 0, // 64 bits, low byte first
        2, 0, 183, 0, 1, 0, 0, 0, 0, 0, 0x40, 0, 0, 0, 0, 0, // an executable, its entry
        64, 0, 0, 0, 0, 0, 0, 0, 0, 0, 0, 0, 0, 0, 0, 0, // its program header at 64
        0, 0, 0, 0, 64, 0, 56, 0, 1, 0, 64, 0, 0, 0, 0, 0, // one of 56 bytes
        1, 0, 0, 0, 5, 0, 0, 0, 120, 0, 0, 0, 0, 0, 0, 0, // a load, read and execute
        0, 0, 0x40, 0, 0, 0, 0, 0, 0, 0, 0x40, 0, 0, 0, 0, 0, // its address
        12, 0, 0, 0, 0, 0, 0, 0, 12, 0, 0, 0, 0, 0, 0, 0, // its size
        0, 16, 0, 0, 0, 0, 0, 0, // its alignment
        0x40, 0x05, 0x80, 0xD2, 0xA8, 0x0B, 0x80, 0xD2, 0x01, 0x00, 0x00, 0xD4,
    ];

    /// Words that are no command: in each line the place and the kind of their first fault, and the words.
    const NO_COMMANDS: &str = "\
0: missing
0: unknown|walk|p
0: unknown|RUN|p
0: unknown|
0: unknown|--vl|128|run|p
1: missing|run
2: unknown|run|p|x
2: unknown|run|p|--VL|128
3: missing|run|p|--vl
3: outofrange|run|p|--vl|129
3: outofrange|run|p|--svl|0
3: outofrange|run|p|--budget|0
3: outofrange|run|p|--budget|4294967296
3: outofrange|run|p|--budget|18446744073709551617
3: outofrange|run|p|--budget|100000000000000000000000000000000000000000
3: badnumber|run|p|--budget|
3: badnumber|run|p|--budget|+1
3: badnumber|run|p|--budget|-1
3: badnumber|run|p|--budget|01
3: badnumber|run|p|--budget|00
3: badnumber|run|p|--budget|1 |--vl
3: badnumber|run|p|--budget|0x10
3: badnumber|run|p|--vl|--svl|128
4: repeated|run|p|--vl|128|--vl|128
6: repeated|run|p|--vl|128|--svl|512|--vl
3: outofrange|run|p|--threads|0
3: outofrange|run|p|--threads|33
4: repeated|run|p|--threads|1|--threads|1
3: outofrange|run|p|--cores|0
3: outofrange|run|p|--cores|65
3: badnumber|run|p|--cores|01
4: repeated|run|p|--cores|2|--cores|2
2: extra|dis|p|--cores|2
1: missing|sim
2: missing|sim|p
3: unknown|sim|p|q|r
4: missing|sim|p|q|--cores
4: outofrange|sim|p|q|--cores|0
4: outofrange|sim|p|q|--cores|65
4: badnumber|sim|p|q|--threads|
5: repeated|sim|p|q|--cores|2|--cores|2
1: extra|--help|run
1: missing|dis
2: extra|dis|p|--vl
2: extra|dis|p|q|r
1: missing|asm
2: extra|asm|s|--budget|1
2: extra|asm|s|t|u
0: unknown|Asm|s
1: missing|replay
2: missing|replay|p
3: missing|replay|p|r
3: badnumber|replay|p|r|
3: badnumber|replay|p|r|00
3: outofrange|replay|p|r|32
3: outofrange|replay|p|r|18446744073709551616
4: extra|replay|p|r|31|--vl
1: missing|debug
2: missing|debug|p
3: missing|debug|p|r
4: missing|debug|p|r|0
3: badnumber|debug|p|r|x|s
3: outofrange|debug|p|r|32|s
5: extra|debug|p|r|31|s|t
1: missing|vectors
2: unknown|vectors|f|g
2: unknown|vectors|f|--slice|1
2: unknown|vectors|f|--threads|1
3: missing|vectors|f|--vl
3: outofrange|vectors|f|--svl|129
3: outofrange|vectors|f|--cores|65
5: badnumber|vectors|f|--vl|128|--cores|01
4: repeated|vectors|f|--cores|2|--cores|2
1: extra|--version|--help
1: missing|gen
1: badnumber|gen|x
1: outofrange|gen|0
1: outofrange|gen|20001
2: extra|gen|1|--cores
1: missing|bench
1: outofrange|bench|0
1: outofrange|bench|20001
2: unknown|bench|1|--threads|4
2: unknown|bench|1|2
3: missing|bench|1|--cores
3: outofrange|bench|1|--cores|65
4: repeated|bench|1|--cores|4|--cores|4
";

    fn words(alloc: Global, texts: &[&str]) -> Result<Vec<String>, Fail> {
        let mut words = Vec::new(alloc);
        for text in texts {
            words.push(String::from_str(alloc, text)?)?;
        }
        Ok(words)
    }

    pub fn answer_file(alloc: Global) -> Result<MemFiles, Fail> {
        let mut files = MemFiles::new(alloc);
        for name in ["answer", "", "run", "--vl"] {
            files.add(name, &ANSWER)?;
        }
        Ok(files)
    }

    /// The status of the command of these words, on cores that pass a gate.
    pub fn status_with<R: AllocGlobal + Threads + Wait + Sync, G: Gate + Sync>(
        rt: &R,
        texts: &[&str],
        files: &mut MemFiles,
        out: &mut MemSink,
        gate: &G,
    ) -> Result<Status, Fail> {
        let words = words(rt.alloc(), texts)?;
        Ok(smemu_main(rt, rt.alloc(), words.as_slice(), files, out, gate))
    }

    /// The status of the command of these words, over files and a sink in memory.
    pub fn status_of<R: AllocGlobal + Threads + Wait + Sync>(
        rt: &R,
        texts: &[&str],
        files: &mut MemFiles,
        out: &mut MemSink,
    ) -> Result<Status, Fail> {
        let words = words(rt.alloc(), texts)?;
        Ok(smemu_in_memory(rt, rt.alloc(), words.as_slice(), files, out))
    }

    /// What takes no threads is answered without any; a run on several cores is handed back, and so are
    /// vectors, with nothing written.
    #[test]
    fn what_takes_threads_is_handed_back(rt: HostRuntime) -> Result<(), Fail> {
        let cases: [(&[&str], Option<Status>); 6] = [
            (&["run", "answer"], Some(Status::Done)),
            (&["run", "answer", "--cores", "2"], None),
            (&["bench", "1", "--cores", "64"], None),
            (&["run", "absent", "--cores", "1"], Some(Status::Absent)),
            (&["vectors", "answer"], None),
            (&["vectors", "absent", "--cores", "1"], None),
        ];
        for (texts, wanted) in cases {
            let words = words(rt.alloc(), texts)?;
            let mut files = answer_file(rt.alloc())?;
            let mut out = MemSink::new(rt.alloc(), 4_000)?;
            let status = smemu_alone(rt.alloc(), words.as_slice(), &mut files, &mut out).ok();
            assert_eq!(rt; status, wanted);
            assert_eq!(rt; out.bytes().is_empty(), wanted.is_none());
        }
        Ok(())
    }

    #[test]
    fn words_that_are_no_command(rt: HostRuntime) -> Result<(), Fail> {
        for line in NO_COMMANDS.lines() {
            let mut parts = line.split('|');
            let wanted = parts.next().unwrap_or("");
            let mut words = Vec::new(rt.alloc());
            for word in parts {
                words.push(String::from_str(rt.alloc(), word)?)?;
            }
            let mut files = answer_file(rt.alloc())?;
            let mut out = MemSink::new(rt.alloc(), 100)?;
            let status = smemu_main(
                &rt,
                rt.alloc(),
                words.as_slice(),
                &mut files,
                &mut out,
                &OpenGate,
            );
            assert!(rt; status.code() == 2, "{line}");
            let text = format!(in rt.alloc(); "usage: word {wanted}\n")?;
            assert!(rt; out.bytes() == text.as_bytes(), "{line}");
        }
        Ok(())
    }

    #[test]
    fn a_word_that_is_no_text(rt: HostRuntime) -> Result<(), Fail> {
        let cases: [(&[&str], &str); 5] = [
            (&[], "usage: word 0: unknown\n"),
            (&["run"], "usage: word 1: unknown\n"),
            (&["run", "p", "--vl"], "usage: word 3: unknown\n"),
            (&["walk"], "usage: word 0: unknown\n"),
            (&["run", "p", "--vl", "129"], "usage: word 3: outofrange\n"),
        ];
        for (texts, line) in cases {
            let words = words(rt.alloc(), texts)?;
            let mut out = MemSink::new(rt.alloc(), 100)?;
            let status = refuse_foreign_word(rt.alloc(), words.as_slice(), &mut out);
            assert!(rt; status.code() == 2, "{line}");
            assert!(rt; out.bytes() == line.as_bytes(), "{line}");
        }
        Ok(())
    }

    /// The status of the words, and what they write.
    fn written<R: AllocGlobal + Threads + Wait + Sync>(
        rt: &R,
        texts: &[&str],
    ) -> Result<(Status, MemSink), Fail> {
        let mut files = answer_file(rt.alloc())?;
        let mut out = MemSink::new(rt.alloc(), 4000)?;
        let status = status_of(rt, texts, &mut files, &mut out)?;
        Ok((status, out))
    }

    #[test]
    fn a_run_has_the_options_of_its_words(rt: HostRuntime) -> Result<(), Fail> {
        let cases: [(&[&str], &str, &str); 7] = [
            (
                &["run", "answer"],
                "options vl=128 svl=256 slice=1000 budget=10000000 threads=1\n",
                "\nstop exited 42\ncount 3\nturns 3\n",
            ),
            (
                &["run", "--vl"],
                "options vl=128 svl=256 slice=1000 budget=10000000 threads=1\n",
                "\nstop exited 42\ncount 3\nturns 3\n",
            ),
            (
                &["run", "answer", "--budget", "1"],
                "options vl=128 svl=256 slice=1000 budget=1 threads=1\n",
                "\nstop budget\ncount 1\nturns 1\n",
            ),
            (
                &["run", "answer", "--budget", "3"],
                "options vl=128 svl=256 slice=1000 budget=3 threads=1\n",
                "\nstop exited 42\ncount 3\nturns 3\n",
            ),
            (
                &["run", "answer", "--svl", "2048", "--vl", "512"],
                "options vl=512 svl=2048 slice=1000 budget=10000000 threads=1\n",
                "\nstop exited 42\ncount 3\nturns 3\n",
            ),
            (
                &["run", "", "--budget", "4294967295", "--vl", "2048"],
                "options vl=2048 svl=256 slice=1000 budget=4294967295 threads=1\n",
                "\nstop exited 42\ncount 3\nturns 3\n",
            ),
            (
                &[
                    "run", "run", "--svl", "1024", "--budget", "1", "--vl", "512",
                ],
                "options vl=512 svl=1024 slice=1000 budget=1 threads=1\n",
                "\nstop budget\ncount 1\nturns 1\n",
            ),
        ];
        for (texts, options, stop) in cases {
            let (status, out) = written(&rt, texts)?;
            assert_eq!(rt; status, Status::Done);
            let report = std::str::from_utf8(out.bytes()).map_err(|_| "not text")?;
            assert!(rt; report.starts_with("smemu-report 2\n"), "{report}");
            assert!(rt; report.contains(options), "{report}");
            assert!(rt; report.contains(stop), "{report}");
        }
        Ok(())
    }

    #[test]
    fn a_file_of_one_byte_more_than_64_mib(rt: HostRuntime) -> Result<(), Fail> {
        let bytes = vec![in rt.alloc(); 0u8; 67_108_865]?;
        let mut files = MemFiles::new(rt.alloc());
        files.add("long", bytes.as_slice())?;
        let mut out = MemSink::new(rt.alloc(), 100)?;
        let status = status_of(&rt, &["run", "long"], &mut files, &mut out)?;
        assert_eq!(rt; status, Status::BadFile);
        assert!(rt; out.bytes() == b"bad file: toolong\n".as_slice());
        Ok(())
    }

    #[test]
    fn a_source_of_one_byte_more_than_64_mib(rt: HostRuntime) -> Result<(), Fail> {
        let bytes = vec![in rt.alloc(); b'\n'; 67_108_865]?;
        let mut files = MemFiles::new(rt.alloc());
        files.add("long", bytes.as_slice())?;
        let mut out = MemSink::new(rt.alloc(), 100)?;
        let status = status_of(&rt, &["asm", "long"], &mut files, &mut out)?;
        assert_eq!(rt; status.code(), 7);
        assert!(rt; out.bytes() == b"bad source: line 0: toolong\n".as_slice());
        Ok(())
    }

    #[test]
    fn a_plan_of_one_byte_more_than_64_mib(rt: HostRuntime) -> Result<(), Fail> {
        let bytes = vec![in rt.alloc(); b'\n'; 67_108_865]?;
        let mut files = answer_file(rt.alloc())?;
        files.add("long", bytes.as_slice())?;
        let mut out = MemSink::new(rt.alloc(), 100)?;
        let words = ["sim", "run", "long"];
        let status = status_of(&rt, &words, &mut files, &mut out)?;
        assert_eq!(rt; status, Status::BadPlan);
        assert!(rt; out.bytes() == b"bad plan: line 0: toolong\n".as_slice());
        Ok(())
    }

    #[test]
    fn a_file_of_vectors_of_one_byte_more_than_64_mib(rt: HostRuntime) -> Result<(), Fail> {
        let bytes = vec![in rt.alloc(); b'0'; 67_108_865]?;
        let mut files = MemFiles::new(rt.alloc());
        files.add("long", bytes.as_slice())?;
        let mut out = MemSink::new(rt.alloc(), 100)?;
        let status = status_of(&rt, &["vectors", "long"], &mut files, &mut out)?;
        assert_eq!(rt; status, Status::BadVectors);
        assert!(rt; out.bytes() == b"bad vectors: toolong\n".as_slice());
        Ok(())
    }

    /// The files of the answer, with the report of its run.
    fn reported<R: AllocGlobal + Threads + Wait + Sync>(rt: &R) -> Result<MemFiles, Fail> {
        let mut files = answer_file(rt.alloc())?;
        let mut out = MemSink::new(rt.alloc(), 4000)?;
        if status_of(rt, &["run", "answer"], &mut files, &mut out)? != Status::Done {
            return Err("a program that is refused".into());
        }
        files.add("report", out.bytes())?;
        Ok(files)
    }

    #[test]
    fn a_script_of_one_byte_more_than_64_mib(rt: HostRuntime) -> Result<(), Fail> {
        let bytes = vec![in rt.alloc(); b'\n'; 67_108_865]?;
        let mut files = reported(&rt)?;
        files.add("long", bytes.as_slice())?;
        let mut out = MemSink::new(rt.alloc(), 100)?;
        let words = ["debug", "answer", "report", "0", "long"];
        let status = status_of(&rt, &words, &mut files, &mut out)?;
        assert_eq!(rt; status, Status::BadPlan);
        assert!(rt; out.bytes() == b"bad plan: line 0: toolong\n".as_slice());
        Ok(())
    }

    #[test]
    fn a_session_answers_up_to_a_write_that_fails(rt: HostRuntime) -> Result<(), Fail> {
        let mut files = reported(&rt)?;
        files.add("script", b"where\nstep 2\nwhere\ngoto 9\n")?;
        let words = ["debug", "answer", "report", "0", "script"];
        let text = "at 0 0000000000400000 movz x0, #42\nat 2 0000000000400008 svc #0\nend 3\n";
        for room in 0..text.len() {
            let mut out = MemSink::new(rt.alloc(), room)?;
            assert_eq!(rt; status_of(&rt, &words, &mut files, &mut out)?.code(), 5);
            assert!(rt; text.as_bytes().starts_with(out.bytes()));
        }
        let mut out = MemSink::new(rt.alloc(), text.len())?;
        assert_eq!(rt; status_of(&rt, &words, &mut files, &mut out)?.code(), 0);
        assert!(rt; text.as_bytes() == out.bytes());
        Ok(())
    }

    #[test]
    fn help_and_version(rt: HostRuntime) -> Result<(), Fail> {
        let (status, version) = written(&rt, &["--version"])?;
        assert_eq!(rt; status.code(), 0);
        assert!(rt; version.bytes() == b"smemu 0.1.0\n".as_slice());
        let (status, out) = written(&rt, &["--help"])?;
        assert_eq!(rt; status.code(), 0);
        let help = std::str::from_utf8(out.bytes()).map_err(|_| "not text")?;
        for part in [
            "\n  run PROGRAM ",
            "\n  sim PROGRAM PLAN\n",
            "\n  dis PROGRAM ",
            "\n  asm SOURCE ",
            "\n  replay PROGRAM REPORT THREAD\n",
            "\n  debug PROGRAM REPORT THREAD SCRIPT\n",
            "\n  ckpt PROGRAM REPORT THREAD COUNT\n",
            "\n  resume PROGRAM REPORT CKPT\n",
            "\n  abi-check PROGRAM REPORT THREAD\n",
            "\n  vectors FILE ",
            "\n  gen N ",
            "\n  bench N ",
            "\n  --vl BITS ",
            "\n  --svl BITS ",
            "\n  --budget N ",
            "\n  --threads N ",
            "\n  --cores N ",
            "\n  --help ",
            "\n  --version ",
            "usage: word P: KIND",
            "absent: NAME",
            "read fault: NAME",
            "bad file: KIND VALUES",
            "bad source: line L: KIND VALUES",
            "bad report: line L: KIND",
            "differs: ",
            "bad plan: line L: KIND",
            "bad checkpoint: toolong, or field K, or count C",
            "unlawful: count C pc H KIND",
            "bad vectors: toolong, or line L",
        ] {
            assert!(rt; help.contains(part), "{part}");
        }
        assert!(rt; help.ends_with("\n"));
        Ok(())
    }

    #[test]
    fn a_file_is_absent_or_cannot_be_read(rt: HostRuntime) -> Result<(), Fail> {
        let mut files = answer_file(rt.alloc())?;
        files.fail(2)?;
        files.fail(3)?;
        let wanted: [(&str, u8, &str); 3] = [
            ("question", 3, "absent: question\n"),
            ("answer", 4, "read fault: answer\n"),
            ("question", 3, "absent: question\n"),
        ];
        for (name, status, line) in wanted {
            let mut out = MemSink::new(rt.alloc(), 1000)?;
            assert_eq!(rt;
                status_of(&rt, &["run", name], &mut files, &mut out)?.code(),
                status
            );
            assert!(rt; out.bytes() == line.as_bytes());
        }
        Ok(())
    }

    #[test]
    fn a_program_or_its_report_is_absent_or_cannot_be_read(rt: HostRuntime) -> Result<(), Fail> {
        let mut files = answer_file(rt.alloc())?;
        files.fail(4)?;
        files.fail(5)?;
        let wanted: [(&str, &str, u8, &str); 4] = [
            ("answer", "question", 3, "absent: question\n"),
            ("answer", "run", 4, "read fault: run\n"),
            ("answer", "question", 4, "read fault: answer\n"),
            ("question", "run", 3, "absent: question\n"),
        ];
        for (program, report, status, line) in wanted {
            let mut out = MemSink::new(rt.alloc(), 1000)?;
            let texts = ["replay", program, report, "0"];
            assert_eq!(rt;
                status_of(&rt, &texts, &mut files, &mut out)?.code(),
                status
            );
            assert!(rt; out.bytes() == line.as_bytes());
        }
        Ok(())
    }

    #[test]
    fn a_text_that_cannot_be_written_is_cut_short(rt: HostRuntime) -> Result<(), Fail> {
        let cases: [(&[&str], &str); 3] = [
            (&["--help"], "smemu "),
            (&["--version"], "smemu "),
            (&["run"], "usage: "),
        ];
        for (texts, front) in cases {
            let mut files = answer_file(rt.alloc())?;
            let mut out = MemSink::new(rt.alloc(), 6)?;
            assert_eq!(rt; status_of(&rt, texts, &mut files, &mut out)?.code(), 5);
            assert!(rt; front.as_bytes().starts_with(out.bytes()));
        }
        Ok(())
    }

    #[test]
    fn a_write_that_fails_leaves_a_part_of_the_text(rt: HostRuntime) -> Result<(), Fail> {
        for (call, after, room) in [
            (1u64, 1usize, 1000usize),
            (1, 0, 1000),
            (1, 40, 1000),
            (100, 0, 20),
        ] {
            let mut files = answer_file(rt.alloc())?;
            let mut out = MemSink::new(rt.alloc(), room)?;
            out.fail(call, after)?;
            assert_eq!(rt;
                status_of(&rt, &["run", "answer"], &mut files, &mut out)?.code(),
                5
            );
            let report =
                "smemu-report 2\noptions vl=128 svl=256 slice=1000 budget=10000000 threads=1\nimage ";
            assert!(rt; report.as_bytes().starts_with(out.bytes()));
        }
        Ok(())
    }
}
