//! That a run on several cores uses all of them: each core's first turn is held until the other cores have
//! come to theirs, and the turns that the cores tell are counted. And that vectors have all their workers, of
//! which the first line of each is held so.

use crate::tests::{answer_file, status_with};
use edge_io::{Gate, MemFiles, MemSink};
use smemu::Status;
use std::sync::Wait;
use std::sync::atomic::{AtomicU64, Ordering};
use std::test::Fail;
use std::thread::{Threads, yield_now};

/// How often a first pass looks for those of the other cores.
const TRIES: u32 = 1_000_000;

/// Holds the first pass of each core until so many cores have come to theirs, and counts passes.
#[derive(Drop)]
struct MeetingGate {
    /// How many cores are to meet.
    cores: u64,
    /// How many have come.
    came: AtomicU64,
    /// How many first passes were let on before all had come.
    missed: AtomicU64,
    /// Of each core, how many first passes were its own.
    firsts: [AtomicU64; 4],
    /// Of each guest thread, how many passes were for it.
    passes: [AtomicU64; 4],
}

impl MeetingGate {
    fn new(cores: u64) -> MeetingGate {
        MeetingGate {
            cores,
            came: AtomicU64::new(0),
            missed: AtomicU64::new(0),
            firsts: four_zeros(),
            passes: four_zeros(),
        }
    }

    /// The first pass of a core.
    fn meet(&self) {
        self.came.fetch_add(1, Ordering::SeqCst);
        for _ in 0..TRIES {
            if self.came.load(Ordering::SeqCst) >= self.cores {
                return;
            }
            yield_now();
        }
        self.missed.fetch_add(1, Ordering::SeqCst);
    }
}

impl Gate for MeetingGate {
    fn pass(&self, core: u32, turn: u64, work: u32) {
        if work < 4 {
            self.passes[work as usize].fetch_add(1, Ordering::SeqCst);
        }
        if turn == 0 && core < 4 {
            self.firsts[core as usize].fetch_add(1, Ordering::SeqCst);
            self.meet();
        }
    }
}

fn four_zeros() -> [AtomicU64; 4] {
    [
        AtomicU64::new(0),
        AtomicU64::new(0),
        AtomicU64::new(0),
        AtomicU64::new(0),
    ]
}

/// The numbers that are kept there.
fn counts(all: &[AtomicU64; 4]) -> [u64; 4] {
    [
        all[0].load(Ordering::SeqCst),
        all[1].load(Ordering::SeqCst),
        all[2].load(Ordering::SeqCst),
        all[3].load(Ordering::SeqCst),
    ]
}

/// What the command of the words writes, where so many cores are to meet, with their gate.
fn written_at_gate<R: AllocGlobal + Threads + Wait + Sync>(
    rt: &R,
    words: &[&str],
    files: &mut MemFiles,
    cores: u64,
) -> Result<(MeetingGate, MemSink), Fail> {
    let gate = MeetingGate::new(cores);
    let mut out = MemSink::new(rt.alloc(), 20_000)?;
    if status_with(rt, words, files, &mut out, &gate)? != Status::Done {
        return Err("a command that is refused".into());
    }
    Ok((gate, out))
}

// Each thread is on a core of its own. A body that runs the threads on one core passes no gate, of one thread
// too; one that runs a core after the other, or only some of them at once, has a first pass that misses the
// others; one that leaves turns to the caller tells too few.
#[test]
fn a_run_uses_all_its_cores(rt: HostRuntime) -> Result<(), Fail> {
    for (threads, cores, used, firsts, passes) in [
        ("1", "2", 1, [[1, 0, 0, 0], [0, 1, 0, 0]], [5, 0, 0, 0]),
        ("2", "2", 2, [[1, 1, 0, 0]; 2], [5, 5, 0, 0]),
        ("4", "4", 4, [[1; 4]; 2], [5; 4]),
    ] {
        let words = [
            "run",
            "answer",
            "--threads",
            threads,
            "--cores",
            cores,
            "--slice",
            "1",
        ];
        let mut files = answer_file(rt.alloc())?;
        let (gate, out) = written_at_gate(&rt, &words, &mut files, used)?;
        assert_eq!(rt; gate.missed.load(Ordering::SeqCst), 0);
        assert!(rt; firsts.contains(&counts(&gate.firsts)));
        assert_eq!(rt; counts(&gate.passes), passes);
        let report = std::str::from_utf8(out.bytes()).map_err(|_| "not text")?;
        let turns = report.lines().filter(|line| *line == "turns 5").count();
        assert_eq!(rt; turns as u64, used);
    }
    Ok(())
}

// A thread of workload N executes N + 10 instructions and looks for signals after each 1,000 of them, which
// is a turn too; a pass of the gate is for 1,000 turns.
#[test]
fn a_bench_uses_all_its_cores(rt: HostRuntime) -> Result<(), Fail> {
    for (number, passes) in [("1", 1), ("3000", 4)] {
        let words = ["bench", number, "--cores", "4"];
        let mut files = MemFiles::new(rt.alloc());
        let (gate, _) = written_at_gate(&rt, &words, &mut files, 4)?;
        assert_eq!(rt; gate.missed.load(Ordering::SeqCst), 0);
        assert_eq!(rt; counts(&gate.firsts), [1, 1, 1, 1]);
        assert_eq!(rt; counts(&gate.passes), [passes; 4]);
    }
    Ok(())
}

// Five lines for four workers: the first two have two each, the third has one, and the last has none and
// passes no gate. A body that has one worker answer all lines passes it once.
#[test]
fn vectors_have_all_their_workers(rt: HostRuntime) -> Result<(), Fail> {
    let mut files = MemFiles::new(rt.alloc());
    files.add(
        "lines",
        b"d503201f\nd4000021\nd4000041\nd4000061\nd4000081\n",
    )?;
    let words = ["vectors", "lines", "--cores", "4"];
    let (gate, out) = written_at_gate(&rt, &words, &mut files, 3)?;
    assert_eq!(rt; gate.missed.load(Ordering::SeqCst), 0);
    assert_eq!(rt; counts(&gate.firsts), [1, 1, 1, 0]);
    // the indices of their first lines are 0, 2 and 4
    assert_eq!(rt; counts(&gate.passes), [1, 0, 1, 0]);
    let text = b"next pc=0000000000020004\ncall 1\ncall 2\ncall 3\ncall 4\n";
    assert!(rt; out.bytes() == text.as_slice());
    Ok(())
}
