//! Files of vectors by two workers at once, by more workers than there are lines, and by workers with several
//! lines each.
use crate::meeting::MeetingGate;
use edge_io::{Gate, OpenGate};
use sm_types::VecLen;
use std::sync::atomic::{AtomicU64, Ordering};
use vector_runner::{VectorFault, read_vectors, run_vectors};

/// `adds x0, x1, x1` of 2^63, and `svc #5`.
const LINES: &[u8] = b"ab010020 x1=8000000000000000\nd40000a1";

const ANSWERS: [&[u8]; 2] = [
    b"next pc=0000000000020004 x1=8000000000000000 nzcv=0111",
    b"call 5",
];

// A body that lets one worker answer both lines misses a pass, and one that lets them answer one after the
// other does, too.
#[test]
fn two_workers_answer_at_once(rt: HostRuntime) {
    let alloc = rt.alloc();
    let (vl, svl) = (VecLen::Bits128, VecLen::Bits512);
    let vectors = read_vectors(alloc, LINES, vl, svl)
        .ok()
        .expect(&rt, "a file of vectors");
    let gate = MeetingGate::new();
    let lines = run_vectors(&rt, alloc, vectors.as_slice(), vl, svl, 2, &gate)
        .ok()
        .expect(&rt, "memory");
    assert_eq!(rt; gate.missed.load(Ordering::SeqCst), 0);
    assert_eq!(rt; gate.firsts[0].load(Ordering::SeqCst), 1);
    assert_eq!(rt; gate.firsts[1].load(Ordering::SeqCst), 2);
    assert_eq!(rt; gate.passes[0].load(Ordering::SeqCst), 1);
    assert_eq!(rt; gate.passes[1].load(Ordering::SeqCst), 1);
    assert_eq!(rt; lines.len(), 2);
    for (line, answer) in lines.iter().zip(ANSWERS) {
        assert_eq!(rt; line.as_slice(), answer);
    }
}

/// `fmov d0, d0`, which is not in the subset, and `svc #0`.
const OTHERS: &[u8] = b"1e604000\nd4000001\n";

/// The same before a line that is not in the grammar.
const BAD_THIRD: &[u8] = b"1e604000\nd4000001\nzz";

const OTHER_ANSWERS: [&[u8]; 2] = [b"raise undefined 1e604000", b"call 0"];

#[test]
fn the_third_line_is_at_fault(rt: HostRuntime) {
    let alloc = rt.alloc();
    let (vl, svl) = (VecLen::Bits2048, VecLen::Bits128);
    let fault = read_vectors(alloc, BAD_THIRD, vl, svl).err();
    assert_eq!(rt; fault, Some(VectorFault::Line(3)));
    let vectors = read_vectors(alloc, OTHERS, vl, svl)
        .ok()
        .expect(&rt, "a file of vectors");
    let lines = run_vectors(&rt, alloc, vectors.as_slice(), vl, svl, 64, &OpenGate)
        .ok()
        .expect(&rt, "memory");
    assert_eq!(rt; lines.len(), 2);
    for (line, answer) in lines.iter().zip(OTHER_ANSWERS) {
        assert_eq!(rt; line.as_slice(), answer);
    }
}

/// Five lines, of which four workers have two, two, one and none.
const FIVE: &[u8] = b"ab010020 x1=8000000000000000\nd40000a1\n1e604000\nd4000001\nd4000021";

const FIVE_ANSWERS: [&[u8]; 5] = [
    b"next pc=0000000000020004 x1=8000000000000000 nzcv=0111",
    b"call 5",
    b"raise undefined 1e604000",
    b"call 0",
    b"call 1",
];

/// Keeps of each of four workers how often it passed, and the line of its last pass.
#[derive(Drop)]
struct PassGate {
    passes: [AtomicU64; 4],
    lines: [AtomicU64; 4],
}

fn four_zeros() -> [AtomicU64; 4] {
    [
        AtomicU64::new(0),
        AtomicU64::new(0),
        AtomicU64::new(0),
        AtomicU64::new(0),
    ]
}

impl Gate for PassGate {
    fn pass(&self, core: u32, _turn: u64, work: u32) {
        if core < 4 {
            self.passes[core as usize].fetch_add(1, Ordering::SeqCst);
            self.lines[core as usize].store(u64::from(work), Ordering::SeqCst);
        }
    }
}

// A body that passes the gate before each line, one that lets a worker without a line pass it, and one that
// tells it the worker in place of the line fail it.
#[test]
fn each_worker_with_lines_passes_once(rt: HostRuntime) {
    let alloc = rt.alloc();
    let (vl, svl) = (VecLen::Bits128, VecLen::Bits128);
    let vectors = read_vectors(alloc, FIVE, vl, svl)
        .ok()
        .expect(&rt, "a file of vectors");
    let gate = PassGate {
        passes: four_zeros(),
        lines: four_zeros(),
    };
    let lines = run_vectors(&rt, alloc, vectors.as_slice(), vl, svl, 4, &gate)
        .ok()
        .expect(&rt, "memory");
    assert_eq!(rt; lines.len(), 5);
    for (worker, (passes, line)) in [(1, 0), (1, 2), (1, 4), (0, 0)].iter().enumerate() {
        assert_eq!(rt; gate.passes[worker].load(Ordering::SeqCst), *passes);
        assert_eq!(rt; gate.lines[worker].load(Ordering::SeqCst), *line);
    }
}

#[test]
fn any_number_of_workers_gives_the_same_lines(rt: HostRuntime) {
    let alloc = rt.alloc();
    let (vl, svl) = (VecLen::Bits128, VecLen::Bits128);
    let vectors = read_vectors(alloc, FIVE, vl, svl)
        .ok()
        .expect(&rt, "a file of vectors");
    for workers in [1, 2, 64] {
        let lines = run_vectors(&rt, alloc, vectors.as_slice(), vl, svl, workers, &OpenGate)
            .ok()
            .expect(&rt, "memory");
        assert_eq!(rt; lines.len(), 5);
        for (line, answer) in lines.iter().zip(FIVE_ANSWERS) {
            assert_eq!(rt; line.as_slice(), answer);
        }
    }
}
