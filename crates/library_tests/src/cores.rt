//! Guest threads on several cores: two workers that run at once, a queue and a core that are empty, and a
//! core that is full.
ghost use Rattle.std.specs.Prelude.{◌≡◌, ◌<◌, ◌≤◌, ℕ};
ghost use Rattle.kernel_contexts.specs.Context.{config_of, thread_of};
ghost use Rattle.core_unit.specs.CoreState.{IsAbsent};
ghost use Rattle.core_unit.specs.View.{core_state};

use crate::meeting::MeetingGate;
use core_unit::Core;
use elf_loader::load;
use kernel_contexts::{Context, Whole};
use paged_memory::Image;
use run_queue::ContextQueue;
use shared_region::{PlainPort, PlainTicket};
use sm_types::{Config, Stop};
use smp_runner::run_cores;
use std::alloc::Global;
use std::process::Abort as Stops;
use std::sync::atomic::Ordering;

/// The header of a program file whose only load, which can be read and executed, is the code after it, at
/// 0x400000. It ends before the sizes of the load.
const HEAD: [u8; 96] = [
    0x7F, 0x45, 0x4C, 0x46, 2, 1, 1, 0, 0, 0, 0, 0, 0, 0, 0, 0, // 64 bits, low byte first
    2, 0, 183, 0, 1, 0, 0, 0, 0, 0, 0x40, 0, 0, 0, 0, 0, // an executable, its entry
    64, 0, 0, 0, 0, 0, 0, 0, 0, 0, 0, 0, 0, 0, 0, 0, // its program header at 64
    0, 0, 0, 0, 64, 0, 56, 0, 1, 0, 0, 0, 0, 0, 0, 0, // one of 56 bytes
    1, 0, 0, 0, 5, 0, 0, 0, 120, 0, 0, 0, 0, 0, 0, 0, // a load, read and execute, at 120 of the file
    0, 0, 0x40, 0, 0, 0, 0, 0, 0, 0, 0x40, 0, 0, 0, 0, 0, // its address
];

/// `movz x0, #42`, `movz x8, #93`, `svc #0`: it ends with 42.
const ENDS: [u32; 3] = [0xd2800540, 0xd2800ba8, 0xd4000001];

/// A program file of that code.
pub fn file_of(rt: &impl Stops, alloc: Global, code: &[u32]) -> Vec<u8> {
    let mut file = Vec::new(alloc);
    let size = (code.len() as u64).wrapping_mul(4).to_le_bytes();
    for part in [&HEAD[..], &size, &size, &[4, 0, 0, 0, 0, 0, 0, 0]] {
        file.extend_from_slice(part).ok().expect(rt, "memory");
    }
    for word in code {
        file.extend_from_slice(&word.to_le_bytes())
            .ok()
            .expect(rt, "memory");
    }
    file
}

/// The options of two threads on two cores, which look for signals after each instruction.
fn two_of_each() -> Config {
    let mut config = Config::defaults();
    config.slice = 1;
    config.threads = 2;
    config.cores = 2;
    config
}

// A body that runs one core after the other misses a pass, one that keeps all threads on one core makes none
// on the other, and one that leaves turns to the caller makes too few.
#[test]
fn two_workers_run_at_once(rt: HostRuntime) {
    let alloc = rt.alloc();
    let file = file_of(&rt, alloc, &ENDS);
    let image = load(alloc, &file).ok().expect(&rt, "an accepted file");
    let gate = MeetingGate::new();
    let run = run_cores(&rt, alloc, &image, &two_of_each(), &gate)
        .ok()
        .expect(&rt, "memory");
    assert_eq!(rt; gate.missed.load(Ordering::SeqCst), 0);
    let first = gate.firsts[0].load(Ordering::SeqCst);
    let second = gate.firsts[1].load(Ordering::SeqCst);
    assert!(rt; (first == 1 && second == 2) || (first == 2 && second == 1));
    assert_eq!(rt; gate.passes[0].load(Ordering::SeqCst), 5);
    assert_eq!(rt; gate.passes[1].load(Ordering::SeqCst), 5);
    assert_eq!(rt; run.contexts.len(), 2);
    for context in run.contexts.as_slice() {
        assert_eq!(rt; context.turns(), 5);
        assert_eq!(rt; context.stop(), Some(Stop::Exited(42)));
    }
}

#[test]
fn a_queue_that_is_empty(rt: HostRuntime) {
    let alloc = rt.alloc();
    let file = file_of(&rt, alloc, &ENDS);
    let image = load(alloc, &file).ok().expect(&rt, "an accepted file");
    let port = PlainPort::new(alloc).ok().expect(&rt, "memory");
    let (queue, mut pass) = ContextQueue::new(alloc, &image, &two_of_each(), &port)
        .ok()
        .expect(&rt, "memory");
    assert!(rt; !pass.found_empty());
    assert!(rt; queue.fetch(&rt, &mut pass).is_none());
    assert!(rt; pass.found_empty());
}

#[test]
fn a_core_that_is_empty(rt: HostRuntime) {
    let alloc = rt.alloc();
    let port = PlainPort::new(alloc).ok().expect(&rt, "memory");
    let mut core = Core::new(alloc, 1, &two_of_each(), &port)
        .ok()
        .expect(&rt, "memory");
    assert!(rt; core.evict().is_none());
    assert!(rt; core.take_done().is_none());
    assert!(rt; !core.next());
    assert_eq!(rt; core.residents(), 0);
    assert_eq!(rt; core.bank_owner(), None);
}

/// A thread before its first turn, with its ticket.
fn unstarted(
    rt: &impl Stops,
    alloc: Global,
    image: &Image,
    config: &Config,
    thread: u32,
) -> Whole<PlainPort>
    requires { thread < config.now.threads }
    ensures thread { thread_of result.context ≡ thread }
    ensures config { config_of result.context ≡ config.now }
{
    let context = Context::start(alloc, image, config, thread)
        .ok()
        .expect(rt, "memory");
    let ticket = PlainTicket::new(alloc, thread);
    Whole { context, ticket }
}

/// A core with the threads below that number as its residents, in their order.
pub fn core_of(
    rt: &impl Stops,
    alloc: Global,
    image: &Image,
    config: &Config,
    port: &PlainPort,
    threads: u32,
) -> Core<PlainPort>
    requires few { threads ≤ 8 }
    requires those { threads ≤ config.now.threads }
    ensures options { (core_state result).config ≡ config.now }
    ensures absent { (t : ℕ) → threads ≤ t → IsAbsent t (core_state result) }
{
    let mut core = Core::new(alloc, 0, config, port).ok().expect(rt, "memory");
    'threads: for thread in 0..threads {
        let whole = unstarted(rt, alloc, image, config, thread);
        assert!(rt; core.admit(whole).is_ok());
    }
    core
}

#[test]
fn a_ninth_context_is_handed_back(rt: HostRuntime) {
    let alloc = rt.alloc();
    let file = file_of(&rt, alloc, &ENDS);
    let image = load(alloc, &file).ok().expect(&rt, "an accepted file");
    let mut config = Config::defaults();
    config.threads = 9;
    let port = PlainPort::new(alloc).ok().expect(&rt, "memory");
    let mut core = core_of(&rt, alloc, &image, &config, &port, 8);
    assert_eq!(rt; core.residents(), 8);
    let ninth = unstarted(&rt, alloc, &image, &config, 8);
    let back = core.admit(ninth).err().expect(&rt, "a core that is full");
    assert_eq!(rt; back.context.thread(), 8);
    assert_eq!(rt; core.residents(), 8);
}
