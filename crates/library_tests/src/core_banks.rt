//! The bank of a core: which thread owns it after each call, and how often it moves between threads.

use crate::cores::{core_of, file_of};
use core_unit::{Core, CoreRun, RunWhy};
use elf_loader::load;
use shared_region::PlainPort;
use sm_types::Config;

/// A call of a core.
#[derive(Clone, Copy)]
enum Call {
    Run(u32),
    Next,
    Evict,
}

/// Lets the first resident of a core make so many turns at most.
fn run_plain(core: &mut Core<PlainPort>, port: &mut PlainPort, k: u32) -> CoreRun {
    core.run(port, k)
}

/// `cbz x0` past three `movz`, then `ptrue p0.b, all` and an end: thread 0 comes to the predicate at once.
const PREDICATES: [u32; 7] = [
    0xb4000080, 0xd2800021, 0xd2800022, 0xd2800023, 0x2518e3e0, 0xd2800ba8, 0xd4000001,
];

#[test]
fn a_bank_stays_with_its_last_user(rt: HostRuntime) {
    let alloc = rt.alloc();
    let file = file_of(&rt, alloc, &PREDICATES);
    let image = load(alloc, &file).ok().expect(&rt, "an accepted file");
    let mut config = Config::defaults();
    config.threads = 2;
    let mut port = PlainPort::new(alloc).ok().expect(&rt, "memory");
    let mut core = core_of(&rt, alloc, &image, &config, &port, 2);
    // of each call the turns that it made, and then the first resident and the owner of the bank; a thread
    // that is taken out has its P0 in its save area
    let calls = [
        (Call::Run(1), 1, Some(0), None), // thread 0 jumps
        (Call::Run(1), 1, Some(0), Some(0)), // its predicate
        (Call::Next, 0, Some(1), Some(0)), // nothing moves
        (Call::Run(4), 4, Some(1), Some(0)), // thread 1 makes scalar turns beside it
        (Call::Run(1), 1, Some(1), Some(1)), // its predicate: one turn, though it is tried twice
        (Call::Next, 0, Some(0), Some(1)), // the owner stands behind
        (Call::Next, 0, Some(1), Some(1)),
        (Call::Evict, 0, Some(0), None), // the owner leaves
        (Call::Evict, 0, None, None), // one that does not own the bank leaves
    ];
    for (call, turns, first, owner) in calls {
        match call {
            Call::Run(k) => {
                let run = run_plain(&mut core, &mut port, k);
                assert_eq!(rt;
                    run,
                    CoreRun {
                        turns,
                        why: RunWhy::Spent
                    }
                );
            }
            Call::Next => assert!(rt; core.next()),
            Call::Evict => {
                let whole = core.evict().expect(&rt, "a resident");
                assert_eq!(rt;
                    whole.context.bank().vectors.p(0),
                    [0xff_u8, 0xff].as_slice()
                );
            }
        }
        assert_eq!(rt; core.first(), first);
        assert_eq!(rt; core.bank_owner(), owner);
    }
}

/// Thread 0 turns ZA on and clears it 1,000 times; then each thread counts down from 1,000 and ends.
const ONE_HAS_ZA: [u32; 12] = [
    0xb50000c0, 0xd503477f, 0xd2807d01, 0xc00800ff, 0xf1000421, 0x54ffffc1, // thread 0 alone
    0xd2807d01, 0xd503201f, 0xf1000421, 0x54ffffc1, 0xd2800ba8, 0xd4000001,
];

/// More runs than the threads of a core need.
const MOST_RUNS: u32 = 20_000;

// Eight threads by turns, of which one uses ZA: its vectors go into the bank once, and out of it where it
// stops.
#[test]
fn one_thread_with_za_moves_twice(rt: HostRuntime) {
    let alloc = rt.alloc();
    let file = file_of(&rt, alloc, &ONE_HAS_ZA);
    let image = load(alloc, &file).ok().expect(&rt, "an accepted file");
    let mut config = Config::defaults();
    config.threads = 8;
    let mut port = PlainPort::new(alloc).ok().expect(&rt, "memory");
    let mut core = core_of(&rt, alloc, &image, &config, &port, 8);
    let mut owner = None;
    let mut moves = 0_u32;
    let mut runs = 0_u32;
    for run in 0..MOST_RUNS {
        if core.residents() == 0 {
            break;
        }
        run_plain(&mut core, &mut port, 3);
        runs = run;
        if core.bank_owner() != owner {
            owner = core.bank_owner();
            moves = moves.wrapping_add(1);
        }
        core.next();
    }
    assert_eq!(rt; core.done(), 8);
    assert_eq!(rt; moves, 2);
    assert!(rt; runs > 8_000);
}
