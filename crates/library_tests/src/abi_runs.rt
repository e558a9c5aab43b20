//! The checker of the lazy saving rules: what it tells of runs whose counts and places are worked out by
//! hand.
use abi_checker::{Abi, AbiKind, check_abi};
use asm_core::assemble;
use elf_loader::{load, write_elf};
use lone_runner::AloneFault;
use paged_memory::Image;
use sm_types::{Config, Stop};
use std::alloc::Global;
use std::process::Abort as Stops;

/// A block of 32 slices and its buffer, for a ZA of 32 vectors of 32 bytes, behind the routines.
const DATA: &[u8] = b"
 .sme_abi
 .data
 .align 4
block: .quad buffer
 .quad 32
buffer: .zero 1024
";

/// Makes ZA dormant with the block at X19.
const DORMANT: &[u8] = b"
 .global _start
_start: adr x19, block
 smstart za
 msr tpidr2_el0, x19
";

/// The same, with a slice of ZA that is not zero.
const DIRTY: &[u8] = b"
 .global _start
_start: adr x19, block
 smstart za
 mov w12, #0
 ldr za[w12, 0], [x19]
 msr tpidr2_el0, x19
";

/// Leaves ZA active.
const ACTIVE: &[u8] = b"
 .global _start
_start: adr x19, block
 smstart za
";

/// Calls with the tail behind it, and exits.
const CALLS: &[u8] = b"
 bl callee
 .sme_tail
 movz x8, #93
 svc #0
";

/// Calls and exits, with nothing behind the call.
const CALLS_PLAINLY: &[u8] = b"
 bl callee
 movz x8, #93
 svc #0
";

/// A callee that saves ZA.
const SAVES: &[u8] = b"callee: b __arm_za_disable\n";

/// One that returns at once.
const RETURNS: &[u8] = b"callee: ret\n";

/// One that turns ZA off and saves nothing.
const LOSES: &[u8] = b"callee: smstop za\n ret\n";

/// One that leaves ZA active and zero.
const CLEARS: &[u8] = b"callee: smstop za\n smstart za\n ret\n";

/// One that comes back with SP below what it was, which is no return.
const LEAVES_SP: &[u8] = b"callee: sub sp, sp, #16\n ret\n";

/// One that calls another with a tail behind it, and makes ZA dormant again.
const CALLS_ON: &[u8] = b"
callee: mov x21, x30
 bl inner
 .sme_tail
 msr tpidr2_el0, x19
 br x21
inner: ret
";

/// One that leaves it active there.
const CALLS_ON_AND_FORGETS: &[u8] = b"
callee: mov x21, x30
 bl inner
 .sme_tail
 br x21
inner: ret
";

/// One that calls itself, with a tail behind it.
const RECURS: &[u8] = b"callee: bl callee\n .sme_tail\n";

/// Calls twice, with the tail behind the call, and exits.
const CALLS_TWICE: &[u8] = b"
 movz x20, #2
again: bl callee
 .sme_tail
 msr tpidr2_el0, x19
 subs x20, x20, #1
 b.ne again
 movz x8, #93
 svc #0
";

/// A callee that turns ZA off and saves nothing when it is called the last time.
const LOSES_AT_LAST: &[u8] = b"
callee: cmp x20, #1
 b.ne back
 smstop za
back: ret
";

/// A source and a budget, the count to which its run is checked, and what is told of it.
struct Case<'a> {
    parts: [&'a [u8]; 3],
    budget: u32,
    count: u32,
    told: Result<Abi, AloneFault>,
}

const CASES: [Case; 15] = [
    Case {
        parts: [DORMANT, CALLS, SAVES],
        budget: 1000,
        count: 359,
        told: Ok(Abi::Yes {
            calls: 1,
            unreturned: 0,
        }),
    },
    Case {
        parts: [DORMANT, CALLS, RETURNS],
        budget: 1000,
        count: 11,
        told: Ok(Abi::Yes {
            calls: 1,
            unreturned: 0,
        }),
    },
    Case {
        parts: [DORMANT, CALLS_PLAINLY, RETURNS],
        budget: 1000,
        count: 7,
        told: Ok(Abi::Yes {
            calls: 0,
            unreturned: 0,
        }),
    },
    Case {
        parts: [DORMANT, CALLS, LOSES],
        budget: 1000,
        count: 12,
        told: Ok(Abi::No {
            count: 6,
            pc: 0x400010,
            kind: AbiKind::NotLawful,
        }),
    },
    Case {
        parts: [DIRTY, CALLS, CLEARS],
        budget: 1000,
        count: 15,
        told: Ok(Abi::No {
            count: 9,
            pc: 0x400018,
            kind: AbiKind::NotLawful,
        }),
    },
    Case {
        parts: [ACTIVE, CALLS, RETURNS],
        budget: 1000,
        count: 184,
        told: Ok(Abi::No {
            count: 3,
            pc: 0x40002c,
            kind: AbiKind::NotDormant,
        }),
    },
    Case {
        parts: [DORMANT, CALLS, LEAVES_SP],
        budget: 1000,
        count: 12,
        told: Ok(Abi::Yes {
            calls: 0,
            unreturned: 1,
        }),
    },
    Case {
        parts: [DORMANT, CALLS, CALLS_ON],
        budget: 1000,
        count: 19,
        told: Ok(Abi::Yes {
            calls: 2,
            unreturned: 0,
        }),
    },
    Case {
        parts: [DORMANT, CALLS, CALLS_ON_AND_FORGETS],
        budget: 1000,
        count: 192,
        told: Ok(Abi::No {
            count: 12,
            pc: 0x400010,
            kind: AbiKind::NotLawful,
        }),
    },
    Case {
        parts: [DORMANT, CALLS_TWICE, RETURNS],
        budget: 1000,
        count: 24,
        told: Ok(Abi::Yes {
            calls: 2,
            unreturned: 0,
        }),
    },
    Case {
        parts: [DORMANT, CALLS_TWICE, LOSES_AT_LAST],
        budget: 1000,
        count: 29,
        told: Ok(Abi::No {
            count: 20,
            pc: 0x400014,
            kind: AbiKind::NotLawful,
        }),
    },
    Case {
        parts: [DORMANT, RECURS, b""],
        budget: 259,
        count: 259,
        told: Ok(Abi::Yes {
            calls: 0,
            unreturned: 256,
        }),
    },
    Case {
        parts: [DORMANT, RECURS, b""],
        budget: 300,
        count: 300,
        told: Ok(Abi::No {
            count: 260,
            pc: 0x40000c,
            kind: AbiKind::TooDeep,
        }),
    },
    Case {
        parts: [DORMANT, CALLS, LOSES],
        budget: 1000,
        count: 13,
        told: Err(AloneFault::EndsEarly {
            count: 12,
            stop: Stop::Exited(0),
        }),
    },
    Case {
        parts: [DORMANT, CALLS, LOSES],
        budget: 1000,
        count: 11,
        told: Err(AloneFault::GoesOn(11)),
    },
];

/// The image of a source.
fn image_of(rt: &impl Stops, alloc: Global, parts: &[&[u8]]) -> Image {
    let mut source = Vec::new(alloc);
    for part in parts {
        source.extend_from_slice(part).ok().expect(rt, "memory");
    }
    source.extend_from_slice(DATA).ok().expect(rt, "memory");
    let object = assemble(alloc, source.as_slice())
        .ok()
        .expect(rt, "a good source");
    let file = write_elf(alloc, &object).ok().expect(rt, "memory");
    load(alloc, file.as_slice())
        .ok()
        .expect(rt, "an accepted file")
}

#[test]
fn of_each_run_that_is_told(rt: HostRuntime) {
    let alloc = rt.alloc();
    for case in &CASES {
        let image = image_of(&rt, alloc, &case.parts);
        let mut config = Config::defaults();
        config.budget = case.budget;
        let told = check_abi(alloc, &image, &config, 0, &[], case.count);
        assert!(rt; told == case.told);
    }
}
