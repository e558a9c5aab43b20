//! A thread alone, over a journal, and where it and a report part.
ghost use Rattle.std.specs.Prelude.{◌<◌, ◌^◌, length};

use crate::memory::FILE;
use asm_core::assemble;
use elf_loader::{load, write_elf};
use kernel_contexts::Context;
use line_reader::first_difference;
use lone_runner::{AloneFault, run_alone, run_to};
use sm_types::{Access, Config, Event, Exception, OpKind, SharedOp, Stop};
use std::alloc::Global;
use std::process::Abort as Stops;

/// The stop of the file's thread: after its three instructions there is no code.
const STOP: Stop = Stop::Raised {
    exception: Exception::Undefined(0),
    pc: 0x40000c,
};

/// The journal of a thread that polled once, which the file's thread does not.
const POLL: [Event; 1] = [Event {
    op: SharedOp {
        kind: OpKind::Poll,
        place: 0,
        a: 0,
        b: 0,
    },
    answer: 0,
}];

/// Runs the file's thread to its stop, which is to come at the count.
fn alone(
    rt: &impl Stops,
    alloc: Global,
    journal: &[Event],
    count: u32,
) -> Result<Context, AloneFault>
    requires { length journal.now < 2 ^ 32 }
{
    let image = load(alloc, &FILE).ok().expect(rt, "an accepted file");
    run_alone(alloc, &image, &Config::defaults(), 0, journal, count)
}

#[test]
fn a_thread_runs_alone_to_its_count(rt: HostRuntime) {
    let alloc = rt.alloc();
    let context = alone(&rt, alloc, &[], 3).ok().expect(&rt, "a run");
    assert_eq!(rt; context.count(), 3);
    assert_eq!(rt; context.stop(), Some(STOP));
    assert_eq!(rt;
        alone(&rt, alloc, &[], 2).err(),
        Some(AloneFault::GoesOn(2))
    );
    let early = AloneFault::EndsEarly {
        count: 3,
        stop: STOP,
    };
    assert_eq!(rt; alone(&rt, alloc, &[], 4).err(), Some(early));
    assert_eq!(rt;
        alone(&rt, alloc, &POLL, 3).err(),
        Some(AloneFault::JournalLong(1))
    );
}

#[test]
fn a_thread_runs_to_a_count(rt: HostRuntime) {
    let alloc = rt.alloc();
    let image = load(alloc, &FILE).ok().expect(&rt, "an accepted file");
    let config = Config::defaults();
    let context = run_to(alloc, &image, &config, 0, &[], 2)
        .ok()
        .expect(&rt, "a run");
    assert_eq!(rt; context.count(), 2);
    assert_eq!(rt; context.stop(), None);
    assert_eq!(rt; context.machine().scalars.pc, 0x400008);
    assert_eq!(rt; context.machine().scalars.x[0], 3);
    let early = AloneFault::EndsEarly {
        count: 3,
        stop: STOP,
    };
    assert_eq!(rt;
        run_to(alloc, &image, &config, 0, &[], 4).err(),
        Some(early)
    );
}

#[test]
fn texts_differ_in_a_line(rt: HostRuntime) {
    let cases = [
        ("a\nb\n", "a\nc\n", 1, "b\n", "c\n"),
        ("a\n", "a\nb\n", 1, "", "b\n"),
        ("a\nb", "a\nb\n", 1, "b", "b\n"),
        ("\n", "", 0, "\n", ""),
    ];
    for (first, second, line, one, other) in cases {
        let it = first_difference(first.as_bytes(), second.as_bytes()).expect(&rt, "a difference");
        assert_eq!(rt; it.line, line, "{first}");
        assert_eq!(rt; it.first, one.as_bytes(), "{first}");
        assert_eq!(rt; it.second, other.as_bytes(), "{first}");
    }
    assert!(rt; first_difference(b"a\nb\n", b"a\nb\n").is_none());
    assert!(rt; first_difference(b"", b"").is_none());
}

#[test]
fn a_thread_that_writes_nothing_owns_no_page(rt: HostRuntime) {
    let alloc = rt.alloc();
    let mut file = FILE;
    // movz x0, #42 and movz x8, #93
    file[176..184].copy_from_slice(&[0x40, 0x05, 0x80, 0xd2, 0xa8, 0x0b, 0x80, 0xd2]);
    let image = load(alloc, &file).ok().expect(&rt, "an accepted file");
    let context = run_alone(alloc, &image, &Config::defaults(), 0, &[], 3)
        .ok()
        .expect(&rt, "a run");
    assert_eq!(rt; context.stop(), Some(Stop::Exited(42)));
    assert_eq!(rt; context.machine().pages.own_pages(), 0);
}

/// A byte is stored eight bytes before the end of a page, then 16 bytes from there on, and then 16 bytes
/// across the end of the last page.
const STORES: &[u8] = b"
.global _start
_start: adrp x2, values
 add x2, x2, #4088
 strb w0, [x2]
 stp x0, x1, [x2]
 add x2, x2, #1, lsl #12
 stp x0, x1, [x2]
.data
values: .zero 8192
";

#[test]
fn a_store_owns_the_pages_that_it_touches(rt: HostRuntime) {
    let alloc = rt.alloc();
    let object = assemble(alloc, STORES).ok().expect(&rt, "a good source");
    let file = write_elf(alloc, &object).ok().expect(&rt, "memory");
    let image = load(alloc, file.as_slice())
        .ok()
        .expect(&rt, "an accepted file");
    let config = Config::defaults();
    for (count, owned) in [(2, 0), (3, 1), (4, 2)] {
        let context = run_to(alloc, &image, &config, 0, &[], count)
            .ok()
            .expect(&rt, "a run");
        assert_eq!(rt; context.machine().pages.own_pages(), owned, "at {count}");
    }
    let context = run_alone(alloc, &image, &config, 0, &[], 5)
        .ok()
        .expect(&rt, "a run");
    let exception = Exception::Data {
        address: 0x403000,
        access: Access::Write,
    };
    let pc = 0x400014;
    assert_eq!(rt; context.stop(), Some(Stop::Raised { exception, pc }));
    assert_eq!(rt; context.machine().pages.own_pages(), 2);
}
