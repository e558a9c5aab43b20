//! Lazy saving of ZA: the words of `__arm_za_disable` and of the tail of a call, run in a thread.
ghost use Rattle.std.specs.Prelude.{◌≡◌, true, None};
ghost use Rattle.kernel_contexts.specs.Context.{is_home, thread_of, stop_of};

use asm_core::assemble;
use elf_loader::{load, write_elf};
use kernel_contexts::Context;
use lone_runner::run_to;
use shared_region::{ReplayPort, ReplayTicket};
use sm_types::Config;
use std::alloc::Global;
use std::process::Abort as Stops;
use za_routines::{RoutinePlaces, can_disable, can_return, run_disable, run_tail};

/// Puts a product into ZA whose row r has 16 r + 10 in each place, makes ZA dormant and calls
/// `__arm_za_disable`, after whose return the tail stands. The words are those of AAPCS64's routines.
const SOURCE: &[u8] = b"
.global _start
_start: smstart
 ptrue p0.b, all
 index z0.b, #1, #1
 dup z1.b, #1
 smopa za0.s, p0/m, p0/m, z0.b, z1.b
 adr x19, block
 msr tpidr2_el0, x19
 bl disable
tail: .word 0xd503457f, 0xd53bd0ae, 0xb500006e, 0xaa1303e0
 bl restore
 .word 0xd51bd0bf
 svc #0
disable: .word 0xd53bd0ae, 0xb40001ee, 0x794015cf, 0xb9400dd0, 0x2a1001ef
 .word 0x350001cf, 0xf94001d0, 0xb4000130, 0x794011ce, 0x340000ee
 .word 0x5280000f, 0xe1206200, 0x04305830, 0x110005ef, 0x4b0e01f1
 .word 0x35ffff91, 0xd51bd0bf, 0xd503447f, 0xd65f03c0, 0xd4200020
restore: .word 0xd53bd0ae, 0xb500020e, 0x7940140f, 0xb9400c10, 0x2a1001ef
 .word 0x3500018f, 0xf9400010, 0xb4000130, 0x7940100e, 0x340000ee
 .word 0x5280000f, 0xe1006200, 0x04305830, 0x110005ef, 0x4b0e01f1
 .word 0x35ffff91, 0xd65f03c0, 0xd4200020
.data
.align 4
buffer: .zero 256
";

const PLACES: RoutinePlaces = RoutinePlaces {
    disable: 0x40003c,
    restore: 0x40008c,
    tail: 0x400020,
};

/// The thread of the source with a block at its end, before the first word of `__arm_za_disable`.
fn called(rt: &impl Stops, alloc: Global, block: &[u8]) -> Context
    ensures home { is_home result ≡ true }
    ensures thread { thread_of result ≡ 0 }
    ensures runs { stop_of result ≡ None }
{
    let mut source = Vec::new(alloc);
    source.extend_from_slice(SOURCE).ok().expect(rt, "memory");
    source.extend_from_slice(block).ok().expect(rt, "memory");
    let object = assemble(alloc, source.as_slice())
        .ok()
        .expect(rt, "a good source");
    let file = write_elf(alloc, &object).ok().expect(rt, "memory");
    let image = load(alloc, file.as_slice())
        .ok()
        .expect(rt, "an accepted file");
    let context = run_to(alloc, &image, &Config::defaults(), 0, &[], 8)
        .ok()
        .expect(rt, "a run");
    assert!(rt; context.stop().is_none());
    context
}

/// The first byte of a vector of ZA, or 255 where there is no such vector.
fn first_byte(context: &Context, vector: usize) -> u8
    requires { is_home context.now ≡ true }
{
    let za = &context.bank().za;
    if vector >= za.size() {
        return 255;
    }
    za.vector(vector).first().copied().unwrap_or(255)
}

/// The first byte of each of three rows of the tile, which are vectors 0, 4 and 28.
fn rows(context: &Context) -> [u8; 3]
    requires { is_home context.now ≡ true }
{
    [
        first_byte(context, 0),
        first_byte(context, 4),
        first_byte(context, 28),
    ]
}

#[test]
fn za_is_saved_and_comes_back(rt: HostRuntime) {
    let cases = [
        (b"block: .quad buffer, 5\n".as_slice(), 39, 43, [10, 26, 0]),
        (b"block: .quad buffer, 0\n".as_slice(), 13, 17, [0, 0, 0]),
        (b"block: .quad 0, 7\n".as_slice(), 11, 15, [0, 0, 0]),
    ];
    for (block, disabling, returning, slices) in cases {
        let mut context = called(&rt, rt.alloc(), block);
        let mut port = ReplayPort::new();
        let mut ticket = ReplayTicket::new(0, Vec::new(rt.alloc()));
        assert_eq!(rt; rows(&context), [10, 26, 122]);
        assert!(rt; !can_return(&context, &PLACES));
        assert!(rt; can_disable(&context, &PLACES));
        let turns = run_disable(&mut context, &mut port, &mut ticket);
        assert_eq!(rt; turns, Ok(disabling));
        let machine = context.machine();
        assert_eq!(rt; machine.scalars.pc, PLACES.tail);
        assert!(rt; !machine.za_on);
        assert_eq!(rt; machine.tpidr2, 0);
        assert!(rt; !can_disable(&context, &PLACES));
        assert!(rt; can_return(&context, &PLACES));
        let turns = run_tail(&mut context, &mut port, &mut ticket);
        assert_eq!(rt; turns, Ok(returning));
        assert_eq!(rt; context.machine().scalars.pc, 0x400038);
        assert!(rt; context.machine().za_on);
        assert_eq!(rt; rows(&context), slices);
    }
}

#[test]
fn a_thread_that_is_not_ready_is_told(rt: HostRuntime) {
    let blocks = [
        b"block: .quad buffer, 33\n".as_slice(), // more slices than ZA has
        b"block: .quad buffer, 65536\n".as_slice(), // a byte past the number is not zero
        b" .zero 8\nblock: .quad buffer, 5\n".as_slice(), // no multiple of 16
        b"block: .quad block, 1\n".as_slice(), // the buffer is over the block
        b"block: .quad _start, 1\n".as_slice(), // it cannot be written
        b"block: .quad 0x7f0000000000, 1\n".as_slice(), // it is shared
    ];
    for block in blocks {
        let context = called(&rt, rt.alloc(), block);
        assert!(rt; !can_disable(&context, &PLACES));
    }
    let context = called(&rt, rt.alloc(), b"block: .quad buffer, 5\n");
    for places in [
        RoutinePlaces {
            disable: 0x400038,
            ..PLACES
        },
        RoutinePlaces {
            restore: 0x40003c,
            ..PLACES
        },
        RoutinePlaces {
            tail: 0x400024,
            ..PLACES
        },
    ] {
        assert!(rt; !can_disable(&context, &places));
    }
}
