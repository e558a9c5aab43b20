//! The lines of stops.

use crate::memory::FILE;
use edge_io::{MemSink, Piece};
use elf_loader::load;
use kernel_contexts::Context;
use report_text::write_block;
use sm_types::{Access, Config, Exception, Stop};
use text_lines::put_stop_line;

fn raised(exception: Exception) -> Stop {
    Stop::Raised {
        exception,
        pc: 0x40000c,
    }
}

#[test]
fn stops_are_written_with_their_values(rt: HostRuntime) {
    let address = 0x411000;
    let written = Exception::Data {
        address,
        access: Access::Write,
    };
    let read = Exception::Data {
        address: u64::MAX,
        access: Access::Read,
    };
    let cases = [
        (Stop::Exited(42), "stop exited 42\n"),
        (Stop::Killed(3), "stop killed 3\n"),
        (
            Stop::BadFrame(0x7dfffffb0c80),
            "stop badframe 00007dfffffb0c80\n",
        ),
        (Stop::Budget, "stop budget\n"),
        (Stop::TraceFull, "stop tracefull\n"),
        (Stop::OutputFull, "stop outputfull\n"),
        (
            raised(Exception::Undefined(0x1e604000)),
            "stop raised undefined 000000000040000c 1e604000\n",
        ),
        (
            raised(Exception::PcAlign),
            "stop raised pcalign 000000000040000c\n",
        ),
        (
            raised(Exception::Fetch),
            "stop raised fetch 000000000040000c\n",
        ),
        (
            raised(written),
            "stop raised data 000000000040000c 0000000000411000 write\n",
        ),
        (
            raised(read),
            "stop raised data 000000000040000c ffffffffffffffff read\n",
        ),
        (
            raised(Exception::SpAlign),
            "stop raised spalign 000000000040000c\n",
        ),
        (
            raised(Exception::Align(address)),
            "stop raised align 000000000040000c 0000000000411000\n",
        ),
        (
            raised(Exception::IllegalStreaming),
            "stop raised illegalstreaming 000000000040000c\n",
        ),
        (
            raised(Exception::NotStreaming),
            "stop raised notstreaming 000000000040000c\n",
        ),
        (
            raised(Exception::ZaInactive),
            "stop raised zainactive 000000000040000c\n",
        ),
        (
            raised(Exception::Breakpoint(1)),
            "stop raised breakpoint 000000000040000c 1\n",
        ),
        (
            raised(Exception::Shared(address)),
            "stop raised shared 000000000040000c 0000000000411000\n",
        ),
    ];
    let alloc = rt.alloc();
    for (stop, want) in cases {
        let mut sink = MemSink::new(alloc, 1000).ok().expect(&rt, "memory");
        let mut piece = Piece::new();
        assert_eq!(rt;
            put_stop_line(&mut piece, &mut sink, Some(stop)),
            Ok(()),
            "{want}"
        );
        assert_eq!(rt; piece.flush(&mut sink), Ok(()), "{want}");
        assert_eq!(rt; sink.bytes(), want.as_bytes(), "{want}");
    }
}

#[test]
fn a_thread_that_has_not_stopped(rt: HostRuntime) {
    let alloc = rt.alloc();
    let image = load(alloc, &FILE).ok().expect(&rt, "an accepted file");
    let context = Context::start(alloc, &image, &Config::defaults(), 0)
        .ok()
        .expect(&rt, "memory");
    let mut sink = MemSink::new(alloc, 1000).ok().expect(&rt, "memory");
    assert_eq!(rt; write_block(&context, &mut sink), Ok(()));
    let begin = b"thread 0\nstop none\ncount 0\nturns 0\npc ".as_slice();
    assert!(rt; sink.bytes().starts_with(begin));
}
