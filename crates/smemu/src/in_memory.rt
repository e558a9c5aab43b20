//! The command where nothing of the outside can fail.
ghost use Rattle.edge_io.specs.MemFiles as mem_files;
ghost use Rattle.edge_io.specs.MemSink as mem_sink;
ghost use Rattle.edge_io.specs.Files.{IsKept};
ghost use Rattle.edge_io.specs.MemFiles.{IsAfterFetch};
ghost use Rattle.smemu.specs.Ends.{call, IsDone, IsRefused, Fetches, LacksMemoryAlone};

use crate::command::smemu_main;
use command_lines::Status;
use edge_io::{MemFiles, MemSink, OpenGate};
use std::alloc::Global;
use std::sync::Wait;
use std::thread::Threads;

/// The command over files and a sink in memory. Where no call of either is listed to fail and there is room
/// for the text, what is due is answered, or `OutOfMemory`.
pub fn smemu_in_memory<R: Threads + Wait + Sync>(
    rt: &R,
    alloc: Global,
    words: &[String],
    files: &mut MemFiles,
    out: &mut MemSink,
) -> Status
    ensures done { IsDone (call mem_files.view_of mem_sink.view_of words.now files.old files.new out.old
        out.new) result }
    ensures refused { IsRefused (call mem_files.view_of mem_sink.view_of words.now files.old files.new
        out.old out.new)
        result }
    ensures kept { IsKept (mem_files.view_of files.old) (mem_files.view_of files.new) }
    ensures fetched { Fetches IsAfterFetch mem_files.view_of words.now files.old files.new result }
    ensures lacks { LacksMemoryAlone (call mem_files.view_of mem_sink.view_of words.now files.old
        files.new out.old
        out.new) result }
{
    smemu_main(rt, alloc, words, files, out, &OpenGate)
}
