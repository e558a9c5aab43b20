//! What the command says of itself.
ghost use Rattle.edge_io.specs.Sink.{Writes};
ghost use Rattle.command_lines.specs.Texts as text;

use edge_io::{PutFault, Sink};

/// The commands, their options, the statuses, and what the usual refusals of a program file mean.
pub const HELP: &[u8] = b"\
smemu runs AArch64 programs and reports what they did, and assembles them.

commands:
  run PROGRAM   runs the ELF64 file PROGRAM and writes the report of its run
  sim PROGRAM PLAN
                runs PROGRAM on cores by the events of the plan PLAN, and writes which of
                them were skipped, the report and the history
  dis PROGRAM   lists the code words of the ELF64 file PROGRAM: address, word and text
  asm SOURCE    assembles SOURCE and writes the ELF64 file of the program
  replay PROGRAM REPORT THREAD
                runs thread THREAD of the report REPORT of PROGRAM alone and writes its block
  debug PROGRAM REPORT THREAD SCRIPT
                runs that thread alone, and writes what the commands of SCRIPT show of it
  ckpt PROGRAM REPORT THREAD COUNT
                runs that thread alone to COUNT instructions and writes its checkpoint
  resume PROGRAM REPORT CKPT
                runs the thread of the checkpoint CKPT on from there and writes its block
  abi-check PROGRAM REPORT THREAD
                runs that thread alone and checks the callee of each marked call
  vectors FILE  runs the single instructions of FILE, each on the state of its line
  gen N         writes the assembler source of workload N: 1 to 20000
  bench N       runs workload N with four guest threads and writes what they counted
  --help        writes this text
  --version     writes the version

options of run and sim, of which vectors takes --vl, --svl and --cores, and bench --cores,
in any order, each at most once:
  --vl BITS     vector length outside streaming mode: 128, 256, 512, 1024 or 2048; else 128
  --svl BITS    vector length in streaming mode: 128, 256, 512, 1024 or 2048; else 256
  --slice N     instructions between polls of the pending signals: 1 to 1000000; else 1000
  --budget N    instructions after which a thread is stopped: 1 to 4294967295; else 10000000
  --threads N   guest threads: 1 to 32; else 1
  --cores N     cores: 1 to 64; else 1

statuses:
  0   the text was written
  2   usage: word P: KIND, where the words are no command; P counts from 0
  3   absent: NAME, where there is no file of that name
  4   read fault: NAME, where the file could not be read
  5   the output could not be written
  6   bad file: KIND VALUES, where the file is no program that is loaded
  7   bad source: line L: KIND VALUES, where the file is no source that is assembled
  8   there was no memory
  9   bad report: line L: KIND, where the file is no report of PROGRAM with that thread
  10   differs: where the thread and its report part: a line of both, or KIND VALUES
  11   bad plan: line L: KIND, where the file is no plan, or no script
  12   bad checkpoint: toolong, or field K, or count C, where the file is no checkpoint of
       REPORT, or COUNT is not below C
  13   unlawful: count C pc H KIND, where a marked call is at fault
  14   bad vectors: toolong, or line L, where the file is no file of vectors

what the usual refusals of a program file mean:
  notstatic 1   an object file: link it
  notstatic 3   link it with -static -no-pie
  notstatic 7   thread-local storage, as a library of C has: link it with -nostdlib
  truncated N   with a small N the file may be a refusal of asm, with its text
  unlisted      an instruction that is not there: see docs/FROM_C.md
";

/// The version of the command.
pub const VERSION: &[u8] = b"smemu 0.1.0\n";

/// Writes the text of help.
#[tactic(auto, unfolding(crate::specs::Texts::help_text))]
pub fn write_help<K: Sink>(out: &mut K) -> Result<(), PutFault>
    ensures { Writes (K.view out.old) (K.view out.new) result text.help_text }
{
    out.put(HELP)
}

/// Writes the line of the version.
#[tactic(auto, unfolding(crate::specs::Texts::version_text))]
pub fn write_version<K: Sink>(out: &mut K) -> Result<(), PutFault>
    ensures { Writes (K.view out.old) (K.view out.new) result text.version_text }
{
    out.put(VERSION)
}
