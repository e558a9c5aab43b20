//! The emulator's command: `smemu_main` runs a program file with the options of the words and writes the
//! report of its run, makes the events of a plan and writes which were skipped, the report and the history,
//! lists a program's code words, assembles a source and writes the program file, runs a thread of a report
//! alone and writes its block, carries out a script of the debugger over such a run and writes what it shows,
//! writes a checkpoint of such a run or the block to which the rest of one comes, checks its marked calls,
//! answers the vectors of a file, or writes or runs a workload.
//!
//! Its contract says, for all words, files and sinks: with `Done` what the words ask for was written, which
//! is the report of the program that the file stands for, of which each thread ends as it does alone over its
//! journal, and the journals are one history; the report and the history of the world to which a plan's
//! events lead; a listing; the file of the program that a source is assembled to; the block of a thread whose
//! lone run comes to it; what the commands of a script print, each of the state that the lone run of a thread
//! shows where the commands before it led; the checkpoint of the state that it shows at a count; the block to
//! which the rest of a run comes from a checkpoint; how many marked calls of a lone run returned, of which none
//! is at fault; of each vector of a file what its instruction does in its state;
//! a workload's source, or the line of its run; or the text of help or of the version. Every other status but
//! `OutOfMemory` comes for its cause alone, with its line, or with `WriteFault` a part of a text; what is due
//! is answered, where the outside does not fail and there is memory; and each file that is reached was
//! fetched once, but where memory was wanting or a file could not be read perhaps only some, and nothing
//! else was.
#![tactic(auto)]

mod answer;
mod bench;
mod check;
mod checkpoint;
mod command;
mod debug;
mod ending;
mod excerpt;
mod files;
mod in_memory;
mod lines;
mod refusal;
mod rejection;
mod replay;
mod resume;
mod run;
mod simulate;
mod threaded;

pub use command::{smemu_alone, smemu_main};
pub use command_lines::{Status, refuse_foreign_word};
pub use in_memory::smemu_in_memory;
pub use threaded::Threaded;
