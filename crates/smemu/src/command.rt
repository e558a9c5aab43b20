//! The command of the words.
ghost use Rattle.std.specs.Prelude.{◌≡◌, ◌≤◌, false, true, Err, IfOk, IfErr, IsOk, IsErr, Some, map};
ghost use Rattle.std.specs.String.{string_bytes};
ghost use Rattle.a64_encode.specs.Writable.{IsWritable};
ghost use Rattle.asm_core.specs.Assembly.{Assembles};
ghost use Rattle.cmd_words.specs.Command.{request_of, IsInRange};
ghost use Rattle.cmd_words.specs.Options.{default_options, with_number};
ghost use Rattle.cmd_words.specs.Words.{Request, command_of};
ghost use Rattle.cmd_words.specs.declared.command.Command.TheVariants as command;
ghost use Rattle.cmd_words.specs.declared.setting.Setting.TheVariants.{Cores};
ghost use Rattle.edge_io.specs.Files.{IsKept};
ghost use Rattle.elf_loader.specs.Loading.{Loads};
ghost use Rattle.sm_types.specs.Options.{numbers_of};
ghost use Rattle.smemu.specs.Answers.{IsReportOf, IsProgramOf};
ghost use Rattle.smemu.specs.Ends.{change, call, IsDone, IsRefused, IsComplete, Fetches};
ghost use Rattle.smemu.specs.Threads.{takes_threads, IsThreaded};
ghost use Rattle.smemu.specs.Views.{run_text, end_status, CarriesOut, EndsWords, WritesEnd, WritesStatus};
ghost use Rattle.smemu.specs.declared.refusal.Refusal.TheVariants as refusals;

use crate::answer::{Answer, RunReport, Text, write_text};
use crate::bench::run_workload;
use crate::check::check_report;
use crate::checkpoint::checkpoint_report;
use crate::debug::{debug_report, write_session};
use crate::files::{
    open_checkpoint, open_plan, open_program, open_report, open_script, open_source,
};
use crate::refusal::{Refusal, status_of, write_refusal};
use crate::replay::replay_report;
use crate::resume::resume_report;
use crate::run::run_on_one;
use crate::simulate::simulate;
use crate::threaded::{Threaded, carry_out_threaded, takes_threads};
use cmd_words::{Command, WordsFault, read_words};
use command_lines::Status;
use edge_io::{Files, Gate, PutFault, Sink};
use elf_loader::write_elf;
use paged_memory::Image;
use report_text::Head;
use sha2::{Digest, Sha256};
use sm_types::{Config, Memory, Object};
use std::alloc::Global;
use std::sync::Wait;
use std::thread::Threads;

/// The run of the image of a file, on one core.
fn run_image(
    alloc: Global,
    file: &[u8],
    config: &Config,
    image: &Image,
) -> Result<RunReport, Memory>
    requires { Loads file.now image.now }
    ensures { IfOk result (λ report. IsReportOf file.now config.now (run_text report)) }
{
    let run = run_on_one(alloc, image, config)?;
    Ok(RunReport {
        run,
        head: Head {
            config: *config,
            image: Sha256::digest(file),
        },
    })
}

/// The program file of the object of a source.
fn write_object(alloc: Global, source: &[u8], object: &Object) -> Result<Vec<u8>, Memory>
    requires assembles { Assembles source.now object.now }
    requires sound { IsWritable object.now }
    ensures { IfOk result (λ file. IsProgramOf source.now file.items) }
{
    let file = write_elf(alloc, object)?;
    Ok(file)
}

/// `run PROGRAM` with its options: the report of the run of that file, of all its threads, on
/// one core.
fn run_program<F: Files>(
    alloc: Global,
    program: String,
    config: &Config,
    files: &mut F,
) -> Result<Answer, Refusal>
    ensures { CarriesOut F.fetched F.view (request_of (command.Run program config.now)) files.old files.new
        result }
{
    let file = open_program(alloc, program, files)?;
    match run_image(alloc, file.bytes.as_slice(), config, &file.content) {
        Ok(report) => Ok(Answer::Text(Text::Report(report))),
        Err(Memory) => Err(Refusal::Memory),
    }
}

/// `sim PROGRAM PLAN` with its options: the events of that plan, for that file.
fn simulate_plan<F: Files>(
    alloc: Global,
    program: String,
    plan: String,
    config: &Config,
    files: &mut F,
) -> Result<Answer, Refusal>
    ensures { CarriesOut F.fetched F.view (request_of (command.Sim program plan config.now)) files.old
        files.new result }
{
    let file = open_program(alloc, program, files)?;
    let read = open_plan(alloc, plan, files)?;
    let events = read.content.as_slice();
    match simulate(
        alloc,
        file.bytes.as_slice(),
        &file.content,
        read.bytes.as_slice(),
        events,
        config,
    ) {
        Ok(simulation) => Ok(Answer::Text(Text::Simulation(simulation))),
        Err(Memory) => Err(Refusal::Memory),
    }
}

/// `dis PROGRAM`: the listing of that file.
fn list_program<F: Files>(alloc: Global, program: String, files: &mut F) -> Result<Answer, Refusal>
    ensures { CarriesOut F.fetched F.view (request_of (command.Dis program)) files.old files.new result }
{
    let file = open_program(alloc, program, files)?;
    Ok(Answer::Text(Text::Listing(file.content)))
}

/// `asm SOURCE`: the program file that the source of that name is assembled to.
fn assemble_source<F: Files>(
    alloc: Global,
    source: String,
    files: &mut F,
) -> Result<Answer, Refusal>
    ensures { CarriesOut F.fetched F.view (request_of (command.Asm source)) files.old files.new result }
{
    let file = open_source(alloc, source, files)?;
    match write_object(alloc, file.bytes.as_slice(), &file.content) {
        Ok(program) => Ok(Answer::Text(Text::Program(program))),
        Err(Memory) => Err(Refusal::Memory),
    }
}

/// `replay PROGRAM REPORT THREAD`: the block of that thread of the report, from running it alone.
fn replay_thread<F: Files>(
    alloc: Global,
    program: String,
    report: String,
    thread: u32,
    files: &mut F,
) -> Result<Answer, Refusal>
    ensures { CarriesOut F.fetched F.view (request_of (command.Replay program report thread)) files.old
        files.new result }
{
    let file = open_program(alloc, program, files)?;
    let read = open_report(alloc, report, files)?;
    replay_report(alloc, file.bytes.as_slice(), &file.content, read, thread)
}

/// `debug PROGRAM REPORT THREAD SCRIPT`: a session over that thread of the report, for the script's commands.
fn debug_thread<F: Files>(
    alloc: Global,
    program: String,
    report: String,
    thread: u32,
    script: String,
    files: &mut F,
) -> Result<Answer, Refusal>
    ensures { CarriesOut F.fetched F.view (request_of (command.Debug program report thread script)) files.old
        files.new result }
{
    let file = open_program(alloc, program, files)?;
    let read = open_report(alloc, report, files)?;
    let commands = open_script(alloc, script, files)?;
    debug_report(alloc, file, read, thread, commands)
}

/// `ckpt PROGRAM REPORT THREAD COUNT`: the checkpoint of that thread of the report at that count.
fn checkpoint_thread<F: Files>(
    alloc: Global,
    program: String,
    report: String,
    thread: u32,
    count: u32,
    files: &mut F,
) -> Result<Answer, Refusal>
    ensures { CarriesOut F.fetched F.view (request_of (command.Ckpt program report thread count)) files.old
        files.new result }
{
    let file = open_program(alloc, program, files)?;
    let read = open_report(alloc, report, files)?;
    let bytes = file.bytes.as_slice();
    checkpoint_report(alloc, bytes, &file.content, &read, thread, count)
}

/// `resume PROGRAM REPORT CKPT`: the rest of the run of the thread of that checkpoint.
fn resume_thread<F: Files>(
    alloc: Global,
    program: String,
    report: String,
    checkpoint: String,
    files: &mut F,
) -> Result<Answer, Refusal>
    ensures { CarriesOut F.fetched F.view (request_of (command.Resume program report checkpoint)) files.old
        files.new result }
{
    let file = open_program(alloc, program, files)?;
    let read = open_report(alloc, report, files)?;
    let state = open_checkpoint(alloc, checkpoint, &read.content, files)?;
    resume_report(alloc, &file, read, state)
}

/// `abi-check PROGRAM REPORT THREAD`: the check of the marked calls of that thread of the report.
fn check_thread<F: Files>(
    alloc: Global,
    program: String,
    report: String,
    thread: u32,
    files: &mut F,
) -> Result<Answer, Refusal>
    ensures { CarriesOut F.fetched F.view (request_of (command.AbiCheck program report thread)) files.old
        files.new result }
{
    let file = open_program(alloc, program, files)?;
    let read = open_report(alloc, report, files)?;
    check_report(alloc, file.bytes.as_slice(), &file.content, &read, thread)
}

/// The options of a workload on so many cores: four threads, and else those of a command that gives none.
pub fn bench_options(cores: u32) -> Config
    requires { (1 ≤ cores) × (cores ≤ 64) }
    ensures given { numbers_of result ≡ record (with_number default_options Cores cores) { threads = 4 } }
    ensures threads { result.threads ≡ 4 }
    ensures cores { result.cores ≡ cores }
{
    let mut config = Config::defaults();
    config.threads = 4;
    config.cores = cores;
    config
}

/// `bench N` with its option: the line of that workload, on one core.
fn bench<F: Files>(alloc: Global, number: u32, cores: u32, files: &mut F) -> Result<Answer, Refusal>
    requires number { number ≤ 20000 }
    requires cores { (1 ≤ cores) × (cores ≤ 64) }
    ensures { CarriesOut F.fetched F.view (request_of (command.Bench number cores)) files.old files.new
        result }
{
    let config = bench_options(cores);
    match run_workload(alloc, number, &config) {
        Ok(summary) => Ok(Answer::Text(Text::Summary(summary))),
        Err(Memory) => Err(Refusal::Memory),
    }
}

/// Carries out a command that takes no threads.
fn carry_out<F: Files>(alloc: Global, asked: Command, files: &mut F) -> Result<Answer, Refusal>
    requires in_range { IsInRange asked }
    requires alone { takes_threads (request_of asked) ≡ false }
    ensures { CarriesOut F.fetched F.view (request_of asked) files.old files.new result }
{
    match asked {
        Command::Run { program, config } => run_program(alloc, program, &config, files),
        Command::Sim {
            program,
            plan,
            config,
        } => simulate_plan(alloc, program, plan, &config, files),
        Command::Dis { program } => list_program(alloc, program, files),
        Command::Asm { source } => assemble_source(alloc, source, files),
        Command::Replay {
            program,
            report,
            thread,
        } => replay_thread(alloc, program, report, thread, files),
        Command::Debug {
            program,
            report,
            thread,
            script,
        } => debug_thread(alloc, program, report, thread, script, files),
        Command::Ckpt {
            program,
            report,
            thread,
            count,
        } => checkpoint_thread(alloc, program, report, thread, count, files),
        Command::Resume {
            program,
            report,
            checkpoint,
        } => resume_thread(alloc, program, report, checkpoint, files),
        Command::AbiCheck {
            program,
            report,
            thread,
        } => check_thread(alloc, program, report, thread, files),
        Command::Vectors { .. } => unreachable!(),
        Command::Gen { number } => Ok(Answer::Text(Text::Source(number))),
        Command::Bench { number, cores } => bench(alloc, number, cores, files),
        Command::Help => Ok(Answer::Text(Text::Help)),
        Command::Version => Ok(Answer::Text(Text::Version)),
    }
}

/// Carries out a command, where it takes no threads.
fn answer_asked<F: Files>(
    alloc: Global,
    asked: Command,
    files: &mut F,
) -> Result<Result<Answer, Refusal>, Threaded>
    requires { IsInRange asked }
    ensures carried { IfOk result (CarriesOut F.fetched F.view (request_of asked) files.old files.new) }
    ensures threaded { IfErr result (λ it. (request_of it.asked ≡ request_of asked) × IsThreaded it.asked
        × (files.new ≡ files.old)) }
    ensures kept { IsKept (F.view files.old) (F.view files.new) }
    ensures alone { takes_threads (request_of asked) ≡ false → IsOk result }
    ensures several { takes_threads (request_of asked) ≡ true → IsErr result }
{
    if takes_threads(&asked) {
        return Err(Threaded { asked });
    }
    Ok(carry_out(alloc, asked, files))
}

/// All that comes before the writing, where the words ask for no threads.
fn answer_words<F: Files>(
    alloc: Global,
    words: &[String],
    files: &mut F,
) -> Result<Result<Answer, Refusal>, Threaded>
    ensures ends { IfOk result (EndsWords (map string_bytes words.now) (change F.view files.old files.new)) }
    ensures kept { IsKept (F.view files.old) (F.view files.new) }
    ensures fetched { IfOk result (λ end.
        Fetches F.fetched F.view words.now files.old files.new (end_status end)) }
    ensures threaded { IfErr result (λ it. (command_of (map string_bytes words.now)
        ≡ Some (request_of it.asked)) × IsThreaded it.asked × (files.new ≡ files.old)) }
    ensures several { (request : Request) → command_of (map string_bytes words.now) ≡ Some request
        → takes_threads request ≡ true → IfOk result (λ end. end ≡ Err refusals.Memory) }
    ensures alone { (request : Request) → command_of (map string_bytes words.now) ≡ Some request
        → takes_threads request ≡ false → IsOk result }
{
    match read_words(alloc, words) {
        Ok(asked) => answer_asked(alloc, asked, files),
        Err(WordsFault::Usage { place, kind }) => Ok(Err(Refusal::Usage { place, kind })),
        Err(WordsFault::Memory) => Ok(Err(Refusal::Memory)),
    }
}

/// Writes the text of a command's end, and gives the status with which the command then ends.
fn write_end<K: Sink>(out: &mut K, end: Result<Answer, Refusal>) -> Result<Status, PutFault>
    ensures { WritesEnd end (K.view out.old) (K.view out.new) result }
{
    match end {
        Ok(Answer::Text(text)) => {
            write_text(out, &text)?;
            Ok(Status::Done)
        }
        Ok(Answer::Session(it)) => write_session(out, it),
        Err(refusal) => {
            write_refusal(out, &refusal)?;
            Ok(status_of(&refusal))
        }
    }
}

/// Writes the text of a command's end, as far as the output takes it: the status with which it ends.
fn finish<K: Sink>(out: &mut K, end: Result<Answer, Refusal>) -> Status
    ensures { WritesStatus end (K.view out.old) (K.view out.new) result }
{
    match write_end(out, end) {
        Ok(written) => written,
        Err(_) => Status::WriteFault,
    }
}

/// Carries out the command of the words as `smemu_main` does, where it takes no threads of the system: each
/// but `run` and `bench` on several cores, and `vectors`. It does not wait, so that it ends. `Err` is what
/// the words ask for that does take threads; no file is fetched then, and nothing is written. Of such words a
/// status comes for want of memory alone.
pub fn smemu_alone<F: Files, K: Sink>(
    alloc: Global,
    words: &[String],
    files: &mut F,
    out: &mut K,
) -> Result<Status, Threaded>
    ensures done { IfOk result
        (IsDone (call F.view K.view words.now files.old files.new out.old out.new)) }
    ensures refused { IfOk result
        (IsRefused (call F.view K.view words.now files.old files.new out.old out.new)) }
    ensures complete { IfOk result
        (IsComplete (call F.view K.view words.now files.old files.new out.old out.new)) }
    ensures kept { IsKept (F.view files.old) (F.view files.new) }
    ensures fetched { IfOk result (Fetches F.fetched F.view words.now files.old files.new) }
    ensures threaded { IfErr result (λ it. command_of (map string_bytes words.now)
        ≡ Some (request_of it.asked)) }
    ensures sound { IfErr result (λ it. IsThreaded it.asked) }
    ensures untouched { IfErr result (λ it. (files.new ≡ files.old) × (out.new ≡ out.old)) }
    ensures several { (request : Request) → command_of (map string_bytes words.now) ≡ Some request
        → takes_threads request ≡ true → IfOk result (λ status. status ≡ Status.OutOfMemory) }
    ensures alone { (request : Request) → command_of (map string_bytes words.now) ≡ Some request
        → takes_threads request ≡ false → IsOk result }
{
    let ended = answer_words(alloc, words, files)?;
    Ok(finish(out, ended))
}

/// Carries out the command of the words, which are the command line without the program's name, and writes
/// its text:
///
/// - `run PROGRAM` with its options runs the program file of that name: the report of its run;
/// - `sim PROGRAM PLAN` with its options makes the events of the plan of that name: which were skipped, the
///   report and the history;
/// - `replay PROGRAM REPORT THREAD` runs a thread of the report of that name alone: its block;
/// - `debug PROGRAM REPORT THREAD SCRIPT` carries out the commands of the script of that name over such a
///   run: what they print, each answer when it comes, so that with `OutOfMemory` those of earlier commands
///   may be written;
/// - `ckpt PROGRAM REPORT THREAD COUNT` makes such a run up to a count of its instructions: the checkpoint of
///   where it stands then;
/// - `resume PROGRAM REPORT CKPT` makes the rest of such a run from the checkpoint of that name: its block;
/// - `abi-check PROGRAM REPORT THREAD` makes such a run, and tells the first fault of its marked calls, or
///   how many of these returned;
/// - `dis PROGRAM` lists the program;
/// - `asm SOURCE` assembles the source of that name: the program file;
/// - `vectors FILE` with its options runs single instructions: what each does in the state of its line;
/// - `gen N` writes the source of a workload, and `bench N` runs it: one line;
/// - `--help` and `--version` write texts of their own.
///
/// Other words are answered by the line of their first fault. A run on several cores is made by as many
/// threads of the system, each of which passes the gate before it lets a guest thread run; vectors are
/// answered by as many as there are cores, each of which passes it before its first line. There the call may
/// wait.
pub fn smemu_main<R: Threads + Wait + Sync, F: Files, K: Sink, G: Gate + Sync>(
    rt: &R,
    alloc: Global,
    words: &[String],
    files: &mut F,
    out: &mut K,
    gate: &G,
) -> Status
    ensures done { IsDone (call F.view K.view words.now files.old files.new out.old out.new) result }
    ensures refused { IsRefused (call F.view K.view words.now files.old files.new out.old out.new) result }
    ensures complete { IsComplete (call F.view K.view words.now files.old files.new out.old out.new) result }
    ensures kept { IsKept (F.view files.old) (F.view files.new) }
    ensures fetched { Fetches F.fetched F.view words.now files.old files.new result }
{
    match smemu_alone(alloc, words, files, out) {
        Ok(status) => status,
        Err(threaded) => {
            let end = carry_out_threaded(rt, alloc, threaded, files, gate);
            finish(out, end)
        }
    }
}
