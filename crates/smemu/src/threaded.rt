//! The commands that take threads of the system: `run` and `bench` on several cores, and `vectors`.
ghost use Rattle.std.specs.Prelude.{◌≡◌, ◌≢◌, ◌≤◌, IfOk};
ghost use Rattle.cmd_words.specs.Command.{request_of, IsInRange};
ghost use Rattle.cmd_words.specs.declared.command.Command.TheVariants as command;
ghost use Rattle.elf_loader.specs.Loading.{Loads};
ghost use Rattle.smemu.specs.Answers.{IsReportOf};
ghost use Rattle.smemu.specs.Threads as spec;
ghost use Rattle.smemu.specs.Views.{run_text, CarriesOut};

use crate::answer::{Answer, RunReport, Text};
use crate::bench::run_workload_on_cores;
use crate::command::bench_options;
use crate::files::{open_program, open_vectors};
use crate::refusal::Refusal;
use crate::run::run_on_cores;
use cmd_words::Command;
use edge_io::{Files, Gate};
use paged_memory::Image;
use report_text::Head;
use sha2::{Digest, Sha256};
use sm_types::{Config, Memory};
use std::alloc::Global;
use std::sync::Wait;
use std::thread::Threads;
use vector_runner::{one_file, run_vectors};

/// What words ask for that takes threads of the system.
#[derive(Drop)]
pub struct Threaded {
    pub(crate) asked: Command,
}

/// Whether a command takes threads: it is on several cores, or has workers for vectors.
pub fn takes_threads(asked: &Command) -> bool
    ensures { result ≡ spec.takes_threads (request_of asked.now) }
{
    match asked {
        Command::Run { config, .. } => config.cores != 1,
        Command::Bench { cores, .. } => *cores != 1,
        Command::Vectors { .. } => true,
        _ => false,
    }
}

/// The run of the image of a file, on several cores.
fn run_image<R: Threads + Wait + Sync, G: Gate + Sync>(
    rt: &R,
    alloc: Global,
    file: &[u8],
    config: &Config,
    image: &Image,
    gate: &G,
) -> Result<RunReport, Memory>
    requires loads { Loads file.now image.now }
    requires cores { config.now.cores ≢ 1 }
    ensures { IfOk result (λ report. IsReportOf file.now config.now (run_text report)) }
{
    let run = run_on_cores(rt, alloc, image, config, gate)?;
    Ok(RunReport {
        run,
        head: Head {
            config: *config,
            image: Sha256::digest(file),
        },
    })
}

/// `run PROGRAM` with its options: the report of the run of that file, of all its threads, on
/// several cores.
fn run_program<R: Threads + Wait + Sync, F: Files, G: Gate + Sync>(
    rt: &R,
    alloc: Global,
    program: String,
    config: &Config,
    files: &mut F,
    gate: &G,
) -> Result<Answer, Refusal>
    requires { config.now.cores ≢ 1 }
    ensures { CarriesOut F.fetched F.view (request_of (command.Run program config.now)) files.old files.new
        result }
{
    let file = open_program(alloc, program, files)?;
    match run_image(
        rt,
        alloc,
        file.bytes.as_slice(),
        config,
        &file.content,
        gate,
    ) {
        Ok(report) => Ok(Answer::Text(Text::Report(report))),
        Err(Memory) => Err(Refusal::Memory),
    }
}

/// `bench N` with its option: the line of that workload, on several cores.
fn bench<R: Threads + Wait + Sync, F: Files, G: Gate + Sync>(
    rt: &R,
    alloc: Global,
    number: u32,
    cores: u32,
    files: &mut F,
    gate: &G,
) -> Result<Answer, Refusal>
    requires number { number ≤ 20000 }
    requires cores { (1 ≤ cores) × (cores ≤ 64) }
    requires several { cores ≢ 1 }
    ensures { CarriesOut F.fetched F.view (request_of (command.Bench number cores)) files.old files.new
        result }
{
    let config = bench_options(cores);
    match run_workload_on_cores(rt, alloc, number, &config, gate) {
        Ok(summary) => Ok(Answer::Text(Text::Summary(summary))),
        Err(Memory) => Err(Refusal::Memory),
    }
}

/// `vectors FILE` with its options: the answers to the vectors of that file, by a worker for each core.
fn answer_vectors<R: Threads + Sync, F: Files, G: Gate + Sync>(
    rt: &R,
    alloc: Global,
    name: String,
    config: &Config,
    files: &mut F,
    gate: &G,
) -> Result<Answer, Refusal>
    ensures { CarriesOut F.fetched F.view (request_of (command.Vectors name config.now)) files.old files.new
        result }
{
    one_file();
    let (vl, svl) = (config.vl, config.svl);
    let read = open_vectors(alloc, name, vl, svl, files)?;
    let vectors = read.content.as_slice();
    match run_vectors(rt, alloc, vectors, vl, svl, config.cores, gate) {
        Ok(lines) => Ok(Answer::Text(Text::Lines(lines))),
        Err(Memory) => Err(Refusal::Memory),
    }
}

/// Carries out a command that takes threads.
pub fn carry_out_threaded<R: Threads + Wait + Sync, F: Files, G: Gate + Sync>(
    rt: &R,
    alloc: Global,
    it: Threaded,
    files: &mut F,
    gate: &G,
) -> Result<Answer, Refusal>
    requires { spec.IsThreaded it.asked }
    ensures { CarriesOut F.fetched F.view (request_of it.asked) files.old files.new result }
{
    let Threaded { asked } = it;
    match asked {
        Command::Run { program, config } => run_program(rt, alloc, program, &config, files, gate),
        Command::Bench { number, cores } => bench(rt, alloc, number, cores, files, gate),
        Command::Vectors { file, config } => answer_vectors(rt, alloc, file, &config, files, gate),
        _ => unreachable!(),
    }
}
