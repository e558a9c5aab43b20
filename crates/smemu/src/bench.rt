//! The run of a workload, of which one line is written.
ghost use Rattle.std.specs.Prelude.{◌≡◌, ◌≢◌, ◌≤◌, IfOk, length};
ghost use Rattle.edge_io.specs.Sink.{Writes};
ghost use Rattle.report_text.specs.Ends.{ends_of};
ghost use Rattle.smemu.specs.Bench.{all_counted, IsBenchOf};
ghost use Rattle.smemu.specs.Views.{summary_text};

use crate::run::{run_on_cores, run_on_one};
use edge_io::{Gate, PutFault, Sink, write_parts};
use kernel_contexts::Context;
use sm_types::{Config, Memory};
use std::alloc::Global;
use std::sync::Wait;
use std::thread::Threads;
use workload_image::load_source;

/// What a workload came to.
#[derive(Clone, Copy)]
pub struct Summary {
    /// Its number.
    pub number: u32,
    /// The instructions that its threads counted, added up.
    pub instructions: u64,
    /// Shared word 0 at the end.
    pub word: u64,
}

/// Writes the line of a workload.
#[tactic(auto, unfolding(crate::specs::Bench::bench_line))]
pub fn write_summary<K: Sink>(out: &mut K, summary: &Summary) -> Result<(), PutFault>
    ensures { Writes (K.view out.old) (K.view out.new) result (summary_text summary.now) }
{
    let mut number = itoa::Buffer::new();
    let mut counted = itoa::Buffer::new();
    let mut word = itoa::Buffer::new();
    write_parts(
        out,
        &[
            b"bench ",
            number.format(summary.number).as_bytes(),
            b" threads 4 instructions ",
            counted.format(summary.instructions).as_bytes(),
            b" word0 ",
            word.format(summary.word).as_bytes(),
            b"\n",
        ],
    )
}

/// The instructions that threads have counted, added up.
fn all_counted(contexts: &[Context]) -> u64
    requires { length contexts.now ≤ 32 }
    ensures { result ≡ all_counted (ends_of contexts.now) }
{
    let mut sum = 0u64;
    for k in 0..contexts.len() {
        sum += u64::from(contexts[k].count());
    }
    sum
}

/// Runs the workload of a number with four threads, on one core. `Memory` is want of memory.
pub fn run_workload(alloc: Global, number: u32, config: &Config) -> Result<Summary, Memory>
    requires number { number ≤ 20000 }
    requires threads { config.now.threads ≡ 4 }
    ensures { IfOk result (λ summary. IsBenchOf number config.now (summary_text summary)) }
{
    let image = load_source(alloc, number)?;
    let serial = run_on_one(alloc, &image, config)?;
    Ok(Summary {
        number,
        instructions: all_counted(serial.contexts.as_slice()),
        word: serial.words.shared[0],
    })
}

/// Runs the workload of a number with four threads, on as many cores as the options say. `Memory` is want of
/// memory.
pub fn run_workload_on_cores<R: Threads + Wait + Sync, G: Gate + Sync>(
    rt: &R,
    alloc: Global,
    number: u32,
    config: &Config,
    gate: &G,
) -> Result<Summary, Memory>
    requires number { number ≤ 20000 }
    requires threads { config.now.threads ≡ 4 }
    requires cores { config.now.cores ≢ 1 }
    ensures { IfOk result (λ summary. IsBenchOf number config.now (summary_text summary)) }
{
    let image = load_source(alloc, number)?;
    let run = run_on_cores(rt, alloc, &image, config, gate)?;
    Ok(Summary {
        number,
        instructions: all_counted(run.contexts.as_slice()),
        word: run.words.shared[0],
    })
}
