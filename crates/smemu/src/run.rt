//! The run of all threads of an image.
ghost use Rattle.std.specs.Prelude.{◌≢◌, IfOk};
ghost use Rattle.report_text.specs.Ends.{ends_of};
ghost use Rattle.smemu.specs.Runs.{IsWholeRun};

use edge_io::Gate;
use kernel_contexts::Finished;
use paged_memory::Image;
use sm_types::{Config, Memory};
use smp_runner::run_cores;
use std::alloc::Global;
use std::sync::Wait;
use std::thread::Threads;
use world_core::run_one;

/// Runs all threads of an image on one core. `Memory` is want of memory.
pub fn run_on_one(alloc: Global, image: &Image, config: &Config) -> Result<Finished, Memory>
    ensures { IfOk result (λ run. IsWholeRun image.now config.now (ends_of run.contexts.items) run.words) }
{
    let run = run_one(alloc, image, config)?;
    Ok(run)
}

/// Runs all threads of an image on as many cores as the options say. `Memory` is want of memory.
pub fn run_on_cores<R: Threads + Wait + Sync, G: Gate + Sync>(
    rt: &R,
    alloc: Global,
    image: &Image,
    config: &Config,
    gate: &G,
) -> Result<Finished, Memory>
    requires { config.now.cores ≢ 1 }
    ensures { IfOk result (λ run. IsWholeRun image.now config.now (ends_of run.contexts.items) run.words) }
{
    let run = run_cores(rt, alloc, image, config, gate)?;
    Ok(run)
}
