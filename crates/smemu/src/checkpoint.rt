//! The checkpoint of a guest thread of a report, at a count of its instructions.
ghost use Rattle.std.specs.Prelude.{◌≡◌, ◌<◌, ◌≤◌, IfOk, IfErr, None, Ok, length, true};
ghost use Rattle.elf_loader.specs.Loading.{Loads};
ghost use Rattle.kernel_contexts.specs.Context.{config_of, image_of, is_home, journal_of, state_of, stop_of};
ghost use Rattle.kernel_contexts.specs.Context.{thread_of};
ghost use Rattle.lone_runner.specs.Parting.{IsShown};
ghost use Rattle.report_reader.specs.Report.{report_in};
ghost use Rattle.report_reader.specs.Told.{block_said, report_said};
ghost use Rattle.smemu.specs.Checkpoints.{StandsAt};
ghost use Rattle.smemu.specs.Views.{EndsCheckpoint, IsBeforeRefusal, IsShortRefusal};

use crate::answer::{Answer, Text};
use crate::ending::{Difference, Ending};
use crate::files::Opened;
use crate::refusal::Refusal;
use crate::replay::check_match;
use ckpt_file::{checkpoints_are_read, write_ckpt};
use kernel_contexts::Context;
use lone_runner::{AloneFault, run_to};
use paged_memory::Image;
use report_reader::{Report, ReportBlock};
use sm_types::Config;
use std::alloc::Global;

/// Runs the thread of a block alone, over its journal, until so many instructions are counted.
fn run_block_to(
    alloc: Global,
    image: &Image,
    config: &Config,
    thread: u32,
    block: &ReportBlock,
    count: u32,
) -> Result<Context, Refusal>
    requires { thread < config.now.threads }
    ensures image { IfOk result (λ context. image_of context ≡ image.now) }
    ensures config { IfOk result (λ context. config_of context ≡ config.now) }
    ensures shown { IfOk result (IsShown image.now config.now thread block.now.journal.items count) }
    ensures before { IfErr result (IsBeforeRefusal image.now config.now thread (block_said block.now) count) }
{
    match run_to(
        alloc,
        image,
        config,
        thread,
        block.journal.as_slice(),
        count,
    ) {
        Ok(context) => Ok(context),
        Err(AloneFault::Memory) => Err(Refusal::Memory),
        Err(fault) => Err(Refusal::Ended(Ending::Differs(Difference::Parts(fault)))),
    }
}

/// The thread of a block when so many instructions are counted, where it goes on then.
fn stand_at(
    alloc: Global,
    image: &Image,
    config: &Config,
    thread: u32,
    block: &ReportBlock,
    count: u32,
) -> Result<Context, Refusal>
    requires { thread < config.now.threads }
    ensures image { IfOk result (λ context. image_of context ≡ image.now) }
    ensures config { IfOk result (λ context. config_of context ≡ config.now) }
    ensures number { IfOk result (λ context. thread_of context ≡ thread) }
    ensures home { IfOk result (λ context. is_home context ≡ true) }
    ensures runs { IfOk result (λ context. stop_of context ≡ None) }
    ensures events { IfOk result (λ context.
        length (journal_of context) ≤ length block.now.journal.items) }
    ensures stands { IfOk result (λ context. StandsAt image.now config.now thread
        block.now.journal.items count (state_of context) (length (journal_of context))) }
    ensures short { IfErr result (IsShortRefusal image.now config.now thread (block_said block.now) count) }
{
    let context = run_block_to(alloc, image, config, thread, block, count)?;
    match context.stop() {
        Some(stop) => {
            let early = AloneFault::EndsEarly { count, stop };
            Err(Refusal::Ended(Ending::Differs(Difference::Parts(early))))
        }
        None => Ok(context),
    }
}

/// The checkpoint of a thread of a report, when so many instructions are counted.
pub fn checkpoint_report(
    alloc: Global,
    file: &[u8],
    image: &Image,
    report: &Opened<Report>,
    thread: u32,
    count: u32,
) -> Result<Answer, Refusal>
    requires loads { Loads file.now image.now }
    requires reads { report_in report.now.bytes.items ≡ Ok (report_said report.now.content) }
    requires cores { report.now.content.config.cores ≡ 1 }
    ensures { EndsCheckpoint file.now report.now.bytes.items thread count result }
{
    let content = &report.content;
    check_match(file, thread, content)?;
    let block = &content.blocks[thread as usize];
    if count >= block.count {
        return Err(Refusal::Ended(Ending::Late(block.count)));
    }
    let context = stand_at(alloc, image, &content.config, thread, block, count)?;
    checkpoints_are_read(&context);
    let bytes = write_ckpt(alloc, &context, &content.image)?;
    Ok(Answer::Text(Text::Checkpoint(bytes)))
}
