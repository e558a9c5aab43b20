//! The rest of the run of a guest thread of a report, from a checkpoint.
ghost use Rattle.std.specs.Prelude.{◌≡◌, ◌≤◌, IfOk, IfErr, All, Ok, length};
ghost use Rattle.elf_loader.specs.Loading.{Loads};
ghost use Rattle.kernel_contexts.specs.Loose.{IsSameLoose};
ghost use Rattle.lone_runner.specs.Resumed.{IsResumed};
ghost use Rattle.report_reader.specs.Report.{report_in};
ghost use Rattle.report_reader.specs.Told.{block_said, report_said, StandsIn};
ghost use Rattle.smemu.specs.Replay as replay;
ghost use Rattle.smemu.specs.Views.{ended_text, rest_in, ComparesSo, EndsResume, IsInBlock};
ghost use Rattle.smemu.specs.Views.{IsRestRefusal, IsStateFor};

use crate::answer::{Answer, Text};
use crate::ending::{Difference, Ending};
use crate::excerpt::Excerpt;
use crate::files::Opened;
use crate::refusal::Refusal;
use crate::replay::{check_match, compare_texts};
use kernel_contexts::Loose;
use lone_runner::{AloneFault, resume_alone};
use paged_memory::Image;
use report_compare::Kept;
use report_reader::{Report, ReportBlock};
use report_text::write_state_block;
use sm_types::Stop;
use std::alloc::Global;

/// Runs the thread on from its state, over what is left of a block's journal, to the block's count.
fn resume_block(alloc: Global, loose: Loose, block: &ReportBlock) -> Result<(Loose, Stop), Refusal>
    requires { IsInBlock (block_said block.now) loose }
    ensures run { IfOk result (λ end. IsResumed loose (rest_in (block_said block.now) loose) block.now.count
        end.0 end.1) }
    ensures same { IfOk result (λ end. IsSameLoose loose end.0) }
    ensures parted { IfErr result (IsRestRefusal (block_said block.now) loose) }
{
    let used = loose.events() as usize;
    let rest = &block.journal.as_slice()[used..];
    match resume_alone(alloc, loose, rest, block.count) {
        Ok(end) => Ok(end),
        Err(AloneFault::Memory) => Err(Refusal::Memory),
        Err(fault) => Err(Refusal::Ended(Ending::Differs(Difference::Parts(fault)))),
    }
}

/// Compares a block of the report with that of a thread that ended so.
fn compare_end(
    alloc: Global,
    report: &[u8],
    block: &ReportBlock,
    loose: &Loose,
    stop: Stop,
) -> Result<(), Refusal>
    requires places { StandsIn report.now block.now }
    requires size { length report.now ≤ 1073741824 }
    ensures { ComparesSo (replay.text_in report.now (block_said block.now)) block.now.first_line
        (ended_text loose.now stop block.now.journal.items) result }
{
    let text = &report[block.start..block.end];
    let mut end = Kept::new(alloc);
    if write_state_block(loose, stop, block.journal.as_slice(), &mut end).is_err() {
        return Err(Refusal::Memory);
    }
    compare_texts(alloc, text, block.first_line, end.bytes())
}

/// The rest of the run of a thread of a report, from a checkpoint of it: its block, where that stands in the
/// report.
pub fn resume_report(
    alloc: Global,
    file: &Opened<Image>,
    report: Opened<Report>,
    checkpoint: Opened<Loose>,
) -> Result<Answer, Refusal>
    requires loads { Loads file.now.bytes.items file.now.content }
    requires reads { report_in report.bytes.items ≡ Ok (report_said report.content) }
    requires cores { report.content.config.cores ≡ 1 }
    requires places { All (StandsIn report.bytes.items) report.content.blocks.items }
    requires state { IsStateFor (report_said report.content) report.content.config checkpoint.bytes.items
        checkpoint.content }
    ensures { EndsResume file.now.bytes.items report.bytes.items checkpoint.bytes.items result }
{
    let loose = checkpoint.content;
    let thread = loose.thread();
    check_match(file.bytes.as_slice(), thread, &report.content)?;
    let block = &report.content.blocks[thread as usize];
    let (end, stop) = resume_block(alloc, loose, block)?;
    compare_end(alloc, report.bytes.as_slice(), block, &end, stop)?;
    let (start, end) = (block.start, block.end);
    Ok(Answer::Text(Text::Block(Excerpt {
        text: report.bytes,
        start,
        end,
    })))
}
