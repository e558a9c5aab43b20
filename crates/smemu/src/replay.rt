//! The replay of a guest thread of a report: the thread is run alone, answered by its journal, and its block
//! is compared with the report's.
ghost use Rattle.std.specs.Prelude.{◌≡◌, ◌≤◌, ◌<◌, ◌^◌, IfOk, IfErr, OnOk, All, Ok, None, IsTrue, true};
ghost use Rattle.std.specs.Prelude.{length};
ghost use Rattle.sha2.specs.Sha256.{sha256};
ghost use Rattle.elf_loader.specs.Loading.{Loads};
ghost use Rattle.kernel_contexts.specs.Context.{journal_of, state_of, is_home};
ghost use Rattle.lone_runner.specs.LoneRun.{HasRunAlone};
ghost use Rattle.report_reader.specs.Report.{report_in};
ghost use Rattle.report_reader.specs.Told.{block_said, report_said, StandsIn};
ghost use Rattle.report_text.specs.Ends.{block_of};
ghost use Rattle.smemu.specs.Replay as spec;
ghost use Rattle.smemu.specs.Views.{IsUnmatched};
ghost use Rattle.smemu.specs.declared.refusal.Refusal.TheVariants as refusals;
ghost use Rattle.smemu.specs.Views.{ComparesSo, EndsReplay, IsOtherLine, IsPartedRefusal};

use crate::answer::{Answer, Text};
use crate::ending::{Difference, Ending};
use crate::excerpt::Excerpt;
use crate::files::Opened;
use crate::refusal::Refusal;
use kernel_contexts::Context;
use line_reader::{first_difference, is_word};
use lone_runner::{AloneFault, run_alone};
use paged_memory::Image;
use report_compare::{Comparison, Kept};
use report_reader::{Report, ReportBlock, ReportKind};
use report_text::write_block_as;
use sha2::{Digest, Sha256};
use sm_types::{Config, Version};
use std::alloc::Global;

/// Checks that a report is of this program, and has that thread.
pub fn check_match(file: &[u8], thread: u32, report: &Report) -> Result<(), Refusal>
    ensures ok { OnOk result (spec.mismatch (sha256 file.now) thread (report_said report.now) ≡ None) }
    ensures err { IfErr result (IsUnmatched file.now thread (report_said report.now)) }
{
    if report.image != Sha256::digest(file) {
        return Err(Refusal::Ended(Ending::Mismatch {
            line: 3,
            kind: ReportKind::Image,
        }));
    }
    if thread >= report.config.threads {
        return Err(Refusal::Ended(Ending::Mismatch {
            line: 2,
            kind: ReportKind::NoThread,
        }));
    }
    Ok(())
}

/// Runs the thread of a block alone, over its journal, to its count.
fn run_block(
    alloc: Global,
    image: &Image,
    config: &Config,
    thread: u32,
    block: &ReportBlock,
) -> Result<Context, Refusal>
    requires { thread < config.now.threads }
    ensures run { IfOk result (λ context. HasRunAlone image.now config.now thread context) }
    ensures journal { IfOk result (λ context. journal_of context ≡ block.now.journal.items) }
    ensures count { IfOk result (λ context. (state_of context).count ≡ block.now.count) }
    ensures parted { IfErr result (IsPartedRefusal image.now config.now thread (block_said block.now)) }
{
    match run_alone(
        alloc,
        image,
        config,
        thread,
        block.journal.as_slice(),
        block.count,
    ) {
        Ok(context) => Ok(context),
        Err(AloneFault::Memory) => Err(Refusal::Memory),
        Err(fault) => Err(Refusal::Ended(Ending::Differs(Difference::Parts(fault)))),
    }
}

/// A line of the report that is another in the replay.
fn other_line(alloc: Global, line: u64, report: &[u8], replay: &[u8]) -> Result<Difference, Refusal>
    ensures line { IfOk result (λ it. IsOtherLine line report.now replay.now it) }
    ensures memory { IfErr result (λ refusal. refusal ≡ refusals.Memory) }
{
    Ok(Difference::Lines {
        line,
        report: Vec::from_slice(alloc, report)?,
        replay: Vec::from_slice(alloc, replay)?,
    })
}

/// Whether the block of a thread that was run alone is that text, in a version of the report.
fn is_block(text: &[u8], version: Version, context: &Context) -> bool
    requires home { is_home context.now ≡ true }
    ensures { IsTrue result → text.now ≡ block_of version context.now }
{
    let mut comparison = Comparison::with(text);
    write_block_as(version, context, &mut comparison).is_ok() && is_word(comparison.came(), text)
}

/// Compares the text of a block of the report, whose first line has this number, with that of the replay.
pub fn compare_texts(
    alloc: Global,
    text: &[u8],
    first_line: u64,
    replay: &[u8],
) -> Result<(), Refusal>
    requires size { length text.now ≤ 1073741824 }
    requires lines { first_line < 2 ^ 63 }
    ensures { ComparesSo text.now first_line replay.now result }
{
    let Some(it) = first_difference(text, replay) else {
        return Ok(());
    };
    let line = first_line + it.line as u64;
    let other = other_line(alloc, line, it.first, it.second)?;
    Err(Refusal::Ended(Ending::Differs(other)))
}

/// Compares a block of the report with that of the thread that was run alone, in a version of the report.
fn compare(
    alloc: Global,
    report: &[u8],
    block: &ReportBlock,
    version: Version,
    context: &Context,
) -> Result<(), Refusal>
    requires places { StandsIn report.now block.now }
    requires size { length report.now ≤ 1073741824 }
    requires home { is_home context.now ≡ true }
    ensures { ComparesSo (spec.text_in report.now (block_said block.now)) block.now.first_line
        (block_of version context.now) result }
{
    let text = &report[block.start..block.end];
    if is_block(text, version, context) {
        return Ok(());
    }
    let mut replay = Kept::new(alloc);
    if write_block_as(version, context, &mut replay).is_err() {
        return Err(Refusal::Memory);
    }
    compare_texts(alloc, text, block.first_line, replay.bytes())
}

/// Where the block of a thread stands in its report, where running the thread alone comes to it.
fn replayed_block<'a>(
    alloc: Global,
    file: &[u8],
    image: &Image,
    bytes: &[u8],
    report: &'a Report,
    thread: u32,
) -> Result<&'a ReportBlock, Refusal>
    requires loads { Loads file.now image.now }
    requires reads { report_in bytes.now ≡ Ok (report_said report.now) }
    requires cores { report.now.config.cores ≡ 1 }
    requires places { All (StandsIn bytes.now) report.now.blocks.items }
    ensures same { IfOk result (λ block. spec.IsReplayOf file.now bytes.now thread
        (spec.text_in bytes.now (block_said block.now))) }
    ensures stands { IfOk result (λ block. StandsIn bytes.now block.now) }
    ensures ends { IfErr result (λ refusal. EndsReplay file.now bytes.now thread (Err refusal)) }
{
    check_match(file, thread, report)?;
    let block = &report.blocks[thread as usize];
    let context = run_block(alloc, image, &report.config, thread, block)?;
    compare(alloc, bytes, block, report.config.version(), &context)?;
    Ok(block)
}

/// The replay of a thread of a report: its block, where running it alone comes to the block that stands in
/// the report.
pub fn replay_report(
    alloc: Global,
    file: &[u8],
    image: &Image,
    report: Opened<Report>,
    thread: u32,
) -> Result<Answer, Refusal>
    requires loads { Loads file.now image.now }
    requires reads { report_in report.bytes.items ≡ Ok (report_said report.content) }
    requires cores { report.content.config.cores ≡ 1 }
    requires places { All (StandsIn report.bytes.items) report.content.blocks.items }
    ensures { EndsReplay file.now report.bytes.items thread result }
{
    let bytes = report.bytes.as_slice();
    let block = replayed_block(alloc, file, image, bytes, &report.content, thread)?;
    let (start, end) = (block.start, block.end);
    Ok(Answer::Text(Text::Block(Excerpt {
        text: report.bytes,
        start,
        end,
    })))
}
