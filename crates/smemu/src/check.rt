//! The check of the marked calls of a guest thread of a report.
ghost use Rattle.std.specs.Prelude.{◌≡◌, ◌<◌, IfOk, IfErr, Ok};
ghost use Rattle.abi_checker.specs.Checked.{IsChecked};
ghost use Rattle.elf_loader.specs.Loading.{Loads};
ghost use Rattle.report_reader.specs.Report.{report_in};
ghost use Rattle.report_reader.specs.Told.{block_said, report_said};
ghost use Rattle.smemu.specs.Checks as spec;
ghost use Rattle.smemu.specs.Views.{EndsCheck, IsPartedRefusal};

use crate::answer::{Answer, Text};
use crate::ending::{Difference, Ending};
use crate::files::Opened;
use crate::refusal::Refusal;
use crate::replay::check_match;
use abi_checker::{Abi, AbiKind, check_abi};
use lone_runner::AloneFault;
use paged_memory::Image;
use report_reader::{Report, ReportBlock};
use sm_types::Config;
use std::alloc::Global;

/// The word of a kind of faults.
pub fn kind_word(kind: AbiKind) -> &'static [u8]
    ensures { result.now ≡ spec.kind_word kind }
{
    match kind {
        AbiKind::NotDormant => b"notdormant",
        AbiKind::NotLawful => b"notlawful",
        AbiKind::TooDeep => b"toodeep",
    }
}

/// What is told of the marked calls of a block's thread, which is run alone, over its journal, to its count.
fn check_block(
    alloc: Global,
    image: &Image,
    config: &Config,
    thread: u32,
    block: &ReportBlock,
) -> Result<Abi, Refusal>
    requires { thread < config.now.threads }
    ensures checked { IfOk result (IsChecked image.now config.now thread block.now.journal.items
        block.now.count) }
    ensures parted { IfErr result (IsPartedRefusal image.now config.now thread (block_said block.now)) }
{
    let journal = block.journal.as_slice();
    match check_abi(alloc, image, config, thread, journal, block.count) {
        Ok(abi) => Ok(abi),
        Err(AloneFault::Memory) => Err(Refusal::Memory),
        Err(fault) => Err(Refusal::Ended(Ending::Differs(Difference::Parts(fault)))),
    }
}

/// The check of the marked calls of a thread of a report: how many returned and how many did not, where none
/// is at fault.
pub fn check_report(
    alloc: Global,
    file: &[u8],
    image: &Image,
    report: &Opened<Report>,
    thread: u32,
) -> Result<Answer, Refusal>
    requires loads { Loads file.now image.now }
    requires reads { report_in report.now.bytes.items ≡ Ok (report_said report.now.content) }
    requires cores { report.now.content.config.cores ≡ 1 }
    ensures { EndsCheck file.now report.now.bytes.items thread result }
{
    let content = &report.content;
    check_match(file, thread, content)?;
    let block = &content.blocks[thread as usize];
    let abi = check_block(alloc, image, &content.config, thread, block)?;
    match abi {
        Abi::Yes { calls, unreturned } => Ok(Answer::Text(Text::Lawful { calls, unreturned })),
        Abi::No { count, pc, kind } => Err(Refusal::Ended(Ending::Unlawful { count, pc, kind })),
    }
}
