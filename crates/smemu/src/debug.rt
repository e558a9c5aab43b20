//! The debugger over a thread of a report.
ghost use Rattle.std.specs.Prelude.{◌≡◌, ◌<◌, IfOk, IfErr, OnOk, Ok};
ghost use Rattle.elf_loader.specs.Loading.{Loads};
ghost use Rattle.lone_runner.specs.Parting.{EndsAt};
ghost use Rattle.report_reader.specs.Report.{report_in};
ghost use Rattle.report_reader.specs.Told.{block_said, report_said};
ghost use Rattle.script_reader.specs.Script.{script_in};
ghost use Rattle.sme_debugger.specs.Session.{recording_of, place_of};
ghost use Rattle.smemu.specs.Debug.{AnswersEach};
ghost use Rattle.smemu.specs.Views.{EndsDebug, IsPartedRefusal, WritesEnd};
ghost use Rattle.smemu.specs.declared.answer.Answer.TheVariants as answers;

use crate::answer::Answer;
use crate::ending::{Difference, Ending};
use crate::files::Opened;
use crate::refusal::Refusal;
use crate::replay::check_match;
use command_lines::Status;
use edge_io::{PutFault, Sink};
use lone_runner::AloneFault;
use paged_memory::Image;
use report_reader::{Report, ReportBlock};
use script_reader::DebugCommand;
use sm_types::Config;
use sme_debugger::{DebugFault, Session};
use std::alloc::Global;

/// A session over a thread of a report, and the commands of a script that it is to carry out.
#[derive(Drop)]
pub struct Debugging {
    pub session: Session,
    pub commands: Vec<DebugCommand>,
}

/// A session at count 0 of the run of a block's thread, where running the thread alone ends with exactly the
/// journal and the count of the block.
fn open_session(
    alloc: Global,
    image: Image,
    config: Config,
    thread: u32,
    block: ReportBlock,
) -> Result<Session, Refusal>
    requires { thread < config.threads }
    ensures recording { IfOk result (λ session. recording_of session ≡ record {
      program = image;
      config = config;
      thread = thread;
      journal = block.journal.items;
      last = block.count;
    }) }
    ensures place { IfOk result (λ session. place_of session ≡ 0) }
    ensures ends { OnOk result (EndsAt image config thread block.journal.items block.count) }
    ensures parted { IfErr result (IsPartedRefusal image config thread (block_said block)) }
{
    let count = block.count;
    match Session::new(alloc, image, config, thread, block.journal, count) {
        Ok(session) => Ok(session),
        Err(AloneFault::Memory) => Err(Refusal::Memory),
        Err(fault) => Err(Refusal::Ended(Ending::Differs(Difference::Parts(fault)))),
    }
}

/// The session that is to carry out the commands of a script over a thread of a report.
pub fn debug_report(
    alloc: Global,
    file: Opened<Image>,
    report: Opened<Report>,
    thread: u32,
    script: Opened<Vec<DebugCommand>>,
) -> Result<Answer, Refusal>
    requires loads { Loads file.bytes.items file.content }
    requires reads { report_in report.bytes.items ≡ Ok (report_said report.content) }
    requires cores { report.content.config.cores ≡ 1 }
    requires script { script_in script.bytes.items ≡ Ok script.content.items }
    ensures { EndsDebug file.bytes.items report.bytes.items thread script.bytes.items result }
{
    check_match(file.bytes.as_slice(), thread, &report.content)?;
    let config = report.content.config;
    let mut blocks = report.content.blocks;
    let block = blocks.swap_remove(thread as usize);
    let session = open_session(alloc, file.content, config, thread, block)?;
    Ok(Answer::Session(Debugging {
        session,
        commands: script.content,
    }))
}

/// Carries out commands in their order; the answer of each is written when it comes.
fn answer_each<K: Sink>(
    session: &mut Session,
    commands: &[DebugCommand],
    out: &mut K,
) -> Result<(), DebugFault>
    ensures { AnswersEach (recording_of session.old) (place_of session.old) commands.now (K.view out.old)
        (K.view out.new) result }
{
    for command in commands {
        session.run_command(command, out)?;
    }
    Ok(())
}

/// Carries out the commands of a session, and writes their answers. With `OutOfMemory` those before one of
/// them were written.
pub fn write_session<K: Sink>(out: &mut K, it: Debugging) -> Result<Status, PutFault>
    ensures { WritesEnd (Ok (answers.Session it)) (K.view out.old) (K.view out.new) result }
{
    let Debugging {
        mut session,
        commands,
    } = it;
    match answer_each(&mut session, commands.as_slice(), out) {
        Ok(()) => Ok(Status::Done),
        Err(DebugFault::Put) => Err(PutFault::Failed),
        Err(DebugFault::Memory) => Ok(Status::OutOfMemory),
    }
}
