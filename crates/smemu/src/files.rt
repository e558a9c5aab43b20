//! The files that a command names: each is fetched with its limit, and accepted as what it is to be.
ghost use Rattle.std.specs.Prelude.{◌≡◌, All, IfOk, IfErr, None, Ok, map};
ghost use Rattle.std.specs.String.{string_bytes};
ghost use Rattle.asm_core.specs.Assembly.{Assembles};
ghost use Rattle.a64_encode.specs.Writable.{IsWritable};
ghost use Rattle.edge_io.specs.Files.{IsKept};
ghost use Rattle.elf_loader.specs.Loading.{Loads};
ghost use Rattle.plan_reader.specs.Plan.{plan_in};
ghost use Rattle.report_reader.specs.Report.{report_in};
ghost use Rattle.report_reader.specs.Told.{report_said, StandsIn};
ghost use Rattle.script_reader.specs.Script.{script_in};
ghost use Rattle.vector_runner.specs.Grammar.{vectors_in, IsVector};
ghost use Rattle.vector_runner.specs.Told.{vector_told};
ghost use Rattle.smemu.specs.Ends.{change};
ghost use Rattle.smemu.specs.Rejections.{ProgramFile, SourceFile, ReportFile, PlanFile, ScriptFile};
ghost use Rattle.smemu.specs.Rejections.{CheckpointFile, VectorsFile};
ghost use Rattle.smemu.specs.Rejections.{limit_of, program_judge, source_judge, report_judge};
ghost use Rattle.smemu.specs.Rejections.{plan_judge, script_judge, checkpoint_judge, vectors_judge};
ghost use Rattle.smemu.specs.Views.{IsFront, IsUnread, IsRejected, IsOpened, IsStateFor};
ghost use Rattle.smemu.specs.Views.{IsUnopened};

use crate::refusal::{Refusal, Unread};
use crate::rejection::Rejection;
use asm_core::{AsmFault, assemble};
use ckpt_file::{CkptFault, checkpoints_stand_in_blocks, read_ckpt};
use command_lines::{CheckpointFault, VectorsFault};
use edge_io::{FileFault, Files};
use elf_loader::{LoadFault, load};
use kernel_contexts::Loose;
use line_reader::TextFault;
use paged_memory::Image;
use plan_reader::read_plan;
use report_reader::{Report, ReportFault, read_report};
use script_reader::{DebugCommand, read_script};
use sm_types::{FILE_LIMIT, Object, VecLen, WorldEvent};
use std::alloc::Global;
use vector_runner::{Vector, VectorFault, read_vectors};

/// A file of more bytes than a program file, a source, a plan, a script, a checkpoint or a file of vectors
/// may have is fetched up to its first byte too many.
const FETCH_LIMIT: u64 = FILE_LIMIT as u64 + 1;

/// The same of a report.
const REPORT_LIMIT: u64 = 1_073_741_825;

/// A file that is accepted, and what it stands for.
#[derive(Drop)]
pub struct Opened<T> {
    pub bytes: Vec<u8>,
    pub content: T,
}

/// The bytes of the file of that name, or those of its front, as far as the limit.
fn fetch_file<F: Files>(
    alloc: Global,
    name: String,
    limit: u64,
    files: &mut F,
) -> Result<Vec<u8>, Refusal>
    ensures front { IfOk result (λ file.
        IsFront (F.view files.old).told limit (string_bytes name) file.items) }
    ensures unread { IfErr result (IsUnread (change F.view files.old files.new) (string_bytes name)) }
    ensures kept { IsKept (F.view files.old) (F.view files.new) }
    ensures fetched { F.fetched files.old (string_bytes name) limit files.new }
{
    match files.fetch(alloc, name.as_str(), limit) {
        Ok(file) => Ok(file),
        Err(FileFault::Absent) => Err(Refusal::Unread {
            name,
            why: Unread::Absent,
        }),
        Err(FileFault::Failed) => Err(Refusal::Unread {
            name,
            why: Unread::Failed,
        }),
        Err(FileFault::Memory) => Err(Refusal::Memory),
    }
}

/// The image of a program file.
fn load_file(alloc: Global, file: &[u8]) -> Result<Image, Refusal>
    ensures loads { IfOk result (λ image. Loads file.now image) }
    ensures rejected { IfErr result (IsRejected program_judge file.now) }
{
    match load(alloc, file) {
        Ok(image) => Ok(image),
        Err(LoadFault::Memory) => Err(Refusal::Memory),
        Err(fault) => Err(Refusal::Rejected(Rejection::Program(fault))),
    }
}

/// The object of a source.
fn assemble_file(alloc: Global, source: &[u8]) -> Result<Object, Refusal>
    ensures assembles { IfOk result (λ object. Assembles source.now object) }
    ensures sound { IfOk result IsWritable }
    ensures rejected { IfErr result (IsRejected source_judge source.now) }
{
    match assemble(alloc, source) {
        Ok(object) => Ok(object),
        Err(AsmFault::Memory) => Err(Refusal::Memory),
        Err(fault) => Err(Refusal::Rejected(Rejection::Source(fault))),
    }
}

/// What a report file says.
fn read_file(alloc: Global, bytes: &[u8]) -> Result<Report, Refusal>
    ensures reads { IfOk result (λ report. report_in bytes.now ≡ Ok (report_said report)) }
    ensures cores { IfOk result (λ report. report.config.cores ≡ 1) }
    ensures places { IfOk result (λ report. All (StandsIn bytes.now) report.blocks.items) }
    ensures rejected { IfErr result (IsRejected report_judge bytes.now) }
{
    match read_report(alloc, bytes) {
        Ok(report) => Ok(report),
        Err(ReportFault::Line { line, kind }) => {
            Err(Refusal::Rejected(Rejection::Report { line, kind }))
        }
        Err(ReportFault::Memory) => Err(Refusal::Memory),
    }
}

/// The events of a plan.
fn plan_file(alloc: Global, bytes: &[u8]) -> Result<Vec<WorldEvent>, Refusal>
    ensures planned { IfOk result (λ events. plan_in bytes.now ≡ Ok events.items) }
    ensures rejected { IfErr result (IsRejected plan_judge bytes.now) }
{
    match read_plan(alloc, bytes) {
        Ok(events) => Ok(events),
        Err(TextFault::Line { line, kind }) => {
            Err(Refusal::Rejected(Rejection::Plan { line, kind }))
        }
        Err(TextFault::Memory) => Err(Refusal::Memory),
    }
}

/// The commands of a script.
fn script_file(alloc: Global, bytes: &[u8]) -> Result<Vec<DebugCommand>, Refusal>
    ensures said { IfOk result (λ commands. script_in bytes.now ≡ Ok commands.items) }
    ensures rejected { IfErr result (IsRejected script_judge bytes.now) }
{
    match read_script(alloc, bytes) {
        Ok(commands) => Ok(commands),
        Err(TextFault::Line { line, kind }) => {
            Err(Refusal::Rejected(Rejection::Plan { line, kind }))
        }
        Err(TextFault::Memory) => Err(Refusal::Memory),
    }
}

/// The state of a checkpoint, for a report.
fn checkpoint_file(alloc: Global, bytes: &[u8], report: &Report) -> Result<Loose, Refusal>
    ensures read { IfOk result (IsStateFor (report_said report.now) report.now.config bytes.now) }
    ensures accepted { IfOk result (λ loose.
        checkpoint_judge (Ok (report_said report.now)) bytes.now ≡ None) }
    ensures rejected { IfErr result
        (IsRejected (checkpoint_judge (Ok (report_said report.now))) bytes.now) }
{
    checkpoints_stand_in_blocks();
    match read_ckpt(alloc, bytes, report) {
        Ok(loose) => Ok(loose),
        Err(CkptFault::TooLong) => {
            let fault = CheckpointFault::TooLong;
            Err(Refusal::Rejected(Rejection::Checkpoint(fault)))
        }
        Err(CkptFault::Field(offset)) => {
            let fault = CheckpointFault::Field(offset);
            Err(Refusal::Rejected(Rejection::Checkpoint(fault)))
        }
        Err(CkptFault::Memory) => Err(Refusal::Memory),
    }
}

/// The vectors of a file, for these lengths.
fn vectors_file(
    alloc: Global,
    bytes: &[u8],
    vl: VecLen,
    svl: VecLen,
) -> Result<Vec<Vector>, Refusal>
    ensures read { IfOk result (λ vectors. vectors_in vl svl bytes.now ≡ Ok (map vector_told vectors.items)) }
    ensures fit { IfOk result (λ vectors. All (IsVector vl svl) (map vector_told vectors.items)) }
    ensures rejected { IfErr result (IsRejected (vectors_judge vl svl) bytes.now) }
{
    match read_vectors(alloc, bytes, vl, svl) {
        Ok(vectors) => Ok(vectors),
        Err(VectorFault::TooLong) => {
            Err(Refusal::Rejected(Rejection::Vectors(VectorsFault::TooLong)))
        }
        Err(VectorFault::Line(line)) => {
            Err(Refusal::Rejected(Rejection::Vectors(VectorsFault::Line(line))))
        }
        Err(VectorFault::Memory) => Err(Refusal::Memory),
    }
}

/// The program file of that name, loaded.
pub fn open_program<F: Files>(
    alloc: Global,
    name: String,
    files: &mut F,
) -> Result<Opened<Image>, Refusal>
    ensures opened { IfOk result (λ it.
        IsOpened (F.view files.old).told (string_bytes name) program_judge it.bytes.items) }
    ensures loads { IfOk result (λ it. Loads it.bytes.items it.content) }
    ensures unopened { IfErr result
        (IsUnopened (change F.view files.old files.new) (string_bytes name) program_judge) }
    ensures kept { IsKept (F.view files.old) (F.view files.new) }
    ensures fetched { F.fetched files.old (string_bytes name) (limit_of ProgramFile) files.new }
{
    let bytes = fetch_file(alloc, name, FETCH_LIMIT, files)?;
    let content = load_file(alloc, bytes.as_slice())?;
    Ok(Opened { bytes, content })
}

/// The source of that name, assembled.
pub fn open_source<F: Files>(
    alloc: Global,
    name: String,
    files: &mut F,
) -> Result<Opened<Object>, Refusal>
    ensures opened { IfOk result (λ it.
        IsOpened (F.view files.old).told (string_bytes name) source_judge it.bytes.items) }
    ensures assembles { IfOk result (λ it. Assembles it.bytes.items it.content) }
    ensures sound { IfOk result (λ it. IsWritable it.content) }
    ensures unopened { IfErr result
        (IsUnopened (change F.view files.old files.new) (string_bytes name) source_judge) }
    ensures kept { IsKept (F.view files.old) (F.view files.new) }
    ensures fetched { F.fetched files.old (string_bytes name) (limit_of SourceFile) files.new }
{
    let bytes = fetch_file(alloc, name, FETCH_LIMIT, files)?;
    let content = assemble_file(alloc, bytes.as_slice())?;
    Ok(Opened { bytes, content })
}

/// The report of that name, read.
pub fn open_report<F: Files>(
    alloc: Global,
    name: String,
    files: &mut F,
) -> Result<Opened<Report>, Refusal>
    ensures opened { IfOk result (λ it.
        IsOpened (F.view files.old).told (string_bytes name) report_judge it.bytes.items) }
    ensures reads { IfOk result (λ it. report_in it.bytes.items ≡ Ok (report_said it.content)) }
    ensures cores { IfOk result (λ it. it.content.config.cores ≡ 1) }
    ensures places { IfOk result (λ it. All (StandsIn it.bytes.items) it.content.blocks.items) }
    ensures unopened { IfErr result
        (IsUnopened (change F.view files.old files.new) (string_bytes name) report_judge) }
    ensures kept { IsKept (F.view files.old) (F.view files.new) }
    ensures fetched { F.fetched files.old (string_bytes name) (limit_of ReportFile) files.new }
{
    let bytes = fetch_file(alloc, name, REPORT_LIMIT, files)?;
    let content = read_file(alloc, bytes.as_slice())?;
    Ok(Opened { bytes, content })
}

/// The plan of that name, read.
pub fn open_plan<F: Files>(
    alloc: Global,
    name: String,
    files: &mut F,
) -> Result<Opened<Vec<WorldEvent>>, Refusal>
    ensures opened { IfOk result (λ it.
        IsOpened (F.view files.old).told (string_bytes name) plan_judge it.bytes.items) }
    ensures planned { IfOk result (λ it. plan_in it.bytes.items ≡ Ok it.content.items) }
    ensures unopened { IfErr result
        (IsUnopened (change F.view files.old files.new) (string_bytes name) plan_judge) }
    ensures kept { IsKept (F.view files.old) (F.view files.new) }
    ensures fetched { F.fetched files.old (string_bytes name) (limit_of PlanFile) files.new }
{
    let bytes = fetch_file(alloc, name, FETCH_LIMIT, files)?;
    let content = plan_file(alloc, bytes.as_slice())?;
    Ok(Opened { bytes, content })
}

/// The script of that name, read.
pub fn open_script<F: Files>(
    alloc: Global,
    name: String,
    files: &mut F,
) -> Result<Opened<Vec<DebugCommand>>, Refusal>
    ensures opened { IfOk result (λ it.
        IsOpened (F.view files.old).told (string_bytes name) script_judge it.bytes.items) }
    ensures said { IfOk result (λ it. script_in it.bytes.items ≡ Ok it.content.items) }
    ensures unopened { IfErr result
        (IsUnopened (change F.view files.old files.new) (string_bytes name) script_judge) }
    ensures kept { IsKept (F.view files.old) (F.view files.new) }
    ensures fetched { F.fetched files.old (string_bytes name) (limit_of ScriptFile) files.new }
{
    let bytes = fetch_file(alloc, name, FETCH_LIMIT, files)?;
    let content = script_file(alloc, bytes.as_slice())?;
    Ok(Opened { bytes, content })
}

/// The checkpoint of that name, read for a report.
pub fn open_checkpoint<F: Files>(
    alloc: Global,
    name: String,
    report: &Report,
    files: &mut F,
) -> Result<Opened<Loose>, Refusal>
    ensures opened { IfOk result (λ it. IsOpened (F.view files.old).told (string_bytes name)
        (checkpoint_judge (Ok (report_said report.now))) it.bytes.items) }
    ensures read { IfOk result (λ it.
        IsStateFor (report_said report.now) report.now.config it.bytes.items it.content) }
    ensures unopened { IfErr result (IsUnopened (change F.view files.old files.new) (string_bytes name)
        (checkpoint_judge (Ok (report_said report.now)))) }
    ensures kept { IsKept (F.view files.old) (F.view files.new) }
    ensures fetched { F.fetched files.old (string_bytes name) (limit_of CheckpointFile) files.new }
{
    let bytes = fetch_file(alloc, name, FETCH_LIMIT, files)?;
    let content = checkpoint_file(alloc, bytes.as_slice(), report)?;
    Ok(Opened { bytes, content })
}

/// The file of vectors of that name, read for these lengths.
pub fn open_vectors<F: Files>(
    alloc: Global,
    name: String,
    vl: VecLen,
    svl: VecLen,
    files: &mut F,
) -> Result<Opened<Vec<Vector>>, Refusal>
    ensures opened { IfOk result (λ it.
        IsOpened (F.view files.old).told (string_bytes name) (vectors_judge vl svl) it.bytes.items) }
    ensures read { IfOk result (λ it.
        vectors_in vl svl it.bytes.items ≡ Ok (map vector_told it.content.items)) }
    ensures fit { IfOk result (λ it. All (IsVector vl svl) (map vector_told it.content.items)) }
    ensures unopened { IfErr result
        (IsUnopened (change F.view files.old files.new) (string_bytes name) (vectors_judge vl svl)) }
    ensures kept { IsKept (F.view files.old) (F.view files.new) }
    ensures fetched { F.fetched files.old (string_bytes name) (limit_of VectorsFile) files.new }
{
    let bytes = fetch_file(alloc, name, FETCH_LIMIT, files)?;
    let content = vectors_file(alloc, bytes.as_slice(), vl, svl)?;
    Ok(Opened { bytes, content })
}
