//! Why a file is not accepted.
ghost use Rattle.std.specs.Prelude.{◌≡◌};
ghost use Rattle.edge_io.specs.Sink.{Writes};
ghost use Rattle.smemu.specs.Rejections.{rejection_line, rejection_status};

use asm_core::AsmFault;
use command_lines::{
    CheckpointFault, Status, VectorsFault, write_checkpoint_fault, write_fault, write_plan_fault,
    write_report_fault, write_source_fault, write_vectors_fault,
};
use edge_io::{PutFault, Sink};
use elf_loader::LoadFault;
use line_reader::TextKind;
use report_reader::ReportKind;

/// Why a file is not accepted as what it is to be.
#[derive(Clone, Copy)]
pub enum Rejection {
    /// It is no program that is loaded.
    Program(LoadFault),
    /// It is no source that is assembled.
    Source(AsmFault),
    /// It is no report: its first line that is not in the format, and the part to which that should belong.
    Report { line: u64, kind: ReportKind },
    /// It is no plan, or no script: its first line that is not in the format, and what is wrong there.
    Plan { line: u64, kind: TextKind },
    /// It is no checkpoint for the report.
    Checkpoint(CheckpointFault),
    /// It is no file of vectors, for the lengths of the options.
    Vectors(VectorsFault),
}

/// The status of a rejection.
pub fn status_of_rejection(rejection: &Rejection) -> Status
    ensures { result ≡ rejection_status rejection.now }
{
    match rejection {
        Rejection::Program(_) => Status::BadFile,
        Rejection::Source(_) => Status::BadSource,
        Rejection::Report { .. } => Status::BadReport,
        Rejection::Plan { .. } => Status::BadPlan,
        Rejection::Checkpoint(_) => Status::BadCheckpoint,
        Rejection::Vectors(_) => Status::BadVectors,
    }
}

/// Writes the line of a rejection.
pub fn write_rejection<K: Sink>(out: &mut K, rejection: &Rejection) -> Result<(), PutFault>
    ensures { Writes (K.view out.old) (K.view out.new) result (rejection_line rejection.now) }
{
    match rejection {
        Rejection::Program(fault) => write_fault(out, *fault),
        Rejection::Source(fault) => write_source_fault(out, *fault),
        Rejection::Report { line, kind } => write_report_fault(out, *line, *kind),
        Rejection::Plan { line, kind } => write_plan_fault(out, *line, *kind),
        Rejection::Checkpoint(fault) => write_checkpoint_fault(out, *fault),
        Rejection::Vectors(fault) => write_vectors_fault(out, *fault),
    }
}
