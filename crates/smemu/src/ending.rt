//! The ends of a request whose files are accepted, but for its answer.
ghost use Rattle.std.specs.Prelude.{◌≡◌};
ghost use Rattle.edge_io.specs.Sink.{Writes};
ghost use Rattle.smemu.specs.Views.{difference_text, ending_status, ending_text};

use crate::check::kind_word;
use abi_checker::AbiKind;
use command_lines::{
    CheckpointFault, Status, write_checkpoint_fault, write_difference_lines, write_report_fault,
    write_unlawful,
};
use edge_io::{PutFault, Sink};
use lone_runner::AloneFault;
use report_compare::write_parting;
use report_reader::ReportKind;

/// How a request whose files are accepted ends, where it has no answer.
#[derive(Drop)]
pub enum Ending {
    /// The report is of another program, or has no such thread: the line that says so.
    Mismatch { line: u64, kind: ReportKind },
    /// The thread that is replayed and its report part.
    Differs(Difference),
    /// The count is not below that of the block, which is told: there is no checkpoint.
    Late(u32),
    /// A marked call of the thread is at fault: the count and the PC of the place, and the kind.
    Unlawful { count: u32, pc: u64, kind: AbiKind },
}

/// Where a thread that is replayed and its report part.
#[derive(Drop)]
pub enum Difference {
    /// The thread parts from the journal or from the count.
    Parts(AloneFault),
    /// A line of the report, by its number from 1, that is another in the replay, with both.
    Lines {
        line: u64,
        report: Vec<u8>,
        replay: Vec<u8>,
    },
}

/// Writes the lines that say where a thread and its report part.
fn write_difference<K: Sink>(out: &mut K, it: &Difference) -> Result<(), PutFault>
    ensures { Writes (K.view out.old) (K.view out.new) result (difference_text it.now) }
{
    match it {
        Difference::Parts(fault) => write_parting(out, *fault),
        Difference::Lines {
            line,
            report,
            replay,
        } => write_difference_lines(out, *line, report.as_slice(), replay.as_slice()),
    }
}

/// The status of an ending.
pub fn status_of_ending(ending: &Ending) -> Status
    ensures { result ≡ ending_status ending.now }
{
    match ending {
        Ending::Mismatch { .. } => Status::BadReport,
        Ending::Differs(_) => Status::Differs,
        Ending::Late(_) => Status::BadCheckpoint,
        Ending::Unlawful { .. } => Status::Unlawful,
    }
}

/// Writes the lines of an ending.
pub fn write_ending<K: Sink>(out: &mut K, ending: &Ending) -> Result<(), PutFault>
    ensures { Writes (K.view out.old) (K.view out.new) result (ending_text ending.now) }
{
    match ending {
        Ending::Mismatch { line, kind } => write_report_fault(out, *line, *kind),
        Ending::Differs(it) => write_difference(out, it),
        Ending::Late(end) => write_checkpoint_fault(out, CheckpointFault::Count(*end)),
        Ending::Unlawful { count, pc, kind } => {
            write_unlawful(out, *count, *pc, kind_word(*kind))
        }
    }
}
