//! The line for which a checkpoint is refused.
ghost use Rattle.edge_io.specs.Sink.{Writes};
ghost use Rattle.command_lines.specs.CheckpointLines.{checkpoint_line};

use crate::numbered_line::write_numbered;
use edge_io::{PutFault, Sink};

/// Why a checkpoint is refused.
#[derive(Clone, Copy, Debug, PartialEq, Eq)]
pub enum CheckpointFault {
    /// The file is too long.
    TooLong,
    /// The offset of its first field that is not whole, or not as it must be.
    Field(u64),
    /// The count of the thread's end, below which there are checkpoints.
    Count(u32),
}

/// Writes the line for which a checkpoint is refused.
#[tactic(auto, unfolding(crate::specs::CheckpointLines::checkpoint_line))]
pub fn write_checkpoint_fault<K: Sink>(out: &mut K, fault: CheckpointFault) -> Result<(), PutFault>
    ensures { Writes (K.view out.old) (K.view out.new) result (checkpoint_line fault) }
{
    match fault {
        CheckpointFault::TooLong => out.put(b"bad checkpoint: toolong\n"),
        CheckpointFault::Field(offset) => write_numbered(out, b"bad checkpoint: field ", offset),
        CheckpointFault::Count(count) => {
            write_numbered(out, b"bad checkpoint: count ", u64::from(count))
        }
    }
}
