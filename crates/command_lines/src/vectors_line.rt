//! The line for which a file of vectors is refused.
ghost use Rattle.edge_io.specs.Sink.{Writes};
ghost use Rattle.command_lines.specs.VectorsLines.{vectors_line};

use crate::numbered_line::write_numbered;
use edge_io::{PutFault, Sink};

/// Why a file of vectors is refused.
#[derive(Clone, Copy, Debug, PartialEq, Eq)]
pub enum VectorsFault {
    /// It is too long.
    TooLong,
    /// Its first line that is no vector, or that is one too many, by its number from 1.
    Line(u32),
}

/// Writes the line for which a file of vectors is refused.
#[tactic(auto, unfolding(crate::specs::VectorsLines::vectors_line))]
pub fn write_vectors_fault<K: Sink>(out: &mut K, fault: VectorsFault) -> Result<(), PutFault>
    ensures { Writes (K.view out.old) (K.view out.new) result (vectors_line fault) }
{
    match fault {
        VectorsFault::TooLong => out.put(b"bad vectors: toolong\n"),
        VectorsFault::Line(line) => write_numbered(out, b"bad vectors: line ", u64::from(line)),
    }
}
