//! Lines that are written one after another.
ghost use Rattle.std.specs.Prelude.{flat_map};
ghost use Rattle.edge_io.specs.Pieces.{gathered, Gathers};
ghost use Rattle.edge_io.specs.Sink.{Writes};
ghost use Rattle.smemu.specs.Vectors.{with_line_feed};

use edge_io::{Piece, PutFault, Sink};
use sm_types::Bytes;

/// Lines in their order, each with a line feed (10) after it.
fn put_lines<K: Sink>(piece: &mut Piece, out: &mut K, lines: &[Bytes]) -> Result<(), PutFault>
    ensures { Gathers (gathered (K.view out.old) piece.old) (gathered (K.view out.new) piece.new) result
        (flat_map with_line_feed lines.now) }
{
    for line in lines {
        piece.put_all(out, &[line.as_slice(), b"\n"])?;
    }
    Ok(())
}

/// Writes lines in their order, each with a line feed after it.
pub fn write_lines<K: Sink>(out: &mut K, lines: &[Bytes]) -> Result<(), PutFault>
    ensures { Writes (K.view out.old) (K.view out.new) result (flat_map with_line_feed lines.now) }
{
    let mut piece = Piece::new();
    put_lines(&mut piece, out, lines)?;
    piece.flush(out)
}
