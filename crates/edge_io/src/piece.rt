//! Texts that are gathered into pieces before they are written.
ghost use Rattle.std.specs.Prelude.{◌≡◌, ◌+◌, ◌<◌, ◌++◌, [], true, false, OnOk, length};
ghost use Rattle.std.specs.List.{flat_map};
ghost use Rattle.edge_io.specs.Pieces.{Gathers};
ghost use Rattle.edge_io.specs.Sink.{Writes};

use crate::sink::{PutFault, Sink};
use arrayvec::ArrayVec;

/// Bytes of a text that are gathered and not yet written, so that a text of many parts costs few writes. It
/// takes no memory.
#[derive(Drop)]
pub struct Piece {
    held: ArrayVec<u8, 16384>,
}

impl Piece {
    ghost use Rattle.edge_io.specs.Pieces.{held_of, gathered, piece_size};

    /// Nothing is gathered.
    pub fn new() -> Piece
        ensures { held_of result ≡ [] }
    {
        Piece {
            held: ArrayVec::new(),
        }
    }

    /// Adds bytes to the text. Where there is room for them nothing is written; else what was gathered is,
    /// and then bytes of more than a piece, too.
    pub fn put<K: Sink>(&mut self, out: &mut K, bytes: &[u8]) -> Result<(), PutFault>
        ensures { Gathers (gathered (K.view out.old) self.old) (gathered (K.view out.new) self.new) result
            bytes.now }
    {
        if self.gather(bytes) {
            return Ok(());
        }
        self.flush(out)?;
        if self.gather(bytes) {
            return Ok(());
        }
        out.put(bytes)
    }

    /// Adds bytes to what is gathered, where there is room for them.
    fn gather(&mut self, bytes: &[u8]) -> bool
        ensures more { result ≡ true → held_of self.new ≡ held_of self.old ++ bytes.now }
        ensures same { result ≡ false → held_of self.new ≡ held_of self.old }
        ensures full { result ≡ false → piece_size < length (held_of self.old) + length bytes.now }
    {
        match self.held.try_extend_from_slice(bytes) {
            Ok(()) => true,
            Err(_) => false,
        }
    }

    /// Adds the parts of a text one after another.
    pub fn put_all<K: Sink>(&mut self, out: &mut K, parts: &[&[u8]]) -> Result<(), PutFault>
        ensures { Gathers (gathered (K.view out.old) self.old) (gathered (K.view out.new) self.new) result
            (flat_map (λ part. part.now) parts.now) }
    {
        for part in parts {
            self.put(out, part)?;
        }
        Ok(())
    }

    /// Writes what is gathered.
    pub fn flush<K: Sink>(&mut self, out: &mut K) -> Result<(), PutFault>
        ensures written { Writes (K.view out.old) (K.view out.new) result (held_of self.old) }
        ensures nothing_left { OnOk result (held_of self.new ≡ []) }
    {
        out.put(self.held.as_slice())?;
        self.held.clear();
        Ok(())
    }
}

/// Writes the parts of a text together.
pub fn write_parts<K: Sink>(out: &mut K, parts: &[&[u8]]) -> Result<(), PutFault>
    ensures { Writes (K.view out.old) (K.view out.new) result (flat_map (λ part. part.now) parts.now) }
{
    let mut piece = Piece::new();
    piece.put_all(out, parts)?;
    piece.flush(out)
}
