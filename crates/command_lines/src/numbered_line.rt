//! A line that ends in a number.
ghost use Rattle.std.specs.Prelude.{◌∷◌, [], decimal, codes};
ghost use Rattle.std.specs.List.{concat};
ghost use Rattle.edge_io.specs.Sink.{Writes};

use edge_io::{PutFault, Sink, write_parts};

/// Writes words, then a number in decimal, as a line.
pub fn write_numbered<K: Sink>(out: &mut K, words: &[u8], number: u64) -> Result<(), PutFault>
    ensures { Writes (K.view out.old) (K.view out.new) result
        (concat (words.now ∷ decimal number ∷ codes "\n" ∷ [])) }
{
    let mut buffer = itoa::Buffer::new();
    let digits = buffer.format(number).as_bytes();
    write_parts(out, &[words, digits, b"\n"])
}
