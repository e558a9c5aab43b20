//! Lines of code words.
ghost use Rattle.std.specs.Prelude.{◌≡◌};
ghost use Rattle.edge_io.specs.Pieces.{gathered, Gathers};
ghost use Rattle.edge_io.specs.Sink.{Writes};
ghost use Rattle.code_listing.specs.Listing.{listing_line, listing_text};

use arrayvec::ArrayString;
use edge_io::{Piece, PutFault, Sink};
use insn_text::print_word;
use text_lines::{hex32_digits, hex64_digits};

/// The line of a code word.
#[tactic(auto, unfolding(crate::specs::Listing::listing_line))]
fn put_line<K: Sink>(piece: &mut Piece, out: &mut K, entry: (u64, u32)) -> Result<(), PutFault>
    ensures { Gathers (gathered (K.view out.old) piece.old) (gathered (K.view out.new) piece.new) result
        (listing_line entry) }
{
    let (address, word) = entry;
    let mut text = ArrayString::<96>::new();
    print_word(word, &mut text);
    let address_digits = hex64_digits(address);
    let word_digits = hex32_digits(word);
    let words = text.as_str().as_bytes();
    piece.put_all(
        out,
        &[&address_digits, b" ", &word_digits, b" ", words, b"\n"],
    )
}

/// The lines of code words, in their order.
fn put_lines<K: Sink>(piece: &mut Piece, out: &mut K, code: &[(u64, u32)]) -> Result<(), PutFault>
    ensures { Gathers (gathered (K.view out.old) piece.old) (gathered (K.view out.new) piece.new) result
        (listing_text code.now) }
{
    for k in 0..code.len() {
        put_line(piece, out, code[k])?;
    }
    Ok(())
}

/// Writes a line for each code word, an address and a word, in their order.
pub fn write_listing<K: Sink>(code: &[(u64, u32)], out: &mut K) -> Result<(), PutFault>
    ensures { Writes (K.view out.old) (K.view out.new) result (listing_text code.now) }
{
    let mut piece = Piece::new();
    put_lines(&mut piece, out, code)?;
    piece.flush(out)
}
