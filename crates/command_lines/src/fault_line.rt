//! The line of the fault for which a file is refused.
ghost use Rattle.std.specs.Prelude.{◌≡◌, ◌∷◌, [], decimal, codes};
ghost use Rattle.std.specs.List.{concat};
ghost use Rattle.edge_io.specs.Pieces.{gathered, Gathers};
ghost use Rattle.edge_io.specs.Sink.{Writes};
ghost use Rattle.text_lines.specs.Lines.{hex64, hex32};
ghost use Rattle.command_lines.specs.FaultLines.{fault_words, fault_line};

use edge_io::{Piece, PutFault, Sink};
use elf_headers::LoadFault;
use text_lines::{hex32_digits, hex64_digits, put_counted};

/// Two program headers that have an address in common.
fn put_overlap<K: Sink>(
    piece: &mut Piece,
    out: &mut K,
    first: u16,
    second: u16,
) -> Result<(), PutFault>
    ensures { Gathers (gathered (K.view out.old) piece.old) (gathered (K.view out.new) piece.new) result
        (concat (codes "overlap " ∷ decimal first ∷ codes " " ∷ decimal second ∷ [])) }
{
    let mut first_buffer = itoa::Buffer::new();
    let mut second_buffer = itoa::Buffer::new();
    let first_digits = first_buffer.format(first).as_bytes();
    let second_digits = second_buffer.format(second).as_bytes();
    piece.put_all(out, &[b"overlap ", first_digits, b" ", second_digits])
}

/// A word that means no instruction, with its address.
fn put_unlisted<K: Sink>(
    piece: &mut Piece,
    out: &mut K,
    address: u64,
    word: u32,
) -> Result<(), PutFault>
    ensures { Gathers (gathered (K.view out.old) piece.old) (gathered (K.view out.new) piece.new) result
        (concat (codes "unlisted 0x" ∷ hex64 address ∷ codes " 0x" ∷ hex32 word ∷ [])) }
{
    piece.put_all(
        out,
        &[
            b"unlisted 0x",
            &hex64_digits(address),
            b" 0x",
            &hex32_digits(word),
        ],
    )
}

/// Why a file is refused, with the values of the fault.
#[tactic(auto, unfolding(crate::specs::FaultLines::fault_words))]
fn put_fault_words<K: Sink>(
    piece: &mut Piece,
    out: &mut K,
    fault: LoadFault,
) -> Result<(), PutFault>
    ensures { Gathers (gathered (K.view out.old) piece.old) (gathered (K.view out.new) piece.new) result
        (fault_words fault) }
{
    match fault {
        LoadFault::TooLong => piece.put(out, b"toolong"),
        LoadFault::Truncated(size) => put_counted(piece, out, b"truncated ", size),
        LoadFault::NotElf => piece.put(out, b"notelf"),
        LoadFault::NotThisMachine(machine) => {
            put_counted(piece, out, b"notthismachine ", u64::from(machine))
        }
        LoadFault::NotStatic(kind) => put_counted(piece, out, b"notstatic ", u64::from(kind)),
        LoadFault::BadTable(place) => put_counted(piece, out, b"badtable ", place),
        LoadFault::InShared(index) => put_counted(piece, out, b"inshared ", u64::from(index)),
        LoadFault::Overlap(first, second) => put_overlap(piece, out, first, second),
        LoadFault::TooManyPages(pages) => put_counted(piece, out, b"toomanypages ", pages),
        LoadFault::EntryOutside(address) => {
            piece.put_all(out, &[b"entryoutside 0x", &hex64_digits(address)])
        }
        LoadFault::Unlisted { address, word } => put_unlisted(piece, out, address, word),
        LoadFault::Memory => piece.put(out, b"memory"),
    }
}

/// The line of a fault.
fn put_fault<K: Sink>(piece: &mut Piece, out: &mut K, fault: LoadFault) -> Result<(), PutFault>
    ensures { Gathers (gathered (K.view out.old) piece.old) (gathered (K.view out.new) piece.new) result
        (fault_line fault) }
{
    piece.put(out, b"bad file: ")?;
    put_fault_words(piece, out, fault)?;
    piece.put(out, b"\n")
}

/// Writes the line of a fault.
pub fn write_fault<K: Sink>(out: &mut K, fault: LoadFault) -> Result<(), PutFault>
    ensures { Writes (K.view out.old) (K.view out.new) result (fault_line fault) }
{
    let mut piece = Piece::new();
    put_fault(&mut piece, out, fault)?;
    piece.flush(out)
}
