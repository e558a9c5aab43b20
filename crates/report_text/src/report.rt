//! The report of a run.
ghost use Rattle.std.specs.Prelude.{◌≡◌, ℕ, true, Some, slice_get};
ghost use Rattle.edge_io.specs.Pieces.{gathered, Gathers};
ghost use Rattle.edge_io.specs.Sink.{Writes};
ghost use Rattle.kernel_contexts.specs.Context.{is_home};
ghost use Rattle.kernel_contexts.specs.declared.context.Context.{Context};
ghost use Rattle.report_text.specs.Ends.{ends_of};
ghost use Rattle.report_text.specs.Report.{report_text, blocks_text, words_text};

use crate::block::put_block;
use crate::header::put_header;
use edge_io::{Piece, PutFault, Sink};
use kernel_contexts::{Context, Finished};
use sm_types::{Config, Version, Words};
use text_lines::put_value_lines;

/// What stands before the blocks of a report.
#[derive(Clone, Copy)]
pub struct Head {
    /// The options of the run.
    pub config: Config,
    /// SHA-256 of the program's file.
    pub image: [u8; 32],
}

/// The shared words and the pending signals that are not zero.
fn put_words<K: Sink>(piece: &mut Piece, out: &mut K, words: &Words) -> Result<(), PutFault>
    ensures { Gathers (gathered (K.view out.old) piece.old) (gathered (K.view out.new) piece.new) result
        (words_text words.now) }
{
    piece.put(out, b"shared\n")?;
    put_value_lines(piece, out, b"w", &words.shared)?;
    put_value_lines(piece, out, b"pending", &words.pending)?;
    piece.put(out, b"end\n")
}

/// The blocks of the threads in a version, in order.
fn put_blocks<K: Sink>(
    piece: &mut Piece,
    out: &mut K,
    version: Version,
    contexts: &[Context],
) -> Result<(), PutFault>
    requires home { (k : ℕ) (c : Context) → slice_get contexts.now k ≡ Some c → is_home c ≡ true }
    ensures { Gathers (gathered (K.view out.old) piece.old) (gathered (K.view out.new) piece.new) result
        (blocks_text version (ends_of contexts.now)) }
{
    for k in 0..contexts.len() {
        let context = &contexts[k];
        put_block(piece, out, version, context)?;
    }
    Ok(())
}

/// The report of a run.
fn put_report<K: Sink>(
    piece: &mut Piece,
    out: &mut K,
    run: &Finished,
    head: &Head,
) -> Result<(), PutFault>
    ensures { Gathers (gathered (K.view out.old) piece.old) (gathered (K.view out.new) piece.new) result
        (report_text head.now.config head.now.image (ends_of run.now.contexts.items) run.now.words) }
{
    put_header(piece, out, &head.config, &head.image)?;
    put_blocks(piece, out, head.config.version(), run.contexts.as_slice())?;
    put_words(piece, out, &run.words)
}

/// Writes the report of a run. `Failed` where the sink fails; a part of the report from the front is then
/// written.
pub fn write_report<K: Sink>(run: &Finished, head: &Head, out: &mut K) -> Result<(), PutFault>
    ensures { Writes (K.view out.old) (K.view out.new) result
        (report_text head.now.config head.now.image (ends_of run.now.contexts.items) run.now.words) }
{
    let mut piece = Piece::new();
    put_report(&mut piece, out, run, head)?;
    piece.flush(out)
}
