//! The second pass over a source: its parts, or the first of its names and distances at fault.
ghost use Rattle.std.specs.Prelude.{◌≡◌, ◌≢◌, ◌≤◌, [], None, Some, length, IfOk, IfErr};
ghost use Rattle.asm_core.specs.Source.{lines_of, said_lines};
ghost use Rattle.asm_core.specs.Layout.{first_counter, labels_of, names_in};
ghost use Rattle.asm_core.specs.Faults.{lines_fault, targets_fault, text_length_of};
ghost use Rattle.asm_core.specs.Known.{Knows};
ghost use Rattle.asm_core.specs.Kept.{AreKept};
ghost use Rattle.asm_core.specs.Parts.{ArePartsOf};

use crate::emit_lines::{Emission, emit_line, new_emission};
use crate::fault::AsmFault;
use crate::kept_words::{KeptWord, after_first, first_kept};
use crate::labels::Labels;
use crate::lines::next_line;
use crate::object_parts::Parts;
use crate::target_addresses::Addresses;
use std::alloc::Global;

/// The parts of the object of a source whose lines have no fault by themselves: what each line puts, with
/// the distances to the targets; or the fault of the first line with an undefined name or a target too far.
pub fn emit(
    alloc: Global,
    source: &[u8],
    kept: &[Option<KeptWord>],
    labels: &Labels<'_>,
    text_size: u64,
) -> Result<Parts, AsmFault>
    requires short { length source.now ≤ 67108864 }
    requires kept { AreKept kept.now (lines_of source.now) }
    requires accepted { lines_fault 1 first_counter [] (lines_of source.now) ≡ None }
    requires knows { Knows labels.now (labels_of (said_lines (lines_of source.now))) }
    requires size { text_size ≡ text_length_of (said_lines (lines_of source.now)) }
    ensures parts { IfOk result (λ parts. ArePartsOf (said_lines (lines_of source.now)) parts) }
    ensures ok { IfOk result (λ parts. targets_fault 1 (text_length_of (said_lines (lines_of source.now)))
        (names_in (said_lines (lines_of source.now))) first_counter (said_lines (lines_of source.now))
        ≡ None) }
    ensures err { IfErr result (λ fault. fault ≢ AsmFault.Memory
        → targets_fault 1 (text_length_of (said_lines (lines_of source.now)))
        (names_in (said_lines (lines_of source.now))) first_counter (said_lines (lines_of source.now))
        ≡ Some fault) }
{
    let addresses = Addresses { labels, text_size };
    let mut emission = new_emission(alloc);
    let mut number = 1u32;
    let mut rest = source;
    let mut kept_rest = kept;
    while let Some((text, after)) = next_line(rest) {
        let now = first_kept(kept_rest);
        emit_line(&mut emission, alloc, number, text, now, &addresses)?;
        number += 1;
        rest = after;
        kept_rest = after_first(kept_rest);
    }
    let Emission { parts, .. } = emission;
    Ok(parts)
}
