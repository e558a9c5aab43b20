//! Words of which one is no text.
ghost use Rattle.std.specs.Prelude.{◌≡◌, IfOk, IfErr, Some, map};
ghost use Rattle.std.specs.String.{string_bytes};
ghost use Rattle.cmd_words.specs.Command.{request_of, IsFirstFault};
ghost use Rattle.cmd_words.specs.Words.{command_of, usage_fault};
ghost use Rattle.command_lines.specs.Foreign.{foreign_fault, EndsForeign};

use crate::status::Status;
use crate::usage_line::write_usage;
use cmd_words::{Command, UsageKind, WordsFault, read_words};
use edge_io::Sink;
use sm_types::Memory;
use std::alloc::Global;

/// A fault of the words before the word that is no text, or that word.
fn earlier(words: &[String], place: usize, kind: UsageKind) -> (usize, UsageKind)
    requires { usage_fault (map string_bytes words.now) ≡ Some (record { place = place; kind = kind }) }
    ensures { foreign_fault (map string_bytes words.now) ≡ record { place = result.0; kind = result.1 } }
{
    if place < words.len() {
        (place, kind)
    } else {
        (words.len(), UsageKind::Unknown)
    }
}

/// The first fault of words that were read so, and of which the one after these is no text.
fn fault_of(
    words: &[String],
    read: &Result<Command, WordsFault>,
) -> Result<(usize, UsageKind), Memory>
    requires command { IfOk read.now (λ command. command_of (map string_bytes words.now)
        ≡ Some (request_of command)) }
    requires fault { IfErr read.now (IsFirstFault (map string_bytes words.now)) }
    ensures { IfOk result (λ fault. foreign_fault (map string_bytes words.now)
        ≡ record { place = fault.0; kind = fault.1 }) }
{
    match read {
        Ok(_) => Ok((words.len(), UsageKind::Unknown)),
        Err(WordsFault::Usage { place, kind }) => Ok(earlier(words, *place, *kind)),
        Err(WordsFault::Memory) => Err(Memory),
    }
}

/// The first fault of words of which the one after these is no text.
fn first_fault(alloc: Global, words: &[String]) -> Result<(usize, UsageKind), Memory>
    ensures { IfOk result (λ fault. foreign_fault (map string_bytes words.now)
        ≡ record { place = fault.0; kind = fault.1 }) }
{
    let read = read_words(alloc, words);
    fault_of(words, &read)
}

/// Answers words of which the one after these is no text: that word is unknown, unless one of these is at
/// fault.
pub fn refuse_foreign_word<K: Sink>(alloc: Global, words: &[String], out: &mut K) -> Status
    ensures { EndsForeign (K.view out.old) (K.view out.new) (map string_bytes words.now) result }
{
    match first_fault(alloc, words) {
        Ok((place, kind)) => match write_usage(out, place, kind) {
            Ok(()) => Status::Usage,
            Err(_) => Status::WriteFault,
        },
        Err(Memory) => Status::OutOfMemory,
    }
}
