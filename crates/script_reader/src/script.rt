//! The script of the debugger, read line by line.
ghost use Rattle.std.specs.Prelude.{◌≡◌};
ghost use Rattle.line_reader.specs.Told.{AnswersAs};
ghost use Rattle.script_reader.specs.Script.{script_in};
ghost use Rattle.script_reader.specs.Words.{command_in};

use crate::command::DebugCommand;
use crate::words::command_in;
use line_reader::{LineFormat, TextFault, TextKind, read_file};
use std::alloc::Global;

/// The lines of a script, each with a command.
struct ScriptLines;

impl LineFormat for ScriptLines {
    type Value = DebugCommand;

    ghost said_by = { command_in };

    fn value_in(text: &[u8]) -> Result<DebugCommand, TextKind> {
        command_in(text)
    }
}

/// The commands of the script that a file is, in order. `Line` is the first line that is neither empty nor
/// says a command, counted from 1, with what is wrong with it; a file of more than 67,108,864 bytes is
/// `TooLong` at line 0. `Memory` is want of memory.
#[tactic(auto, unfolding(crate::specs::Script::script_in))]
pub fn read_script(alloc: Global, bytes: &[u8]) -> Result<Vec<DebugCommand>, TextFault>
    ensures { AnswersAs (λ commands. commands.items) (script_in bytes.now) result }
{
    read_file::<ScriptLines>(alloc, bytes)
}
