//! The laws of scripts.
ghost use Rattle.std.specs.Prelude.{◌≡◌, ◌↔◌, ℕ, List, Ok, Err};
ghost use Rattle.line_reader.specs.File.{Fault};
ghost use Rattle.script_reader.specs.Faults.{IsFaultOf};
ghost use Rattle.script_reader.specs.Script.{IsScriptOf, script_in};
ghost use Rattle.script_reader.specs.declared.command.DebugCommand.{DebugCommand};

/// The commands that are read of a file are those of which it is the script, and there are no others.
pub fn one_script()
    ensures { (bytes : List ℕ) (commands : List DebugCommand)
        → ((script_in bytes ≡ Ok commands) ↔ IsScriptOf bytes commands) }
{}

/// The fault that is read of a file is that it is too long, or else that of its first line that is neither
/// empty nor says a command: it is no text, or this is wrong at the first place of its words at which
/// something is. There is no other.
pub fn one_fault()
    ensures { (bytes : List ℕ) (fault : Fault) → ((script_in bytes ≡ Err fault) ↔ IsFaultOf bytes fault) }
{}
