//! The law of help: what its text says of the options and of the statuses is so.
ghost use Rattle.std.specs.Prelude.{◌≡◌, ℕ};
ghost use Rattle.cmd_words.specs.Options.{takes};
ghost use Rattle.cmd_words.specs.declared.setting.Setting.{Setting};
ghost use Rattle.command_lines.specs.Texts.{has_number, help_text, numbers_taken, option_line, HasPart};
ghost use Rattle.command_lines.specs.Texts.{status_line};
ghost use Rattle.command_lines.specs.declared.status.Status.{Status};

/// The text of help says of each option which numbers it takes, and which one it has where it is not given;
/// and of each status its number, with how the text that is written with it begins.
pub fn help_is_true()
    ensures lines { (setting : Setting) → HasPart help_text (option_line setting) }
    ensures numbers { (setting : Setting) (n : ℕ) → has_number (numbers_taken setting) n ≡ takes setting n }
    ensures statuses { (status : Status) → HasPart help_text (status_line status) }
{}
