//! The law of words: they ask for something, or one of them is at fault.
ghost use Rattle.std.specs.Prelude.{◌≡◌, ◌↔◌, ℕ, List, Some, None, IsSome, length};
ghost use Rattle.cmd_words.specs.Forms.{form_of};
ghost use Rattle.cmd_words.specs.Options.{default_of, number_in, setting_in, word_of};
ghost use Rattle.cmd_words.specs.Words.{Request, command_of, usage_fault};
ghost use Rattle.cmd_words.specs.declared.setting.Setting.{Setting};

/// Words ask for a command exactly where they have no fault, and then each of its operands stands, and an
/// option that it does not take has the number of one that is not given.
pub fn one_reading()
    ensures one { (words : List (List ℕ)) → IsSome (command_of words) ↔ (usage_fault words ≡ None) }
    ensures full { (words : List (List ℕ)) (request : Request) → command_of words ≡ Some request
        → length request.operands ≡ length (form_of request.verb).operands }
    ensures fixed { (words : List (List ℕ)) (request : Request) (setting : Setting)
        → command_of words ≡ Some request
        → setting_in (form_of request.verb).options (word_of setting) ≡ None
        → number_in request.options setting ≡ default_of setting }
{}
