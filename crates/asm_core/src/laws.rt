//! The laws of targets and of objects.
ghost use Rattle.std.specs.Prelude.{◌≡◌, ℕ, List, Some, None, Ok, slice_get};
ghost use Rattle.sm_types.specs.declared.object.Object.{Object};
ghost use Rattle.asm_parser.specs.Lines.{line_of};
ghost use Rattle.asm_parser.specs.Statements.{Code, Codes, SourceLine, TargetSaid};
ghost use Rattle.asm_core.specs.Code.{code_words};
ghost use Rattle.asm_core.specs.Resolved.{MeansResolved};
ghost use Rattle.asm_core.specs.Assembly.{Assembles, IsSameObject};
ghost use Rattle.asm_core.specs.Targets.{word_to};

/// The word that is put for a word of a line with a named target means the instruction that the line's word
/// means, with the distance from the word's address to the target's as its immediate, and nothing else
/// changed.
/// Where none is put, as the target is too far, no word means that.
pub fn resolved_law()
    ensures resolved { (text : List ℕ) (line : SourceLine) (code : Code) (column k word from to resolved : ℕ)
        (target : TargetSaid) → line_of text ≡ Ok line → line.says ≡ Codes code column
        → slice_get (code_words code) k ≡ Some (record { word = word; target = Some target })
        → word_to target.operand word from to ≡ Some resolved → MeansResolved word from to resolved }
    ensures far { (text : List ℕ) (line : SourceLine) (code : Code) (column k word from to : ℕ)
        (target : TargetSaid) → line_of text ≡ Ok line → line.says ≡ Codes code column
        → slice_get (code_words code) k ≡ Some (record { word = word; target = Some target })
        → word_to target.operand word from to ≡ None
        → (resolved : ℕ) → MeansResolved word from to resolved → ⊥ }
{}

/// A source has one object.
pub fn one_object()
    ensures { (source : List ℕ) (object other : Object) → Assembles source object → Assembles source other
        → IsSameObject object other }
{}
