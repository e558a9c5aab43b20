//! The laws of lines.
ghost use Rattle.std.specs.Prelude.{◌≡◌, ◌↔◌, ℕ, List, Some, None, Ok, Err, drop};
ghost use Rattle.sm_types.specs.declared.insn.Insn.{Insn};
ghost use Rattle.a64_encode.specs.Either.{MeansEither};
ghost use Rattle.insn_text.specs.Texts.{text_of};
ghost use Rattle.asm_parser.specs.declared.line.LineFault.{LineFault};
ghost use Rattle.asm_parser.specs.Grammar.{IsFaultOf, IsLabelled, IsLine};
ghost use Rattle.asm_parser.specs.Lines.{label_end, label_of, line_of};
ghost use Rattle.asm_parser.specs.Statements.{Codes, Instruction, SourceLine};

/// The word of an instruction is read from the text in which it is printed.
pub fn printed_is_read()
    ensures { (word : ℕ) (it : Insn) → MeansEither word it
        → line_of (text_of word) ≡ Ok (record { label = None; says = Codes (Instruction word None) 1 }) }
{}

/// A line says what the grammar has for it, and nothing else; its fault stands at the first token with
/// which no line goes on, or at the end of a line that may not end there; and a label is a name with a
/// colon right after it.
pub fn lines_are_the_grammar()
    ensures says { (line : List ℕ) (said : SourceLine) → (line_of line ≡ Ok said) ↔ IsLine line said }
    ensures fault { (line : List ℕ) (fault : LineFault) → (line_of line ≡ Err fault) ↔ IsFaultOf line fault }
    ensures label { (text name rest : List ℕ)
        → ((label_of text ≡ Some name) × (drop (label_end text) text ≡ rest)) ↔ IsLabelled name text rest }
{}
