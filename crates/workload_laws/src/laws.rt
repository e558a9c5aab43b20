//! What the assembler makes of the sources.
ghost use Rattle.std.specs.Prelude.{◌≡◌, ◌≤◌, ℕ, None};
ghost use Rattle.sm_types.specs.declared.object.Object.{Object};
ghost use Rattle.asm_core.specs.Assembly.{Assembles};
ghost use Rattle.asm_core.specs.Faults.{asm_fault};
ghost use Rattle.asm_core.specs.Source.{lines_of, said_lines};
ghost use Rattle.workload.specs.Source.{source_of};
ghost use Rattle.workload_laws.specs.Words.{HasWords, said_of};

/// The source of a number up to 20,000 has no fault: it is short enough, each of its lines is in the grammar,
/// its one label stands at the first byte of the text, and no part is too large. So `assemble` gives its
/// object, which `write_elf` takes, or is out of memory.
pub fn sources_are_assembled()
    ensures { (number : ℕ) → number ≤ 20000 → asm_fault (source_of number) ≡ None }
{}

/// The lines of a source say its words, and the object of a source is that of these words: its text is the
/// words one after another, it has no data, and it starts with the first word.
pub fn sources_have_words()
    ensures says { (number : ℕ) → said_lines (lines_of (source_of number)) ≡ said_of number }
    ensures object { (number : ℕ) (object : Object) → Assembles (source_of number) object
        → HasWords number object }
{}
