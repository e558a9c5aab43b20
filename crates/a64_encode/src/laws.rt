//! The laws of the two tables together.
ghost use Rattle.std.specs.Prelude.{◌≡◌, ◌↔◌, ◌<◌, ◌^◌, ◌⊎◌, ℕ, Some};
ghost use Rattle.sm_types.specs.declared.insn.Insn.{Insn};
ghost use Rattle.a64_table.specs.Ranges.{IsInRow};
ghost use Rattle.sve_table.specs.Ranges.{IsInVectorRow};
ghost use Rattle.a64_encode.specs.Either.{HasAtMostOneRowOfBoth, HasEitherWord, MeansEither};
ghost use Rattle.a64_encode.specs.Either.{instruction_of};

/// At most one row of both tables matches and fits a word.
pub fn one_row_of_both()
    ensures { (word : ℕ) → HasAtMostOneRowOfBoth word }
{}

/// The instruction of a word is what either table gives it.
pub fn means_either()
    ensures { (word : ℕ) (it : Insn) → word < 2 ^ 32 → (instruction_of word ≡ Some it) ↔ MeansEither word it }
{}

/// An instruction has at most one word.
pub fn one_word()
    ensures { (first second : ℕ) (it : Insn) → MeansEither first it → MeansEither second it → first ≡ second }
{}

/// An instruction has a word exactly where its fields are in the ranges of a row of either table.
pub fn has_word()
    ensures { (it : Insn) → HasEitherWord it ↔ (IsInRow it ⊎ IsInVectorRow it) }
{}
