//! What the definition gives for the first source.
ghost use Rattle.std.specs.Prelude.{◌≡◌, [], ◌∷◌, codes};
ghost use Rattle.workload.specs.Source.{chosen_lines, kind_of, number_at};

/// The sequence of source 1 goes on from 1 with 39022, which is of kind 2, so the source has one LDADD.
pub fn first_source()
    ensures number { number_at 1 1 ≡ 39022 }
    ensures kind { kind_of 39022 ≡ 2 }
    ensures lines { chosen_lines 1 ≡ codes "ldadd x10, x11, [x9]" ∷ [] }
{}
