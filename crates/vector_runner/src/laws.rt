//! The laws of files of vectors: what is read is the grammar, and nothing else.
ghost use Rattle.std.specs.Prelude.{◌≡◌, ◌≤◌, ◌↔◌, ◌++◌, ◌∷◌, ℕ, List, Some, Ok, Err, length};
ghost use Rattle.line_reader.specs.Lines.{lines_of};
ghost use Rattle.sm_types.specs.declared.length.VecLen.{VecLen};
ghost use Rattle.vector_runner.specs.Field.{Vector};
ghost use Rattle.vector_runner.specs.Grammar.{Fault, Line, IsFaultOf, IsFileOf, IsVectorLine, Say};
ghost use Rattle.vector_runner.specs.Grammar.{line_said, most_bytes, most_lines, vectors_in};

/// The vector that is read of a line is one that the line says in the grammar, and each that it says is read:
/// a line that says none is in no other way in the grammar, and none says two.
pub fn one_vector()
    ensures read { (vl svl : VecLen) (line : List ℕ) (v : Vector)
        → ((line_said vl svl line ≡ Some v) ↔ IsVectorLine vl svl line v) }
    ensures alone { (vl svl : VecLen) (line : List ℕ) (v w : Vector)
        → IsVectorLine vl svl line v → IsVectorLine vl svl line w → v ≡ w }
{}

/// The vectors that are read of a file are those of which it is the file, and there are no others.
pub fn one_file()
    ensures { (vl svl : VecLen) (bytes : List ℕ) (vectors : List Vector)
        → ((vectors_in vl svl bytes ≡ Ok vectors) ↔ IsFileOf vl svl bytes vectors) }
{}

/// The fault that is read of a file is that it is too long, or else that of its first line that says no
/// vector or is past the most lines; there is no other.
pub fn one_fault()
    ensures { (vl svl : VecLen) (bytes : List ℕ) (fault : Fault)
        → ((vectors_in vl svl bytes ≡ Err fault) ↔ IsFaultOf vl svl bytes fault) }
{}

/// A file whose first 2,048 lines say vectors, and which has one more, is at fault at line 2,049, whatever
/// that line is.
pub fn one_line_too_many()
    ensures { (vl svl : VecLen) (bytes : List ℕ) (lines : List (List ℕ)) (line : List ℕ)
        (others : List (List ℕ)) (vectors : List Vector) → length bytes ≤ most_bytes
        → lines_of bytes ≡ lines ++ line ∷ others → length lines ≡ most_lines → Say vl svl lines vectors
        → vectors_in vl svl bytes ≡ Err (Line 2049) }
{}
