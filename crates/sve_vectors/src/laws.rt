//! The laws of a predicate's bytes.
ghost use Rattle.std.specs.Prelude.{◌≡◌, ◌%◌, Bool, List, length};
ghost use Rattle.sve_vectors.specs.Predicates.{truths_of, predicate_bytes};

/// Bytes are those of their truth values.
pub fn truths_tell_bytes(bytes: &[u8])
    ensures { predicate_bytes (truths_of bytes.now) ≡ bytes.now }
{}

/// Truth values that fill bytes are those of these bytes.
pub fn bytes_tell_truths()
    ensures { (truths : List Bool) → length truths % 8 ≡ 0 → truths_of (predicate_bytes truths) ≡ truths }
{}
