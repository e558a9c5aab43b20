//! Whether a source is text.
ghost use Rattle.std.specs.Prelude.{◌≡◌, true, false, nat_lt, length, MatchOption};
ghost use Rattle.std.specs.Str.Lossy.{utf8_valid_len};

/// The offset of the first byte that is no UTF-8, where there is one.
pub fn not_text(source: &[u8]) -> Option<usize>
    ensures { MatchOption result (nat_lt (utf8_valid_len source.now) (length source.now) ≡ false)
        (λ offset. (nat_lt (utf8_valid_len source.now) (length source.now) ≡ true)
        × (offset ≡ utf8_valid_len source.now)) }
{
    match str::from_utf8(source) {
        Ok(_) => None,
        Err(error) => Some(error.valid_up_to()),
    }
}
