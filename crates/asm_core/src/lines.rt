//! The lines of a source.
ghost use Rattle.std.specs.Prelude.{◌≡◌, ◌<◌, ◌≤◌, ◌==◌, [], ◌∷◌, suc, drop, length, MatchOption};
ghost use Rattle.std.specs.List.{position, position_or_len};
ghost use Rattle.asm_core.specs.Source.{lines_of};

/// The offset of the first line feed.
fn line_end(text: &[u8]) -> Option<usize>
    ensures { result ≡ position (λ c. c == 10) text.now }
{
    text.iter().position(|c| *c == 10)
}

/// How many bytes the first line has.
fn line_length(text: &[u8]) -> usize
    ensures value { result ≡ position_or_len (λ c. c == 10) text.now }
    ensures within { result ≤ length text.now }
{
    match line_end(text) {
        Some(offset) => offset,
        None => text.len(),
    }
}

/// What follows the first line, which has so many bytes.
fn after_line(text: &[u8], size: usize) -> &[u8]
    requires { size ≤ length text.now }
    ensures { result.now ≡ drop (suc size) text.now }
{
    if size < text.len() {
        &text[size + 1..]
    } else {
        &[]
    }
}

/// The first line of a text, and what follows it; an empty text has none.
pub fn next_line(text: &[u8]) -> Option<(&[u8], &[u8])>
    ensures lines { MatchOption result (lines_of text.now ≡ [])
        (λ x. lines_of text.now ≡ x.0.now ∷ lines_of x.1.now) }
    ensures within { MatchOption result (text.now ≡ []) (λ x. (length x.0.now ≤ length text.now)
        × (length x.1.now < length text.now)) }
{
    if text.is_empty() {
        return None;
    }
    let size = line_length(text);
    Some((&text[..size], after_line(text, size)))
}
