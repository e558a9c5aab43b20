//! The characters of a line, their columns, and runs of them.
ghost use Rattle.std.specs.Prelude.{◌≡◌, ◌+◌, ◌-◌, ◌^◌, ◌<◌, ◌≤◌, length, drop, slice_index};
ghost use Rattle.std.specs.List.{list_any, prefix_len};
ghost use Rattle.asm_tokens.specs.Characters.{is_digit, is_name_character, is_blank, is_continuation, front};
ghost use Rattle.asm_tokens.specs.Characters.{back, characters, column_at, starts_comment, is_slash};
ghost use Rattle.asm_tokens.specs.Characters.{before_comment};
ghost use Rattle.asm_tokens.specs.Tokens.{run};

/// 0 to 9.
#[tactic(auto, unfolding(crate::specs::Characters::is_digit))]
pub fn is_digit(c: u8) -> bool
    ensures { result ≡ is_digit c }
{
    b'0' <= c && c <= b'9'
}

/// A character of a name: a letter, a digit, `$`, `.` or `_`.
#[tactic(auto, unfolding(crate::specs::Characters::is_name_character))]
pub fn is_name_character(c: u8) -> bool
    ensures { result ≡ is_name_character c }
{
    (b'a' <= c && c <= b'z')
        || (b'A' <= c && c <= b'Z')
        || is_digit(c)
        || c == b'$'
        || c == b'.'
        || c == b'_'
}

/// A space or a tab.
#[tactic(auto, unfolding(crate::specs::Characters::is_blank))]
pub fn is_blank(c: u8) -> bool
    ensures { result ≡ is_blank c }
{
    c == b' ' || c == b'\t'
}

/// A byte that continues a character.
#[tactic(auto, unfolding(crate::specs::Characters::is_continuation))]
pub fn is_continuation(c: u8) -> bool
    ensures { result ≡ is_continuation c }
{
    0x80 <= c && c <= 0xBF
}

/// The byte at an offset, or 0 past the end.
pub fn byte_at(text: &[u8], offset: usize) -> u8
    ensures { result ≡ slice_index text.now offset }
{
    if offset < text.len() { text[offset] } else { 0 }
}

/// Where the blanks from an offset on end.
pub fn skip_blanks(text: &[u8], offset: usize) -> usize
    requires { offset ≤ length text.now }
    ensures value { result ≡ offset + length (front is_blank (drop offset text.now)) }
    ensures within { result ≤ length text.now }
{
    for end in offset..text.len() {
        if !is_blank(text[end]) {
            return end;
        }
    }
    text.len()
}

fn name_end(text: &[u8], offset: usize) -> usize
    requires { offset ≤ length text.now }
    ensures value { result ≡ offset + length (run (drop offset text.now)) }
    ensures within { result ≤ length text.now }
{
    for end in offset..text.len() {
        if !is_name_character(text[end]) {
            return end;
        }
    }
    text.len()
}

/// The run of characters of names at an offset.
pub fn run_at(text: &[u8], offset: usize) -> &[u8]
    requires { offset ≤ length text.now }
    ensures value { result.now ≡ run (drop offset text.now) }
    ensures within { offset + length result.now ≤ length text.now }
{
    &text[offset..name_end(text, offset)]
}

/// How many digits stand first.
pub fn digits_end(text: &[u8]) -> usize
    ensures value { result ≡ length (front is_digit text.now) }
    ensures within { result ≤ length text.now }
{
    for end in 0..text.len() {
        if !is_digit(text[end]) {
            return end;
        }
    }
    text.len()
}

/// Where the bytes that continue a character end.
pub fn character_end(text: &[u8], offset: usize) -> usize
    requires { offset ≤ length text.now }
    ensures value { result ≡ offset + length (front is_continuation (drop offset text.now)) }
    ensures within { result ≤ length text.now }
{
    for end in offset..text.len() {
        if !is_continuation(text[end]) {
            return end;
        }
    }
    text.len()
}

#[tactic(auto, unfolding(crate::specs::Characters::characters))]
fn characters(bytes: &[u8]) -> usize
    ensures value { result ≡ characters bytes.now }
    ensures within { result ≤ length bytes.now }
{
    bytes.iter().filter(|c| !is_continuation(**c)).count()
}

/// The column, from 1, of the character that begins at a byte of the line, or just past its end.
#[tactic(auto, unfolding(crate::specs::Characters::column_at))]
pub fn column_at(line: &[u8], offset: usize) -> u32
    requires { length line.now < 2 ^ 32 - 1 }
    ensures { result ≡ column_at line.now offset }
{
    let before = if offset < line.len() {
        &line[..offset]
    } else {
        line
    };
    characters(before) as u32 + 1
}

fn starts_comment(line: &[u8], offset: usize) -> bool
    requires { offset < length line.now }
    ensures { result ≡ starts_comment (slice_index line.now offset) (drop (offset + 1) line.now) }
{
    line[offset] == b'/' && byte_at(line, offset + 1) == b'/'
}

/// Whether the line has a `/`.
fn has_slash(line: &[u8]) -> bool
    ensures { result ≡ list_any is_slash line.now }
{
    line.iter().any(|c| *c == b'/')
}

/// The line before its comment.
fn cut_comment(line: &[u8]) -> &[u8]
    ensures { result.now ≡ before_comment line.now }
{
    for offset in 0..line.len() {
        if starts_comment(line, offset) {
            return &line[..offset];
        }
    }
    line
}

/// The line before its comment, which `//` begins.
#[tactic(auto, using(crate::proofs::Slashes::no_comment))]
pub fn before_comment(line: &[u8]) -> &[u8]
    ensures { result.now ≡ before_comment line.now }
{
    if has_slash(line) {
        cut_comment(line)
    } else {
        line
    }
}
