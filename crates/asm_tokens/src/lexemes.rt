//! The tokens of a text, one after another.
ghost use Rattle.std.specs.Prelude.{Some, ◌≡◌, ◌+◌, ◌<◌, ◌≤◌, [], ◌∷◌, length, drop, slice_index};
ghost use Rattle.std.specs.Prelude.{MatchOption, IfSome, IsTrue};
ghost use Rattle.asm_tokens.specs.Tokens.{number_token, distance_token, bare_token, name_token, file_of};
ghost use Rattle.asm_tokens.specs.Tokens.{register_of, register_in, token_of_name, read_number};
ghost use Rattle.asm_tokens.specs.Tokens.{read_distance, read_run, read_character, read_token, has_sign};
ghost use Rattle.asm_tokens.specs.Tokens.{begins_name, lexeme_at, lexemes_of, vector_file_of, file_size};
ghost use Rattle.asm_tokens.specs.Tokens.{has_suffix, sized_of, sized_after, begins_za, sized_in};

use crate::characters::{
    byte_at, character_end, digits_end, is_blank, is_digit, is_name_character, run_at, skip_blanks,
};
use crate::names::{keyword_index, suffix_index};
use crate::numbers::number_in;
use crate::token::{Lexeme, Token};
use insn_text::{RegisterFile, VectorFile};
use line_reader::decimal_number;

#[tactic(auto, unfolding(crate::specs::Tokens::number_token))]
fn number_token(negative: bool, number: Option<u64>) -> Token
    ensures { result ≡ number_token negative number }
{
    match number {
        Some(size) => Token::Number { negative, size },
        None => Token::Malformed,
    }
}

#[tactic(auto, unfolding(crate::specs::Tokens::distance_token))]
fn distance_token(back: bool, number: Option<u64>) -> Token
    ensures { result ≡ distance_token back number }
{
    match number {
        Some(size) => Token::Distance { back, size },
        None => Token::Malformed,
    }
}

#[tactic(auto, unfolding(crate::specs::Tokens::bare_token))]
fn bare_token(number: Option<u64>) -> Token
    ensures { result ≡ bare_token number }
{
    match number {
        Some(size) => Token::Bare(size),
        None => Token::Malformed,
    }
}

#[tactic(auto, unfolding(crate::specs::Tokens::name_token))]
fn name_token(index: Option<u16>) -> Token
    ensures { result ≡ name_token index }
{
    match index {
        Some(index) => Token::Keyword(index),
        None => Token::Name,
    }
}

/// The file of a letter.
#[tactic(auto, unfolding(crate::specs::Tokens::file_of))]
fn file_of(letter: u8) -> Option<RegisterFile>
    ensures { result ≡ file_of letter }
{
    match letter {
        b'x' => Some(RegisterFile::X),
        b'w' => Some(RegisterFile::W),
        _ => None,
    }
}

/// A register of a file by its number.
#[tactic(auto, unfolding(crate::specs::Tokens::register_of))]
fn register_of(file: RegisterFile, number: Option<u64>) -> Option<Token>
    ensures { result ≡ register_of (Some file) number }
{
    match number {
        Some(number) if number < 31 => Some(Token::Register {
            file,
            number: number as u8,
        }),
        _ => None,
    }
}

/// The register that a name is.
#[tactic(auto, unfolding(
// The register that a name says.
crate::specs::Tokens::register_in, crate::specs::Tokens::register_of),
// An empty name is no register.
using(crate::proofs::Registers::none_empty))]
fn register_in(name: &[u8]) -> Option<Token>
    ensures { result ≡ register_in name.now }
{
    if name.is_empty() {
        return None;
    }
    match file_of(byte_at(name, 0)) {
        Some(file) => register_of(file, decimal_number(&name[1..])),
        None => None,
    }
}

/// The file of a letter, of vectors, predicates or the low parts of vectors.
#[tactic(auto, unfolding(crate::specs::Tokens::vector_file_of))]
fn vector_file_of(letter: u8) -> Option<VectorFile>
    ensures { result ≡ vector_file_of letter }
{
    match letter {
        b'z' => Some(VectorFile::Z),
        b'p' => Some(VectorFile::P),
        b'b' => Some(VectorFile::B),
        b'h' => Some(VectorFile::H),
        b's' => Some(VectorFile::S),
        b'd' => Some(VectorFile::D),
        _ => None,
    }
}

/// How many registers a file has.
#[tactic(auto, unfolding(crate::specs::Tokens::file_size))]
fn file_size(file: VectorFile) -> u64
    ensures value { result ≡ file_size file }
    ensures small { result ≤ 32 }
{
    match file {
        VectorFile::P | VectorFile::Za => 16,
        VectorFile::Z | VectorFile::B | VectorFile::H | VectorFile::S | VectorFile::D => 32,
    }
}

/// Whether a register of the file may have the suffix, by its index.
#[tactic(auto, unfolding(crate::specs::Tokens::has_suffix))]
fn has_suffix(file: VectorFile, suffix: u16) -> bool
    ensures { result ≡ has_suffix file suffix }
{
    match file {
        VectorFile::Z => suffix < 6,
        VectorFile::P => suffix < 5,
        VectorFile::Za => suffix != 0,
        VectorFile::B | VectorFile::H | VectorFile::S | VectorFile::D => suffix == 0,
    }
}

/// A register of a file by its number and its suffix.
#[tactic(auto, unfolding(crate::specs::Tokens::sized_of))]
fn sized_of(file: VectorFile, number: u64, suffix: u16) -> Option<Token>
    ensures { result ≡ sized_of file (Some number) (Some suffix) }
{
    if number < file_size(file) && has_suffix(file, suffix) {
        Some(Token::Sized {
            file,
            number: number as u8,
            suffix,
        })
    } else {
        None
    }
}

/// The register of a file whose number and suffix a text is.
#[tactic(auto, unfolding(crate::specs::Tokens::sized_after, crate::specs::Tokens::sized_of))]
fn sized_after(file: VectorFile, text: &[u8]) -> Option<Token>
    ensures { result ≡ sized_after (Some file) text.now }
{
    let (digits, rest) = text.split_at(digits_end(text));
    let number = decimal_number(digits)?;
    let suffix = suffix_index(rest)?;
    sized_of(file, number, suffix)
}

/// The letters `za` come first.
#[tactic(auto, unfolding(crate::specs::Tokens::begins_za))]
fn begins_za(name: &[u8]) -> bool
    ensures value { result ≡ begins_za name.now }
    ensures within { IsTrue result → 2 ≤ length name.now }
{
    byte_at(name, 0) == b'z' && byte_at(name, 1) == b'a'
}

/// The register of vectors, predicates or ZA that a name is.
#[tactic(auto, unfolding(
// The register with a size that a name says.
crate::specs::Tokens::sized_in, crate::specs::Tokens::sized_after),
// An empty name is no register.
using(crate::proofs::Registers::none_sized))]
fn sized_in(name: &[u8]) -> Option<Token>
    ensures { result ≡ sized_in name.now }
{
    if name.is_empty() {
        return None;
    }
    if begins_za(name) {
        return sized_after(VectorFile::Za, &name[2..]);
    }
    match vector_file_of(byte_at(name, 0)) {
        Some(file) => sized_after(file, &name[1..]),
        None => None,
    }
}

/// The token of a name: a register, a keyword, or another.
#[tactic(auto, unfolding(crate::specs::Tokens::token_of_name))]
fn token_of_name(name: &[u8]) -> Token
    ensures { result ≡ token_of_name name.now }
{
    match register_in(name) {
        Some(token) => token,
        None => match sized_in(name) {
            Some(token) => token,
            None => name_token(keyword_index(name)),
        },
    }
}

/// `#`, a sign and a number.
#[tactic(auto, using(crate::proofs::Steps::joined_drops), unfolding(crate::specs::Tokens::read_number))]
fn read_number(text: &[u8], start: usize) -> Lexeme
    requires { start < length text.now }
    ensures value { result ≡ lexeme_at start (read_number (drop (start + 1) text.now)) }
    ensures within { result.end ≤ length text.now }
{
    if byte_at(text, start + 1) == b'-' {
        let run = run_at(text, start + 2);
        Lexeme {
            token: number_token(true, number_in(run)),
            start,
            end: start + 2 + run.len(),
        }
    } else {
        let run = run_at(text, start + 1);
        Lexeme {
            token: number_token(false, number_in(run)),
            start,
            end: start + 1 + run.len(),
        }
    }
}

/// `.`, a sign and a decimal number.
#[tactic(auto, using(crate::proofs::Steps::joined_drops), unfolding(crate::specs::Tokens::read_distance))]
fn read_distance(text: &[u8], start: usize) -> Lexeme
    requires { start + 1 < length text.now }
    ensures value { result ≡ lexeme_at start (read_distance (drop (start + 1) text.now)) }
    ensures within { result.end ≤ length text.now }
{
    let run = run_at(text, start + 2);
    let back = byte_at(text, start + 1) == b'-';
    Lexeme {
        token: distance_token(back, decimal_number(run)),
        start,
        end: start + 2 + run.len(),
    }
}

/// A name, or a number without `#`.
#[tactic(auto, using(crate::proofs::Steps::joined_drops), unfolding(crate::specs::Tokens::read_run))]
fn read_run(text: &[u8], start: usize) -> Lexeme
    requires { start < length text.now }
    ensures value { result ≡ lexeme_at start (read_run (drop start text.now)) }
    ensures within { result.end ≤ length text.now }
{
    let run = run_at(text, start);
    let token = if is_digit(text[start]) {
        bare_token(number_in(run))
    } else {
        token_of_name(run)
    };
    Lexeme {
        token,
        start,
        end: start + run.len(),
    }
}

/// Punctuation: a character by itself.
#[tactic(auto, using(crate::proofs::Steps::joined_drops), unfolding(crate::specs::Tokens::read_character))]
fn read_character(text: &[u8], start: usize) -> Lexeme
    requires { start < length text.now }
    ensures value { result ≡ lexeme_at start
        (read_character (slice_index text.now start) (drop (start + 1) text.now)) }
    ensures within { result.end ≤ length text.now }
{
    if text[start] < 128 {
        Lexeme {
            token: Token::Punctuation(text[start]),
            start,
            end: start + 1,
        }
    } else {
        Lexeme {
            token: Token::Other,
            start,
            end: character_end(text, start + 1),
        }
    }
}

#[tactic(auto, using(crate::proofs::Steps::joined_drops), unfolding(crate::specs::Tokens::has_sign))]
fn has_sign(text: &[u8], offset: usize) -> bool
    ensures value { result ≡ has_sign (drop offset text.now) }
    ensures within { IsTrue result → offset < length text.now }
{
    let c = byte_at(text, offset);
    c == b'+' || c == b'-'
}

/// The token that begins at an offset.
#[tactic(auto, using(crate::proofs::Steps::joined_drops), unfolding(crate::specs::Tokens::read_token))]
fn lexeme_at(text: &[u8], start: usize) -> Lexeme
    requires { start < length text.now }
    ensures value { result ≡ lexeme_at start
        (read_token (slice_index text.now start) (drop (start + 1) text.now)) }
    ensures within { result.end ≤ length text.now }
{
    let c = text[start];
    if c == b'#' {
        read_number(text, start)
    } else if c == b'.' && has_sign(text, start + 1) {
        read_distance(text, start)
    } else if is_name_character(c) {
        read_run(text, start)
    } else {
        read_character(text, start)
    }
}

/// The first token from an offset on, which the others follow.
pub fn next_lexeme(text: &[u8], offset: usize) -> Option<Lexeme>
    requires { offset ≤ length text.now }
    ensures first { MatchOption result (lexemes_of offset (drop offset text.now) ≡ [])
        (λ l. lexemes_of offset (drop offset text.now) ≡ l ∷ lexemes_of l.end (drop l.end text.now)) }
    ensures after { IfSome result (λ l. offset ≤ l.start) }
    ensures some { IfSome result (λ l. l.start < l.end) }
    ensures within { IfSome result (λ l. l.end ≤ length text.now) }
{
    let start = skip_blanks(text, offset);
    if start < text.len() {
        Some(lexeme_at(text, start))
    } else {
        None
    }
}

/// A name stands at an offset, and no number.
#[tactic(auto, using(crate::proofs::Steps::joined_drops), unfolding(crate::specs::Tokens::begins_name))]
pub fn begins_name(text: &[u8], offset: usize) -> bool
    ensures { result ≡ begins_name (drop offset text.now) }
{
    offset < text.len()
        && is_name_character(text[offset])
        && !is_digit(text[offset])
        && !(text[offset] == b'.' && has_sign(text, offset + 1))
}
