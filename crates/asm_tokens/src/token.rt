//! The tokens of a line of a source.
ghost use Rattle.std.specs.Prelude.{◌≡◌};
ghost use Rattle.asm_tokens.specs.Tokens.{is_name, is_number_token};

use insn_text::{RegisterFile, VectorFile};

/// A token. A name is a run of letters, digits, `_`, `.` and `$` that begins with no digit.
#[derive(Clone, Copy, PartialEq, Eq, Default)]
pub enum Token {
    /// A name that is the letter of a file and a number, 0 to 30.
    Register {
        file: RegisterFile,
        number: u8,
    },
    /// A name that is a register of vectors, predicates or ZA: the letters of a file, a number, which the
    /// file has, and a suffix, its index in `insn_text::SUFFIXES`.
    Sized {
        file: VectorFile,
        number: u8,
        suffix: u16,
    },
    /// A name that is a keyword of operands: its index in `insn_text::KEYWORDS`.
    Keyword(u16),
    /// Any other name.
    Name,
    /// `#n` or `#-n`.
    Number {
        negative: bool,
        size: u64,
    },
    /// `.+n`, or `.-n` for one back.
    Distance {
        back: bool,
        size: u64,
    },
    /// A number without `#`.
    Bare(u64),
    /// What begins as one of these numbers and is none, or does not fit 64 bits.
    Malformed,
    /// Punctuation: any other character of ASCII.
    Punctuation(u8),
    /// Any other character.
    #[default]
    Other,
}

/// A token of a line: its bytes are those from `start` to before `end`.
#[derive(Clone, Copy)]
pub struct Lexeme {
    pub token: Token,
    pub start: usize,
    pub end: usize,
}

/// Whether the token is a name.
#[tactic(auto, unfolding(crate::specs::Tokens::is_name))]
pub fn is_name(token: Token) -> bool
    ensures { result ≡ is_name token }
{
    matches!(
        token,
        Token::Register { .. } | Token::Sized { .. } | Token::Keyword(_) | Token::Name
    )
}

/// Whether the token is a number of any form.
#[tactic(auto, unfolding(crate::specs::Tokens::is_number_token))]
pub fn is_number(token: Token) -> bool
    ensures { result ≡ is_number_token token }
{
    matches!(
        token,
        Token::Number { .. } | Token::Distance { .. } | Token::Bare(_) | Token::Malformed
    )
}
