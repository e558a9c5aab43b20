//! The fault of a line while it is parsed: where, and why.
ghost use Rattle.std.specs.Prelude.{◌≡◌, ◌<◌, ◌^◌, ◌-◌, length, Some, if◌then◌else◌};
ghost use Rattle.asm_tokens.specs.Tokens.{is_number_token};
ghost use Rattle.asm_parser.specs.Lines.{is_comma_token};
ghost use Rattle.asm_parser.specs.declared.parse_fault.ParseFault.TheVariants as variants;
ghost use Rattle.asm_parser.specs.Told.{line_fault_of};

use crate::line::LineFault;
use asm_operands::FaultKind;
use asm_tokens::{Lexeme, Token, column_at, is_number};
use std::alloc::AllocFailed;

/// The fault of a line.
#[derive(Clone, Copy)]
pub enum ParseFault {
    /// At the token that begins at a byte of the line, or just past the line's end.
    Syntax {
        start: Option<usize>,
        kind: FaultKind,
    },
    /// Out of memory.
    Memory,
}

impl<T: Drop> From<AllocFailed<T>> for ParseFault {
    ghost from_gives = { λ _ fault. fault ≡ variants.Memory };

    fn from(_error: AllocFailed<T>) -> ParseFault {
        ParseFault::Memory
    }
}

/// A token is a comma.
pub fn is_comma(token: Token) -> bool
    ensures { result ≡ is_comma_token token }
{
    match token {
        Token::Punctuation(c) => c == b',',
        _ => false,
    }
}

/// The token is not the number that is to stand there.
pub fn no_number(lexeme: Lexeme) -> ParseFault
    ensures { result ≡ ParseFault.Syntax (Some lexeme.start)
        (if is_number_token lexeme.token then FaultKind.BadNumber else FaultKind.BadOperand) }
{
    let kind = if is_number(lexeme.token) {
        FaultKind::BadNumber
    } else {
        FaultKind::BadOperand
    };
    ParseFault::Syntax {
        start: Some(lexeme.start),
        kind,
    }
}

/// The fault of a line, by its column.
#[tactic(auto, unfolding(crate::specs::Told::line_fault_of, crate::specs::Told::column_from))]
pub fn fault_of(line: &[u8], fault: ParseFault) -> LineFault
    requires { length line.now < 2 ^ 32 - 1 }
    ensures { result ≡ line_fault_of line.now fault }
{
    match fault {
        ParseFault::Syntax { start, kind } => {
            let column = match start {
                Some(start) => column_at(line, start),
                None => column_at(line, line.len()),
            };
            match kind {
                FaultKind::UnknownName => LineFault::UnknownName(column),
                FaultKind::BadNumber => LineFault::BadNumber(column),
                FaultKind::Extra => LineFault::Extra(column),
                FaultKind::BadOperand => LineFault::BadOperand(column),
            }
        }
        ParseFault::Memory => LineFault::Memory,
    }
}
