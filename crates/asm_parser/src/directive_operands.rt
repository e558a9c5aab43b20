//! The operands of directives: numbers, names, and lists of values.
ghost use Rattle.std.specs.Prelude.{◌≡◌, ◌≢◌, ℕ, ◌+◌, ◌-◌, ◌^◌, ◌<◌, ◌≤◌, List, [], ◌∷◌, Option, true, false};
ghost use Rattle.std.specs.Prelude.{length, map, option_map, IfOk, IfErr, IfSome, Err};
ghost use Rattle.asm_tokens.specs.declared.token.Lexeme.{Lexeme};
ghost use Rattle.asm_parser.specs.Statements.{QuadValue, value_of};
ghost use Rattle.asm_parser.specs.Lines.{ends, number_up_to, one_number, one_name, values_from, number_value};
ghost use Rattle.asm_parser.specs.Lines.{quad_value};
ghost use Rattle.asm_parser.specs.Told.{said_from, Shows, before};

use crate::line::Value;
use crate::parse_fault::{ParseFault, is_comma, no_number};
use asm_operands::FaultKind;
use asm_tokens::{Lexeme, Token, is_name, next_lexeme};
use std::alloc::Global;

/// A number without `#`, up to the greatest.
#[tactic(auto, unfolding(crate::specs::Lines::number_up_to))]
pub fn number_up_to(most: u64, token: Token) -> Option<u64>
    ensures value { result ≡ number_up_to most token }
    ensures small { IfSome result (λ n. n ≤ most) }
{
    match token {
        Token::Bare(number) => if number <= most { Some(number) } else { None },
        _ => None,
    }
}

/// Nothing follows.
pub fn expect_end(text: &[u8], offset: usize) -> Result<(), ParseFault>
    requires { offset ≤ length text.now }
    ensures said { Shows (λ _. tt {0}) result (said_from (ends (tt {0})) text.now offset) }
    ensures memory { IfErr result (λ fault. fault ≢ ParseFault.Memory) }
{
    match next_lexeme(text, offset) {
        None => Ok(()),
        Some(extra) => Err(ParseFault::Syntax {
            start: Some(extra.start),
            kind: FaultKind::Extra,
        }),
    }
}

/// One number up to the greatest, and nothing else.
pub fn one_number(text: &[u8], offset: usize, most: u64) -> Result<u64, ParseFault>
    requires { offset ≤ length text.now }
    ensures said { Shows (λ n. n) result (said_from (one_number most) text.now offset) }
    ensures small { IfOk result (λ n. n ≤ most) }
    ensures memory { IfErr result (λ fault. fault ≢ ParseFault.Memory) }
{
    match next_lexeme(text, offset) {
        None => Err(ParseFault::Syntax {
            start: None,
            kind: FaultKind::BadOperand,
        }),
        Some(lexeme) => match number_up_to(most, lexeme.token) {
            None => Err(no_number(lexeme)),
            Some(number) => {
                expect_end(text, lexeme.end)?;
                Ok(number)
            }
        },
    }
}

/// One name, and nothing else.
pub fn one_name<'a>(line: &'a [u8], text: &[u8], offset: usize) -> Result<&'a [u8], ParseFault>
    requires within { offset ≤ length text.now }
    requires part { length text.now ≤ length line.now }
    ensures said { Shows (λ name. name.now) result (said_from (one_name line.now) text.now offset) }
    ensures memory { IfErr result (λ fault. fault ≢ ParseFault.Memory) }
{
    match next_lexeme(text, offset) {
        None => Err(ParseFault::Syntax {
            start: None,
            kind: FaultKind::BadOperand,
        }),
        Some(lexeme) => {
            if !is_name(lexeme.token) {
                return Err(ParseFault::Syntax {
                    start: Some(lexeme.start),
                    kind: FaultKind::BadOperand,
                });
            }
            expect_end(text, lexeme.end)?;
            Ok(&line[lexeme.start..lexeme.end])
        }
    }
}

/// A value of a list.
pub trait Listed<'a>: Drop {
    ghost Seen: { Type 0 };

    ghost seen: { Self → Seen };

    ghost value_in: { List ℕ → Lexeme → Option Seen };

    /// The value that a token of the line is.
    fn value_in(line: &'a [u8], lexeme: Lexeme) -> Option<Self>
        requires some { lexeme.start < lexeme.end }
        requires within { lexeme.end ≤ length line.now }
        ensures { option_map seen result ≡ value_in line.now lexeme };
}

impl<'a> Listed<'a> for u8 {
    ghost Seen = { ℕ };

    ghost seen = { λ n. n };

    ghost value_in = { λ line l. number_value 255 l };

    #[tactic(auto, unfolding(crate::specs::Lines::number_value))]
    fn value_in(line: &'a [u8], lexeme: Lexeme) -> Option<u8> {
        match number_up_to(255, lexeme.token) {
            Some(number) => Some(number as u8),
            None => None,
        }
    }
}

impl<'a> Listed<'a> for u32 {
    ghost Seen = { ℕ };

    ghost seen = { λ n. n };

    ghost value_in = { λ line l. number_value (2 ^ 32 - 1) l };

    #[tactic(auto, unfolding(crate::specs::Lines::number_value))]
    fn value_in(line: &'a [u8], lexeme: Lexeme) -> Option<u32> {
        match number_up_to(u32::MAX as u64, lexeme.token) {
            Some(number) => Some(number as u32),
            None => None,
        }
    }
}

impl<'a> Listed<'a> for Value<'a> {
    ghost Seen = { QuadValue };

    ghost seen = { value_of };

    ghost value_in = { quad_value };

    #[tactic(auto, unfolding(crate::specs::Lines::quad_value, crate::specs::Lines::text_of_lexeme))]
    fn value_in(line: &'a [u8], lexeme: Lexeme) -> Option<Value<'a>> {
        if is_name(lexeme.token) {
            return Some(Value::Name(&line[lexeme.start..lexeme.end]));
        }
        match number_up_to(u64::MAX, lexeme.token) {
            Some(number) => Some(Value::Number(number)),
            None => None,
        }
    }
}

/// The value that the first token is, and where the token ends.
fn value_at<'a, T: Listed<'a>>(
    line: &'a [u8],
    text: &[u8],
    offset: usize,
) -> Result<(T, usize), ParseFault>
    requires within { offset ≤ length text.now }
    requires part { length text.now ≤ length line.now }
    ensures ok { IfOk result (λ r. said_from (values_from (T.value_in line.now) true) text.now offset
        ≡ before (T.seen r.0 ∷ []) (said_from (values_from (T.value_in line.now) false) text.now r.1)) }
    ensures further { IfOk result (λ r. offset < r.1) }
    ensures within { IfOk result (λ r. r.1 ≤ length text.now) }
    ensures err { IfErr result
        (λ fault. said_from (values_from (T.value_in line.now) true) text.now offset ≡ Err fault) }
{
    match next_lexeme(text, offset) {
        None => Err(ParseFault::Syntax {
            start: None,
            kind: FaultKind::BadOperand,
        }),
        Some(lexeme) => match T::value_in(line, lexeme) {
            None => Err(no_number(lexeme)),
            Some(value) => Ok((value, lexeme.end)),
        },
    }
}

/// One value or more, with a comma between each two.
pub fn values<'a, T: Listed<'a>>(
    alloc: Global,
    line: &'a [u8],
    text: &[u8],
    offset: usize,
) -> Result<Vec<T>, ParseFault>
    requires within { offset ≤ length text.now }
    requires part { length text.now ≤ length line.now }
    ensures { Shows (λ values. map T.seen values.items) result
        (said_from (values_from (T.value_in line.now) true) text.now offset) }
{
    let mut values = Vec::new(alloc);
    let mut from = offset;
    loop {
        let (value, end) = value_at(line, text, from)?;
        values.push(value)?;
        match next_lexeme(text, end) {
            None => return Ok(values),
            Some(comma) => {
                if !is_comma(comma.token) {
                    return Err(ParseFault::Syntax {
                        start: Some(comma.start),
                        kind: FaultKind::Extra,
                    });
                }
                from = comma.end;
            }
        }
    }
}
