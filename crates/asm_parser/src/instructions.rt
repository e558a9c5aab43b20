//! Instructions.
ghost use Rattle.std.specs.Prelude.{◌≡◌, ◌≢◌, ◌<◌, ◌≤◌, ◌-◌, ◌^◌, length, drop, take, map, slice_get, IfErr};
ghost use Rattle.std.specs.Prelude.{IfSome, option_map};
ghost use Rattle.asm_tokens.specs.Characters.{column_at};
ghost use Rattle.asm_tokens.specs.Tokens.{lexemes_of};
ghost use Rattle.asm_parser.specs.Lines.{instruction_says, target_at};
ghost use Rattle.asm_parser.specs.Statements.{says_of, target_said};
ghost use Rattle.asm_parser.specs.Told.{said_from, Shows, lexemes_from};

use crate::line::{Statement, Target};
use crate::parse_fault::ParseFault;
use arrayvec::ArrayVec;
use asm_operands::{OperandFault, read_operands};
use asm_tokens::{Lexeme, Token, column_at, next_lexeme};

/// The first tokens, at most 24.
fn first_tokens(text: &[u8], offset: usize) -> ArrayVec<Token, 24>
    requires { offset ≤ length text.now }
    ensures { result.items ≡ take 24 (map (λ l. l.token) (lexemes_from text.now offset)) }
{
    let mut tokens = ArrayVec::new();
    let mut from = offset;
    for count in 0..24usize {
        match next_lexeme(text, from) {
            None => return tokens,
            Some(lexeme) => {
                tokens.push(lexeme.token);
                from = lexeme.end;
            }
        }
    }
    tokens
}

/// The token after so many.
fn lexeme_after(text: &[u8], offset: usize, count: usize) -> Option<Lexeme>
    requires { offset ≤ length text.now }
    ensures value { result ≡ slice_get (lexemes_from text.now offset) count }
    ensures some { IfSome result (λ l. l.start < l.end) }
    ensures within { IfSome result (λ l. l.end ≤ length text.now) }
{
    let mut from = offset;
    for skipped in 0..count {
        match next_lexeme(text, from) {
            None => return None,
            Some(lexeme) => from = lexeme.end,
        }
    }
    next_lexeme(text, from)
}

/// The target, from the index of its token.
#[tactic(auto, unfolding(crate::specs::Lines::text_of_lexeme))]
fn target_at<'a>(
    line: &'a [u8],
    text: &[u8],
    offset: usize,
    named: Option<asm_operands::Target>,
) -> Option<Target<'a>>
    requires within { offset ≤ length text.now }
    requires part { length text.now ≤ length line.now }
    ensures { option_map target_said result ≡ target_at line.now (lexemes_from text.now offset) named }
{
    match named {
        None => None,
        Some(named) => match lexeme_after(text, offset, named.index) {
            None => None,
            Some(lexeme) => Some(Target {
                name: &line[lexeme.start..lexeme.end],
                operand: named.operand,
            }),
        },
    }
}

fn fault_at(text: &[u8], offset: usize, fault: OperandFault) -> ParseFault
    requires { offset ≤ length text.now }
    ensures { result ≡ ParseFault.Syntax
        (option_map (λ l. l.start) (slice_get (lexemes_from text.now offset) fault.index)) fault.kind }
{
    match lexeme_after(text, offset, fault.index) {
        None => ParseFault::Syntax {
            start: None,
            kind: fault.kind,
        },
        Some(lexeme) => ParseFault::Syntax {
            start: Some(lexeme.start),
            kind: fault.kind,
        },
    }
}

/// What an instruction says, whose mnemonic begins at `start` of the line, with the tokens from an offset on.
pub fn instruction_says<'a>(
    line: &'a [u8],
    text: &[u8],
    start: usize,
    offset: usize,
    mnemonic: u16,
) -> Result<Statement<'a>, ParseFault>
    requires short { length line.now < 2 ^ 32 - 1 }
    requires within { offset ≤ length text.now }
    requires part { length text.now ≤ length line.now }
    ensures said { Shows says_of result
        (said_from (instruction_says line.now mnemonic (column_at line.now start)) text.now offset) }
    ensures memory { IfErr result (λ fault. fault ≢ ParseFault.Memory) }
{
    let tokens = first_tokens(text, offset);
    match read_operands(mnemonic, tokens.as_slice()) {
        Ok(operands) => Ok(Statement::Instruction {
            word: operands.word,
            target: target_at(line, text, offset, operands.target),
            column: column_at(line, start),
        }),
        Err(fault) => Err(fault_at(text, offset, fault)),
    }
}
