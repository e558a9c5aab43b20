//! What stands on a line after its label.
ghost use Rattle.std.specs.Prelude.{◌≡◌, ◌<◌, ◌≤◌, ◌-◌, ◌^◌, length, drop, true, IfErr};
ghost use Rattle.asm_tokens.specs.Characters.{before_comment};
ghost use Rattle.asm_tokens.specs.Tokens.{begins_name};
ghost use Rattle.asm_parser.specs.Lines.{begin_list, tokens_say};
ghost use Rattle.asm_parser.specs.Statements.{says_of};
ghost use Rattle.asm_parser.specs.Told.{lexemes_from, said_from, Shows};

use crate::directives::{directive_of, directive_says};
use crate::instructions::instruction_says;
use crate::line::Statement;
use crate::parse_fault::ParseFault;
use asm_operands::FaultKind;
use asm_tokens::{begins_name, mnemonic_index, run_at, skip_blanks};
use std::alloc::Global;

/// What a name at an offset says with the tokens after it.
fn named_says<'a>(
    alloc: Global,
    line: &'a [u8],
    text: &[u8],
    start: usize,
) -> Result<Statement<'a>, ParseFault>
    requires short { length line.now < 2 ^ 32 - 1 }
    requires within { start < length text.now }
    requires part { text.now ≡ before_comment line.now }
    requires name { begins_name (drop start text.now) ≡ true }
    ensures said { Shows says_of result (said_from (tokens_say line.now) text.now start) }
    ensures memory { IfErr result
        (λ fault. fault ≡ ParseFault.Memory → begin_list line.now (lexemes_from text.now start) ≡ true) }
{
    let name = run_at(text, start);
    let offset = start + name.len();
    match directive_of(name) {
        Some(directive) => directive_says(alloc, line, text, start, offset, directive),
        None => match mnemonic_index(name) {
            Some(mnemonic) => instruction_says(line, text, start, offset, mnemonic),
            None => Err(ParseFault::Syntax {
                start: Some(start),
                kind: FaultKind::UnknownName,
            }),
        },
    }
}

/// What the tokens from an offset on say.
pub fn tokens_say<'a>(
    alloc: Global,
    line: &'a [u8],
    text: &[u8],
    offset: usize,
) -> Result<Statement<'a>, ParseFault>
    requires short { length line.now < 2 ^ 32 - 1 }
    requires within { offset ≤ length text.now }
    requires part { text.now ≡ before_comment line.now }
    ensures said { Shows says_of result (said_from (tokens_say line.now) text.now offset) }
    ensures memory { IfErr result
        (λ fault. fault ≡ ParseFault.Memory → begin_list line.now (lexemes_from text.now offset) ≡ true) }
{
    let start = skip_blanks(text, offset);
    if start == text.len() {
        Ok(Statement::Empty)
    } else if begins_name(text, start) {
        named_says(alloc, line, text, start)
    } else {
        Err(ParseFault::Syntax {
            start: Some(start),
            kind: FaultKind::Extra,
        })
    }
}
