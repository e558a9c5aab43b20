//! Directives.
ghost use Rattle.std.specs.Prelude.{◌≡◌, ◌<◌, ◌≤◌, ◌-◌, ◌^◌, ◌==◌, length, option_map, slice_index, true};
ghost use Rattle.std.specs.Prelude.{IfErr};
ghost use Rattle.asm_tokens.specs.Characters.{column_at};
ghost use Rattle.asm_parser.specs.Lines.{directive_of, directive_says, is_of_list};
ghost use Rattle.asm_parser.specs.Statements.{says_of};
ghost use Rattle.asm_parser.specs.Told.{said_from, Shows, directive_said};

use crate::directive_operands::{expect_end, one_name, one_number, values};
use crate::line::Statement;
use crate::parse_fault::ParseFault;
use asm_tokens::column_at;
use std::alloc::Global;

/// The name of a directive.
#[derive(Clone, Copy)]
pub enum Directive {
    Text,
    Data,
    Quad,
    Word,
    Byte,
    Zero,
    Align,
    Global,
    SmeAbi,
    SmeTail,
}

fn begins_dotted(name: &[u8]) -> bool
    ensures { result ≡ (slice_index name.now 0 == 46) }
{
    !name.is_empty() && name[0] == b'.'
}

#[tactic(auto, unfolding(crate::specs::Lines::directive_of))]
fn dotted_directive(name: &[u8]) -> Option<Directive>
    ensures { option_map directive_said result ≡ directive_of name.now }
{
    if name == b".text".as_slice() {
        Some(Directive::Text)
    } else if name == b".data".as_slice() {
        Some(Directive::Data)
    } else if name == b".quad".as_slice() {
        Some(Directive::Quad)
    } else if name == b".word".as_slice() {
        Some(Directive::Word)
    } else if name == b".byte".as_slice() {
        Some(Directive::Byte)
    } else if name == b".zero".as_slice() {
        Some(Directive::Zero)
    } else if name == b".align".as_slice() {
        Some(Directive::Align)
    } else if name == b".global".as_slice() {
        Some(Directive::Global)
    } else if name == b".sme_abi".as_slice() {
        Some(Directive::SmeAbi)
    } else if name == b".sme_tail".as_slice() {
        Some(Directive::SmeTail)
    } else {
        None
    }
}

/// The directive of a name.
#[tactic(auto, using(crate::proofs::Names::undotted))]
pub fn directive_of(name: &[u8]) -> Option<Directive>
    ensures { option_map directive_said result ≡ directive_of name.now }
{
    if begins_dotted(name) {
        dotted_directive(name)
    } else {
        None
    }
}

/// What a directive says, whose name begins at `start` of the line, with the tokens from an offset on.
#[tactic(auto, unfolding(crate::specs::Lines::directive_says, crate::specs::Lines::is_of_list))]
pub fn directive_says<'a>(
    alloc: Global,
    line: &'a [u8],
    text: &[u8],
    start: usize,
    offset: usize,
    directive: Directive,
) -> Result<Statement<'a>, ParseFault>
    requires short { length line.now < 2 ^ 32 - 1 }
    requires within { offset ≤ length text.now }
    requires part { length text.now ≤ length line.now }
    ensures said { Shows says_of result
        (said_from (directive_says line.now (column_at line.now start) (directive_said directive))
        text.now offset) }
    ensures memory { IfErr result
        (λ fault. fault ≡ ParseFault.Memory → is_of_list (directive_said directive) ≡ true) }
{
    match directive {
        Directive::Text => {
            expect_end(text, offset)?;
            Ok(Statement::Text)
        }
        Directive::Data => {
            expect_end(text, offset)?;
            Ok(Statement::Data)
        }
        Directive::Quad => Ok(Statement::Quad(values(alloc, line, text, offset)?)),
        Directive::Word => Ok(Statement::Word(values(alloc, line, text, offset)?)),
        Directive::Byte => Ok(Statement::Byte(values(alloc, line, text, offset)?)),
        Directive::Zero => Ok(Statement::Zero(one_number(text, offset, u64::MAX)?)),
        Directive::Align => Ok(Statement::Align(one_number(text, offset, 12)? as u8)),
        Directive::Global => Ok(Statement::Global(one_name(line, text, offset)?)),
        Directive::SmeAbi => {
            expect_end(text, offset)?;
            Ok(Statement::SupportRoutines {
                column: column_at(line, start),
            })
        }
        Directive::SmeTail => {
            expect_end(text, offset)?;
            Ok(Statement::CallTail {
                column: column_at(line, start),
            })
        }
    }
}
