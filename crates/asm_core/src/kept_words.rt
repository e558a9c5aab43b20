//! What the first pass keeps of the lines, so that the second need not read them again: the words of
//! instructions.
ghost use Rattle.std.specs.Prelude.{◌≡◌, ◌≤◌, ◌++◌, [], ◌∷◌, List, Ok, IfOk, IfErr, OnOk, drop, length};
ghost use Rattle.asm_parser.specs.Statements.{SourceLine, line_said, says_of};
ghost use Rattle.asm_parser.specs.Lines.{line_of};
ghost use Rattle.asm_core.specs.Kept.{kept_in, kept_of, said_by, first_kept, IsKept};

use crate::fault::AsmFault;
use asm_parser::{Line, LineFault, Statement, parse_bytes};
use std::alloc::Global;

/// A line that is an instruction alone, with no label and no named target: its word, and the column of its
/// name.
#[derive(Clone, Copy)]
pub struct KeptWord {
    pub word: u32,
    pub column: u32,
}

/// What is kept of a statement.
fn kept_in(statement: &Statement<'_>) -> Option<KeptWord>
    ensures { result ≡ kept_in (says_of statement.now) }
{
    match statement {
        Statement::Instruction {
            word,
            target: None,
            column,
        } => Some(KeptWord {
            word: *word,
            column: *column,
        }),
        _ => None,
    }
}

/// What is kept of a line.
fn kept_of(line: &Line<'_>) -> Option<KeptWord>
    ensures { result ≡ kept_of (line_said line.now) }
{
    match line.label {
        Some(_) => None,
        None => kept_in(&line.statement),
    }
}

/// Keeps of one more line what can be kept.
pub fn keep(kept: &mut Vec<Option<KeptWord>>, line: &Line<'_>) -> Result<(), AsmFault>
    ensures ok { OnOk result (kept.new.items ≡ kept.old.items ++ kept_of (line_said line.now) ∷ []) }
    ensures err { IfErr result (λ fault. fault ≡ AsmFault.Memory) }
{
    kept.push(kept_of(line))?;
    Ok(())
}

/// What is kept of the next line.
pub fn first_kept(kept: &[Option<KeptWord>]) -> Option<KeptWord>
    ensures { result ≡ first_kept kept.now }
{
    if kept.is_empty() { None } else { kept[0] }
}

/// What is kept of the lines after the next.
pub fn after_first(kept: &[Option<KeptWord>]) -> &[Option<KeptWord>]
    ensures { result.now ≡ drop 1 kept.now }
{
    if kept.is_empty() { kept } else { &kept[1..] }
}

/// The line of which a word was kept.
fn line_by<'a>(kept: KeptWord) -> Line<'a>
    ensures { line_said result ≡ said_by kept }
{
    Line {
        label: None,
        statement: Statement::Instruction {
            word: kept.word,
            target: None,
            column: kept.column,
        },
    }
}

/// What a line of the grammar says, as it was kept or read again. A refusal says that it was out of memory.
pub fn line_again(alloc: Global, text: &[u8], kept: Option<KeptWord>) -> Result<Line<'_>, LineFault>
    requires short { length text.now ≤ 67108864 }
    requires kept { IsKept kept text.now }
    requires fine { (line : SourceLine) × (line_of text.now ≡ Ok line) }
    ensures ok { IfOk result (λ line. line_of text.now ≡ Ok (line_said line)) }
    ensures err { IfErr result (λ fault. fault ≡ LineFault.Memory) }
{
    match kept {
        Some(kept) => Ok(line_by(kept)),
        None => parse_bytes(alloc, text),
    }
}
