//! A line: its label, and what stands after it.
ghost use Rattle.std.specs.Prelude.{◌≡◌, ◌≢◌, ◌<◌, ◌≤◌, ◌-◌, ◌^◌, length, Ok, Err, IfOk, IfErr, option_map};
ghost use Rattle.std.specs.Prelude.{IsTrue, true};
ghost use Rattle.asm_parser.specs.Grammar.{IsFaultOf, IsLine};
ghost use Rattle.asm_parser.specs.Lines.{label_of, label_end, keeps_list, line_of};
ghost use Rattle.asm_parser.specs.Told.{is_label};
ghost use Rattle.asm_parser.specs.Statements.{line_said};

use crate::line::{Line, LineFault};
use crate::parse_fault::fault_of;
use crate::statements::tokens_say;
use asm_tokens::{before_comment, byte_at, is_digit, run_at, skip_blanks};
use std::alloc::Global;

/// The label of a text, and where the text after it begins.
#[derive(Clone, Copy)]
struct Label<'a> {
    name: Option<&'a [u8]>,
    end: usize,
}

/// A name is a label: a colon stands right after it.
fn is_label(text: &[u8], name: &[u8], end: usize) -> bool
    ensures value { result ≡ is_label text.now name.now end }
    ensures within { IsTrue result → end < length text.now }
{
    !name.is_empty() && !is_digit(name[0]) && byte_at(text, end) == b':'
}

/// The label that a text begins with.
fn label_of(text: &[u8]) -> Label<'_>
    ensures name { option_map (λ name. name.now) result.name ≡ label_of text.now }
    ensures end { result.end ≡ label_end text.now }
    ensures within { result.end ≤ length text.now }
{
    let start = skip_blanks(text, 0);
    let name = run_at(text, start);
    let end = start + name.len();
    if is_label(text, name, end) {
        Label {
            name: Some(name),
            end: end + 1,
        }
    } else {
        Label { name: None, end: 0 }
    }
}

/// What a line says, of text or of any bytes; `alloc` is for the lists of `.quad`, `.word` and `.byte` alone.
pub fn parse_bytes(alloc: Global, line: &[u8]) -> Result<Line<'_>, LineFault>
    requires { length line.now < 2 ^ 32 - 1 }
    ensures ok { IfOk result (λ said. line_of line.now ≡ Ok (line_said said)) }
    ensures err { IfErr result (λ fault. fault ≢ LineFault.Memory → line_of line.now ≡ Err fault) }
    ensures memory { IfErr result (λ fault. fault ≡ LineFault.Memory → keeps_list line.now ≡ true) }
{
    let text = before_comment(line);
    let label = label_of(text);
    match tokens_say(alloc, line, text, label.end) {
        Ok(statement) => Ok(Line {
            label: label.name,
            statement,
        }),
        Err(fault) => Err(fault_of(line, fault)),
    }
}

/// What a line says; `alloc` is for the lists of `.quad`, `.word` and `.byte` alone.
pub fn parse_line(alloc: Global, text: &str) -> Result<Line<'_>, LineFault>
    requires { length text.now < 2 ^ 32 - 1 }
    ensures ok { IfOk result (λ line. line_of text.now ≡ Ok (line_said line)) }
    ensures err { IfErr result (λ fault. fault ≢ LineFault.Memory → line_of text.now ≡ Err fault) }
    ensures grammar { IfOk result (λ line. IsLine text.now (line_said line)) }
    ensures first_fault { IfErr result (λ fault. fault ≢ LineFault.Memory → IsFaultOf text.now fault) }
    ensures memory { IfErr result (λ fault. fault ≡ LineFault.Memory → keeps_list text.now ≡ true) }
{
    parse_bytes(alloc, text.as_bytes())
}
