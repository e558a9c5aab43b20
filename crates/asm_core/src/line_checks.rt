//! The faults of a line by itself, after those before it.
ghost use Rattle.std.specs.Prelude.{◌≡◌, ◌≢◌, List, Option, Some, None, Ok, IfOk, IfErr};
ghost use Rattle.asm_parser.specs.Statements.{line_said, says_of};
ghost use Rattle.asm_core.specs.Faults as faults;
ghost use Rattle.asm_core.specs.Layout as layout;
ghost use Rattle.asm_core.specs.Limits.{IsInLimits, HasSmallAlign};
ghost use Rattle.asm_core.specs.Known.{Knows};

use crate::fault::AsmFault;
use crate::labels::Labels;
use crate::line_labels::add_labels;
use crate::location_counter::{LocationCounter, counter_after, here};
use asm_parser::{Line, LineFault, Statement};

/// The column of code that stands at no multiple of 4.
#[tactic(auto, unfolding(crate::specs::Faults::misaligned))]
fn misaligned(statement: &Statement<'_>, offset: u64) -> Option<u32>
    ensures { result ≡ faults.misaligned (says_of statement.now) offset }
{
    match statement {
        Statement::Instruction { column, .. }
        | Statement::SupportRoutines { column }
        | Statement::CallTail { column } => { if offset % 4 == 0 { None } else { Some(*column) } }
        _ => None,
    }
}

/// The location counter after line number `number`, whose labels are added, or its fault.
pub fn check_line<'a>(
    number: u32,
    counter: &LocationCounter,
    labels: &mut Labels<'a>,
    line: &Line<'a>,
) -> Result<LocationCounter, AsmFault>
    requires limits { IsInLimits counter.now }
    requires align { HasSmallAlign (says_of line.now.statement) }
    ensures ok { (list : List layout.Label) → Knows labels.old list
        → IfOk result (λ after. faults.line_fault number counter.now list (Ok (line_said line.now)) ≡ None) }
    ensures knows { (list : List layout.Label) → Knows labels.old list
        → IfOk result (λ after. Knows labels.new
        (faults.labels_after counter.now list (line_said line.now))) }
    ensures after { IfOk result
        (λ after. after ≡ layout.counter_after counter.now (says_of line.now.statement)) }
    ensures limits { IfOk result IsInLimits }
    ensures err { (list : List layout.Label) → Knows labels.old list
        → IfErr result (λ fault. fault ≢ AsmFault.Memory
        → faults.line_fault number counter.now list (Ok (line_said line.now)) ≡ Some fault) }
{
    if let Some(column) = misaligned(&line.statement, here(counter)) {
        return Err(AsmFault::Line {
            line: number,
            fault: LineFault::BadOperand(column),
        });
    }
    add_labels(labels, number, counter, line)?;
    match counter_after(counter, &line.statement) {
        Some(after) => Ok(after),
        None => Err(AsmFault::TooLarge(number)),
    }
}
