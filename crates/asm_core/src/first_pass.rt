//! The first pass over a source: its labels, and how large its parts become.
ghost use Rattle.std.specs.Prelude.{◌≡◌, ◌≢◌, ◌≤◌, List, [], None, Some, length};
ghost use Rattle.std.specs.Prelude.{IfOk, IfErr};
ghost use Rattle.asm_parser.specs.Statements.{line_said, says_of};
ghost use Rattle.asm_parser.specs.Lines.{line_of};
ghost use Rattle.asm_core.specs.Source.{lines_of, said_lines};
ghost use Rattle.asm_core.specs.Layout as layout;
ghost use Rattle.asm_core.specs.Faults.{line_fault, lines_fault};
ghost use Rattle.asm_core.specs.Limits.{IsInLimits, HasSmallAlign};
ghost use Rattle.asm_core.specs.Known.{Knows};
ghost use Rattle.asm_core.specs.Scanned.{fault_at, HasKept, Passes};
ghost use Rattle.asm_core.specs.Kept.{AreKept};

use crate::fault::AsmFault;
use crate::kept_words::{KeptWord, keep};
use crate::labels::Labels;
use crate::line_checks::check_line;
use crate::lines::next_line;
use crate::location_counter::{LocationCounter, first_counter};
use asm_parser::{Line, LineFault, parse_bytes};
use std::alloc::Global;

/// What the first pass finds: the labels, the location counter after the last line, and what is kept of each
/// line.
#[derive(Drop)]
pub struct FirstPass<'a> {
    pub labels: Labels<'a>,
    pub end: LocationCounter,
    pub kept: Vec<Option<KeptWord>>,
}

/// The fault of line number `number` that its parsing gave.
fn fault_at(number: u32, fault: LineFault) -> AsmFault
    ensures { result ≡ fault_at number fault }
{
    match fault {
        LineFault::Memory => AsmFault::Memory,
        LineFault::UnknownName(_)
        | LineFault::BadOperand(_)
        | LineFault::BadNumber(_)
        | LineFault::Extra(_) => AsmFault::Line {
            line: number,
            fault,
        },
    }
}

/// What line number `number` says.
fn read_line(alloc: Global, number: u32, text: &[u8]) -> Result<Line<'_>, AsmFault>
    requires { length text.now ≤ 67108864 }
    ensures ok { IfOk result (λ line. line_of text.now ≡ Ok (line_said line)) }
    ensures align { IfOk result (λ line. HasSmallAlign (says_of line.statement)) }
    ensures err { IfErr result (λ fault. fault ≢ AsmFault.Memory
        → (counter : LocationCounter) (list : List layout.Label)
        → line_fault number counter list (line_of text.now) ≡ Some fault) }
{
    match parse_bytes(alloc, text) {
        Ok(line) => Ok(line),
        Err(fault) => Err(fault_at(number, fault)),
    }
}

/// The location counter after line number `number`, whose labels are added and of which a word is kept, or
/// its fault.
fn scan_line<'a>(
    alloc: Global,
    number: u32,
    counter: &LocationCounter,
    labels: &mut Labels<'a>,
    kept: &mut Vec<Option<KeptWord>>,
    text: &'a [u8],
) -> Result<LocationCounter, AsmFault>
    requires short { length text.now ≤ 67108864 }
    requires limits { IsInLimits counter.now }
    ensures ok { (list : List layout.Label) → Knows labels.old list
        → IfOk result (λ after. Passes number counter.now list text.now after labels.new) }
    ensures kept { IfOk result (λ after. HasKept kept.old.items text.now kept.new.items) }
    ensures err { (list : List layout.Label) → Knows labels.old list
        → IfErr result (λ fault. fault ≢ AsmFault.Memory
        → line_fault number counter.now list (line_of text.now) ≡ Some fault) }
{
    let line = read_line(alloc, number, text)?;
    let after = check_line(number, counter, labels, &line)?;
    keep(kept, &line)?;
    Ok(after)
}

/// The first pass over a source: its labels and the sizes of its parts, or the fault of its first line that
/// has one.
pub fn scan_source<'a>(alloc: Global, source: &'a [u8]) -> Result<FirstPass<'a>, AsmFault>
    requires { length source.now ≤ 67108864 }
    ensures accepted { IfOk result
        (λ first_pass. lines_fault 1 layout.first_counter [] (lines_of source.now) ≡ None) }
    ensures knows { IfOk result
        (λ first_pass. Knows first_pass.labels (layout.labels_of (said_lines (lines_of source.now)))) }
    ensures end { IfOk result (λ first_pass. first_pass.end
        ≡ layout.counter_past layout.first_counter (said_lines (lines_of source.now))) }
    ensures limits { IfOk result (λ first_pass. IsInLimits first_pass.end) }
    ensures kept { IfOk result (λ first_pass. AreKept first_pass.kept.items (lines_of source.now)) }
    ensures err { IfErr result (λ fault. fault ≢ AsmFault.Memory
        → lines_fault 1 layout.first_counter [] (lines_of source.now) ≡ Some fault) }
{
    let mut labels = Labels::new(alloc);
    let mut kept = Vec::new(alloc);
    let mut counter = first_counter();
    let mut number = 1u32;
    let mut rest = source;
    while let Some((text, after)) = next_line(rest) {
        counter = scan_line(alloc, number, &counter, &mut labels, &mut kept, text)?;
        number += 1;
        rest = after;
    }
    Ok(FirstPass {
        labels,
        end: counter,
        kept,
    })
}
