//! The labels of a line: that which stands on it, and those that its directive brings.
ghost use Rattle.std.specs.Prelude.{◌≡◌, ◌≢◌, [], ◌∷◌, map, option_map, OnOk, IfErr};
ghost use Rattle.asm_parser.specs.Statements.{line_said, says_of};
ghost use Rattle.asm_core.specs.Code as code;
ghost use Rattle.asm_core.specs.Layout as layout;
ghost use Rattle.asm_core.specs.Known.{HaveAdded, IsDoubledBy};
ghost use Rattle.asm_core.specs.Limits.{IsInLimits};

use crate::fault::AsmFault;
use crate::labels::{LabelPosition, Labels};
use crate::location_counter::{LocationCounter, here};
use crate::routines::{Routine, name_of, offset_of};
use asm_parser::{Line, Statement};

/// Adds a label of line number `number`, whose name no label before it has.
fn add_label<'a>(
    labels: &mut Labels<'a>,
    number: u32,
    name: &'a [u8],
    position: LabelPosition,
) -> Result<(), AsmFault>
    ensures ok { OnOk result (HaveAdded labels.old labels.new (layout.label_of name.now position ∷ [])) }
    ensures err { IfErr result (λ fault. fault ≢ AsmFault.Memory
        → IsDoubledBy number labels.old (layout.label_of name.now position ∷ []) fault) }
{
    if labels.find(name).is_some() {
        return Err(AsmFault::Doubled(number));
    }
    labels.add(name, position)?;
    Ok(())
}

/// Adds the label of a routine, as line number `number` puts the three at a location counter.
fn add_routine(
    labels: &mut Labels<'_>,
    number: u32,
    counter: &LocationCounter,
    routine: Routine,
) -> Result<(), AsmFault>
    requires { IsInLimits counter.now }
    ensures ok { OnOk result (HaveAdded labels.old labels.new
        (layout.label_past counter.now (code.named_byte routine) ∷ [])) }
    ensures err { IfErr result (λ fault. fault ≢ AsmFault.Memory
        → IsDoubledBy number labels.old
        (layout.label_past counter.now (code.named_byte routine) ∷ []) fault) }
{
    let position = LabelPosition {
        part: counter.part,
        offset: here(counter) + offset_of(routine),
    };
    add_label(labels, number, name_of(routine), position)
}

/// Adds the labels that the directive of line number `number` brings at a location counter.
fn add_names(
    labels: &mut Labels<'_>,
    number: u32,
    counter: &LocationCounter,
    statement: &Statement<'_>,
) -> Result<(), AsmFault>
    requires { IsInLimits counter.now }
    ensures ok { OnOk result (HaveAdded labels.old labels.new
        (map (layout.label_past counter.now) (code.names_said (says_of statement.now)))) }
    ensures err { IfErr result (λ fault. fault ≢ AsmFault.Memory
        → IsDoubledBy number labels.old
        (map (layout.label_past counter.now) (code.names_said (says_of statement.now))) fault) }
{
    match statement {
        Statement::SupportRoutines { .. } => {
            add_routine(labels, number, counter, Routine::Save)?;
            add_routine(labels, number, counter, Routine::Disable)?;
            add_routine(labels, number, counter, Routine::Restore)
        }
        _ => Ok(()),
    }
}

/// Adds the label that stands on line number `number` at a location counter.
fn add_own<'a>(
    labels: &mut Labels<'a>,
    number: u32,
    counter: &LocationCounter,
    label: Option<&'a [u8]>,
) -> Result<(), AsmFault>
    ensures ok { OnOk result (HaveAdded labels.old labels.new
        (layout.if_some (option_map (layout.label_at counter.now)
        (option_map (λ name. name.now) label.entry)))) }
    ensures err { IfErr result (λ fault. fault ≢ AsmFault.Memory → IsDoubledBy number labels.old
        (layout.if_some (option_map (layout.label_at counter.now)
        (option_map (λ name. name.now) label.entry)))
        fault) }
{
    let Some(name) = label else {
        return Ok(());
    };
    let position = LabelPosition {
        part: counter.part,
        offset: here(counter),
    };
    add_label(labels, number, name, position)
}

/// Adds the labels of line number `number` at a location counter, or tells that one of them has the name of
/// a label before it.
pub fn add_labels<'a>(
    labels: &mut Labels<'a>,
    number: u32,
    counter: &LocationCounter,
    line: &Line<'a>,
) -> Result<(), AsmFault>
    requires { IsInLimits counter.now }
    ensures ok { OnOk result
        (HaveAdded labels.old labels.new (layout.labels_at counter.now (line_said line.now))) }
    ensures err { IfErr result (λ fault. fault ≢ AsmFault.Memory
        → IsDoubledBy number labels.old (layout.labels_at counter.now (line_said line.now)) fault) }
{
    add_own(labels, number, counter, line.label)?;
    add_names(labels, number, counter, &line.statement)
}
