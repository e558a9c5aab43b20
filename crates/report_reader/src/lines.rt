//! The lines of a report, read one after another, each with the part to which it should belong.
ghost use Rattle.std.specs.Prelude.{◌≡◌, Ok};
ghost use Rattle.line_reader.specs.Reading.{said_if, past_all, maybe_line};
ghost use Rattle.line_reader.specs.Told.{left_of};
ghost use Rattle.report_reader.specs.Block.{one, together};
ghost use Rattle.report_reader.specs.Forms as forms;
ghost use Rattle.report_reader.specs.Reading.{Reads, taken};
ghost use Rattle.report_reader.specs.Report.{nothing};
ghost use Rattle.text_lines.specs.Forms.{often_of};

use crate::fault::{ReportFault, ReportKind};
use crate::forms::is_line;
use line_reader::Lines;
use text_lines::{LineKind, Often, form_of};

/// Passes the next line, which says something; it is at fault where it does not.
pub fn take<T: Drop>(lines: &mut Lines, part: ReportKind, said: Option<T>) -> Result<T, ReportFault>
    ensures { Reads (taken part said (left_of lines.old)) result (left_of lines.new) }
{
    Ok(lines.take(ReportKind::NotText, part, said)?)
}

/// Passes the next line, which is as it should be; it is at fault where it is not.
pub fn expect(lines: &mut Lines, part: ReportKind, holds: bool) -> Result<(), ReportFault>
    ensures { Reads (taken part (said_if holds) (left_of lines.old)) result (left_of lines.new) }
{
    Ok(lines.expect(ReportKind::NotText, part, holds)?)
}

/// The lines end here; the next one is at fault where they do not.
pub fn end(lines: &Lines) -> Result<(), ReportFault>
    ensures { Reads (nothing (left_of lines.now)) result (left_of lines.now) }
{
    Ok(lines.end(ReportKind::NotText, ReportKind::End)?)
}

/// Passes one line of a block, of that kind.
fn pass_one(lines: &mut Lines, kind: LineKind) -> Result<(), ReportFault>
    ensures { Reads (one kind (left_of lines.old)) result (left_of lines.new) }
{
    let holds = is_line(kind, lines.line());
    expect(lines, ReportKind::Block, holds)
}

/// Passes a line of that kind, where one comes next.
fn pass_maybe(lines: &mut Lines, kind: LineKind)
    ensures { maybe_line {K = ReportKind} (forms.is_line kind) (left_of lines.old)
        ≡ Ok (tt, left_of lines.new) }
{
    if is_line(kind, lines.line()) {
        lines.pass();
    }
}

/// Passes the lines of a kind that come next.
fn pass_all(lines: &mut Lines, kind: LineKind)
    ensures { left_of lines.new ≡ past_all (forms.is_line kind) (left_of lines.old) }
{
    while is_line(kind, lines.line()) {
        lines.pass();
    }
}

/// Passes the lines of a kind, as often as it stands.
pub fn pass_kind(lines: &mut Lines, kind: LineKind) -> Result<(), ReportFault>
    ensures { Reads (together (often_of kind) kind (left_of lines.old)) result (left_of lines.new) }
{
    let form = form_of(kind);
    match form.often {
        Often::Once => pass_one(lines, kind),
        Often::AtMostOnce => {
            pass_maybe(lines, kind);
            Ok(())
        }
        Often::AnyTimes => {
            pass_all(lines, kind);
            Ok(())
        }
    }
}
