//! What is read of a report is in its format.
ghost use Rattle.std.specs.Prelude.{◌≡◌, ℕ, List, Ok};
ghost use Rattle.report_reader.specs.Grammar.{IsReportOf};
ghost use Rattle.report_reader.specs.Report.{Report, report_in};

/// A file that is read as a report is, line by line, the report that says this: each of its lines has the
/// form of its place, and none is left over.
pub fn reports_are_in_the_format()
    ensures { (bytes : List ℕ) (report : Report) → report_in bytes ≡ Ok report → IsReportOf bytes report }
{}
