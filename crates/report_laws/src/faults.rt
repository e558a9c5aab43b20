//! The line at fault of a file that is no report is the first one.
ghost use Rattle.std.specs.Prelude.{◌≡◌, ℕ, List, Err};
ghost use Rattle.report_reader.specs.Reading.{Fault};
ghost use Rattle.report_reader.specs.Report.{report_in};
ghost use Rattle.report_laws.specs.FirstFault.{IsFaultOf};

/// A file that is no report is too long, or its fault goes by the lines up to it alone: no report in the
/// format begins with these, and every file that does has the same fault, whatever follows; and no file that
/// begins with the lines before it has a fault at one of these.
pub fn faults_are_of_their_lines()
    ensures { (bytes : List ℕ) (fault : Fault) → report_in bytes ≡ Err fault → IsFaultOf bytes fault }
{}
