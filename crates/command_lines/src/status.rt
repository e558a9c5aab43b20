//! How a command ended.
ghost use Rattle.std.specs.Prelude.{◌≡◌};
ghost use Rattle.command_lines.specs.Status.{code_of};

/// How a command ended.
#[derive(Clone, Copy, Debug, PartialEq, Eq)]
pub enum Status {
    /// The command's text was written.
    Done,
    /// The words are no command.
    Usage,
    /// There is no file of the name.
    Absent,
    /// A file could not be read.
    ReadFault,
    /// The output could not be written; it holds a part of the text from the front.
    WriteFault,
    /// The file is no program that is loaded.
    BadFile,
    /// The file is no source that is assembled.
    BadSource,
    /// There was no memory; nothing was written, but by `debug` the answers of earlier commands.
    OutOfMemory,
    /// The file is no report of the program, or has no such thread.
    BadReport,
    /// The thread, run alone, and its report part.
    Differs,
    /// The file is no plan, or no script.
    BadPlan,
    /// The file is no checkpoint of the report, or there is none at that count.
    BadCheckpoint,
    /// A marked call of the thread is at fault.
    Unlawful,
    /// The file is no file of vectors.
    BadVectors,
}

impl Status {
    /// The exit status of the process.
    pub fn code(&self) -> u8
        ensures { result ≡ code_of self.now }
    {
        match self {
            Status::Done => 0,
            Status::Usage => 2,
            Status::Absent => 3,
            Status::ReadFault => 4,
            Status::WriteFault => 5,
            Status::BadFile => 6,
            Status::BadSource => 7,
            Status::OutOfMemory => 8,
            Status::BadReport => 9,
            Status::Differs => 10,
            Status::BadPlan => 11,
            Status::BadCheckpoint => 12,
            Status::Unlawful => 13,
            Status::BadVectors => 14,
        }
    }
}
