//! What the words of a command line give.

use sm_types::Config;

/// A command with its names and numbers.
#[derive(Drop)]
pub enum Command {
    /// Runs the program file of that name.
    Run {
        program: String,
        config: Config,
    },
    /// Runs the program file of that name on cores, by the plan file of that name.
    Sim {
        program: String,
        plan: String,
        config: Config,
    },
    /// Lists the code words of the program file of that name.
    Dis {
        program: String,
    },
    /// Assembles the source file of that name.
    Asm {
        source: String,
    },
    /// Runs one thread of a report alone, on the program file of that name.
    Replay {
        program: String,
        report: String,
        thread: u32,
    },
    /// Carries out the commands of the script file of that name, over one thread of a report of the program
    /// file of that name.
    Debug {
        program: String,
        report: String,
        thread: u32,
        script: String,
    },
    /// Writes the checkpoint of one thread of a report, at a count of its instructions, on the program file
    /// of that name.
    Ckpt {
        program: String,
        report: String,
        thread: u32,
        count: u32,
    },
    /// Runs the thread of the checkpoint file of that name on from there, by its journal in the report of
    /// that name, on the program file of that name.
    Resume {
        program: String,
        report: String,
        checkpoint: String,
    },
    /// Checks the marked calls of one thread of a report, on the program file of that name.
    AbiCheck {
        program: String,
        report: String,
        thread: u32,
    },
    /// Runs the single instructions of the file of vectors of that name, for the vector lengths of the
    /// options, by as many workers as they say cores.
    Vectors {
        file: String,
        config: Config,
    },
    /// Writes the assembler source of the workload of that number, 1 to 20,000.
    Gen {
        number: u32,
    },
    /// Runs the workload of that number, 1 to 20,000, on that many cores, 1 to 64.
    Bench {
        number: u32,
        cores: u32,
    },
    /// Tells how the command is used.
    Help,
    /// Tells the version.
    Version,
}

/// What is wrong with a word, or that it is not there.
#[derive(Clone, Copy, Debug, PartialEq, Eq)]
pub enum UsageKind {
    /// It is no command, or no option.
    Unknown,
    /// The words end where one is to stand.
    Missing,
    /// The option has been given before.
    Repeated,
    /// It is not a number: decimal digits without a sign, and without a leading zero but in `0`.
    BadNumber,
    /// It is a number that the option does not take.
    OutOfRange,
    /// Nothing is to stand there.
    Extra,
}

/// Why the words are no command.
#[derive(Clone, Copy, Debug, PartialEq, Eq)]
pub enum WordsFault {
    /// The index of the first word with a fault, counted from 0, and what is wrong there.
    Usage { place: usize, kind: UsageKind },
    /// There was no memory for a name.
    Memory,
}
