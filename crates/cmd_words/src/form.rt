//! The forms of the commands: what stands after each of them.
ghost use Rattle.std.specs.Prelude.{◌≡◌};
ghost use Rattle.cmd_words.specs.Forms as spec;
ghost use Rattle.cmd_words.specs.Given.{form_said};

use crate::form::Operand::{Count, Name, Thread, Workload};
use crate::setting::Setting;
use crate::verb::Verb;

/// What must stand at a place.
#[derive(Clone, Copy)]
pub enum Operand {
    /// Any word, as the name of a file.
    Name,
    /// The number of a guest thread.
    Thread,
    /// The number of a workload.
    Workload,
    /// A count of instructions.
    Count,
}

/// What stands after a command: its operands, and then options, each with its value as the next word.
#[derive(Clone, Copy)]
pub struct Form {
    /// What must stand there, in order.
    pub operands: &'static [Operand],
    /// The options that may follow.
    pub options: &'static [Setting],
}

/// The options of commands that run threads.
const RUN_OPTIONS: &[Setting] = &[
    Setting::Vl,
    Setting::Svl,
    Setting::Slice,
    Setting::Budget,
    Setting::Threads,
    Setting::Cores,
];

/// The options of a command that runs single instructions.
const VECTOR_OPTIONS: &[Setting] = &[Setting::Vl, Setting::Svl, Setting::Cores];

impl Form {
    /// These operands, and then these options.
    fn of(operands: &'static [Operand], options: &'static [Setting]) -> Form
        ensures { form_said result ≡ record { operands = operands.now; options = options.now } }
    {
        Form { operands, options }
    }
}

/// The form of a command.
pub fn form_of(verb: Verb) -> Form
    ensures { form_said result ≡ spec.form_of verb }
{
    match verb {
        Verb::Run => Form::of(&[Name], RUN_OPTIONS),
        Verb::Sim => Form::of(&[Name, Name], RUN_OPTIONS),
        Verb::Dis | Verb::Asm => Form::of(&[Name], &[]),
        Verb::Replay | Verb::AbiCheck => Form::of(&[Name, Name, Thread], &[]),
        Verb::Debug => Form::of(&[Name, Name, Thread, Name], &[]),
        Verb::Ckpt => Form::of(&[Name, Name, Thread, Count], &[]),
        Verb::Resume => Form::of(&[Name, Name, Name], &[]),
        Verb::Vectors => Form::of(&[Name], VECTOR_OPTIONS),
        Verb::Gen => Form::of(&[Workload], &[]),
        Verb::Bench => Form::of(&[Workload], &[Setting::Cores]),
        Verb::Help | Verb::Version => Form::of(&[], &[]),
    }
}
