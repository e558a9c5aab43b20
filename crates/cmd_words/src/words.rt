//! The words of a command line, read into a command.
ghost use Rattle.std.specs.Prelude.{◌≡◌, ◌<◌, ◌≤◌, ◌+◌, true, map, slice_get, length, Option, Some, None};
ghost use Rattle.std.specs.Prelude.{option_map, option_and_then, IfOk, IfErr, OnOk, IsSome, MatchOption};
ghost use Rattle.std.specs.Option.{ForSome};
ghost use Rattle.std.specs.String.{string_bytes};
ghost use Rattle.line_reader.specs.Numbers.{is_decimal, decimal_value};
ghost use Rattle.cmd_words.specs.Forms as forms;
ghost use Rattle.cmd_words.specs.Options as options;
ghost use Rattle.cmd_words.specs.Words as spec;
ghost use Rattle.cmd_words.specs.Words.{command_of, form_asked, value_fault};
ghost use Rattle.cmd_words.specs.Command.{request_of, IsInRange, IsFirstFault};
ghost use Rattle.cmd_words.specs.Given.{given_of, form_said, reads_report, IsSoundTo, IsReadTo};

use crate::command::{Command, UsageKind, WordsFault};
use crate::form::{Form, Operand, form_of};
use crate::given::Given;
use crate::number::number_of;
use crate::setting::{Setting, setting_in, takes};
use crate::verb::{Verb, verb_of};
use std::alloc::Global;

/// The word at a place, if there is one.
fn word_at(words: &[String], place: usize) -> Option<&str>
    ensures { option_map (λ word. word.now) result ≡ slice_get (map string_bytes words.now) place }
{
    match words.get(place) {
        Some(word) => Some(word.as_str()),
        None => None,
    }
}

/// What is wrong at a place.
fn usage(place: usize, kind: UsageKind) -> WordsFault
    ensures { result ≡ WordsFault.Usage place kind }
{
    WordsFault::Usage { place, kind }
}

/// What is wrong with a word that is to be the number of a guest thread.
fn thread_fault(word: &str) -> Option<UsageKind>
    ensures { result ≡ spec.thread_fault word.now }
{
    match number_of(word) {
        Some(number) if number < 32 => None,
        Some(_) => Some(UsageKind::OutOfRange),
        None => Some(UsageKind::BadNumber),
    }
}

/// What is wrong with a word that is to be the number of a workload.
fn workload_fault(word: &str) -> Option<UsageKind>
    ensures { result ≡ spec.workload_fault word.now }
{
    match number_of(word) {
        Some(number) if 1 <= number && number <= 20_000 => None,
        Some(_) => Some(UsageKind::OutOfRange),
        None => Some(UsageKind::BadNumber),
    }
}

/// What is wrong with a word that is to be a count of instructions.
fn count_fault(word: &str) -> Option<UsageKind>
    ensures { result ≡ spec.count_fault word.now }
{
    match number_of(word) {
        Some(number) if number <= 4_294_967_295 => None,
        Some(_) => Some(UsageKind::OutOfRange),
        None => Some(UsageKind::BadNumber),
    }
}

/// What is wrong where an operand is to stand.
fn operand_fault(operand: Operand, word: Option<&str>) -> Option<UsageKind>
    ensures { result ≡ spec.operand_fault operand (option_map (λ word. word.now) word.entry) }
{
    match (operand, word) {
        (_, None) => Some(UsageKind::Missing),
        (Operand::Name, Some(_)) => None,
        (Operand::Thread, Some(word)) => thread_fault(word),
        (Operand::Workload, Some(word)) => workload_fault(word),
        (Operand::Count, Some(word)) => count_fault(word),
    }
}

/// What a word is that is none of the options.
fn no_option(options: &[Setting]) -> UsageKind
    ensures { result ≡ spec.no_option options.now }
{
    if options.is_empty() {
        UsageKind::Extra
    } else {
        UsageKind::Unknown
    }
}

/// The option of a word, which has not been given before.
fn read_setting(settings: &[Setting], word: &str, given: &Given) -> Result<Setting, UsageKind>
    ensures ok { IfOk result (λ setting. (options.setting_in settings.now word.now ≡ Some setting)
        × (given_of given.now setting ≡ None)) }
    ensures err { IfErr result (λ kind. MatchOption (options.setting_in settings.now word.now)
        (kind ≡ spec.no_option settings.now) (λ setting. (kind ≡ UsageKind.Repeated)
        × IsSome (given_of given.now setting))) }
{
    let Some(setting) = setting_in(settings, word) else {
        return Err(no_option(settings));
    };
    if given.get(setting).is_some() {
        return Err(UsageKind::Repeated);
    }
    Ok(setting)
}

/// The number of a word, which the option takes.
fn read_value(setting: Setting, word: &str) -> Result<u32, UsageKind>
    ensures ok { IfOk result (λ number. (is_decimal word.now ≡ true)
        × (number ≡ decimal_value word.now) × (options.takes setting number ≡ true)) }
    ensures err { IfErr result (λ kind. value_fault (Some setting) (Some word.now) ≡ Some kind) }
{
    match number_of(word) {
        Some(number) if takes(setting, number) => Ok(number as u32),
        Some(_) => Err(UsageKind::OutOfRange),
        None => Err(UsageKind::BadNumber),
    }
}

/// Reads the option at a place and its value after it.
fn read_option(
    words: &[String],
    form: Form,
    place: usize,
    given: &Given,
    word: &str,
) -> Result<Given, WordsFault>
    requires read { IsReadTo (map string_bytes words.now) (form_said form) place given.now }
    requires stands { slice_get (map string_bytes words.now) place ≡ Some word.now }
    ensures ok { IfOk result (IsReadTo (map string_bytes words.now) (form_said form) (place + 2)) }
    ensures err { IfErr result (IsFirstFault (map string_bytes words.now)) }
{
    let setting = match read_setting(form.options, word, given) {
        Ok(setting) => setting,
        Err(kind) => return Err(usage(place, kind)),
    };
    let after = place + 1;
    let Some(value) = word_at(words, after) else {
        return Err(usage(after, UsageKind::Missing));
    };
    match read_value(setting, value) {
        Ok(number) => Ok(given.with(setting, number)),
        Err(kind) => Err(usage(after, kind)),
    }
}

/// Reads the operands after a command.
fn read_operands(words: &[String], form: Form) -> Result<(), WordsFault>
    requires { form_asked (map string_bytes words.now) ≡ Some (form_said form) }
    ensures ok { OnOk result (IsSoundTo (map string_bytes words.now) (forms.options_from (form_said form))) }
    ensures err { IfErr result (IsFirstFault (map string_bytes words.now)) }
{
    for k in 0..form.operands.len() {
        let place = k + 1;
        if let Some(kind) = operand_fault(form.operands[k], word_at(words, place)) {
            return Err(usage(place, kind));
        }
    }
    Ok(())
}

/// Reads the options after the operands.
fn read_options(words: &[String], form: Form) -> Result<Given, WordsFault>
    requires asked { form_asked (map string_bytes words.now) ≡ Some (form_said form) }
    requires sound { IsSoundTo (map string_bytes words.now) (forms.options_from (form_said form)) }
    ensures ok { IfOk result (IsReadTo (map string_bytes words.now) (form_said form) (length words.now)) }
    ensures err { IfErr result (IsFirstFault (map string_bytes words.now)) }
{
    let mut given = Given::none();
    let mut place = 1 + form.operands.len();
    while let Some(word) = word_at(words, place) {
        given = read_option(words, form, place, &given, word)?;
        place += 2;
    }
    Ok(given)
}

/// Reads the words after a command: its operands, and its options.
fn read_form(words: &[String], form: Form) -> Result<Given, WordsFault>
    requires { form_asked (map string_bytes words.now) ≡ Some (form_said form) }
    ensures ok { IfOk result (IsReadTo (map string_bytes words.now) (form_said form) (length words.now)) }
    ensures err { IfErr result (IsFirstFault (map string_bytes words.now)) }
{
    read_operands(words, form)?;
    read_options(words, form)
}

/// The name at a place.
fn name_at(alloc: Global, words: &[String], place: usize) -> Result<String, WordsFault>
    requires { place < length words.now }
    ensures ok { IfOk result (λ name.
        slice_get (map string_bytes words.now) place ≡ Some (string_bytes name)) }
    ensures err { IfErr result (λ fault. fault ≡ WordsFault.Memory) }
{
    match String::from_str(alloc, words[place].as_str()) {
        Ok(name) => Ok(name),
        Err(_) => Err(WordsFault::Memory),
    }
}

/// The number of the guest thread at a place.
fn thread_at(words: &[String], place: usize) -> u32
    requires stands { place < length words.now }
    requires number { ForSome (slice_get (map string_bytes words.now) place)
        (λ word. spec.thread_fault word ≡ None) }
    ensures number { option_map decimal_value (slice_get (map string_bytes words.now) place)
        ≡ Some result }
    ensures in_range { result < 32 }
{
    match number_of(words[place].as_str()) {
        Some(number) => number as u32,
        None => unreachable!(),
    }
}

/// The number of the workload at a place.
fn workload_at(words: &[String], place: usize) -> u32
    requires stands { place < length words.now }
    requires number { ForSome (slice_get (map string_bytes words.now) place)
        (λ word. spec.workload_fault word ≡ None) }
    ensures number { option_map decimal_value (slice_get (map string_bytes words.now) place)
        ≡ Some result }
    ensures in_range { (1 ≤ result) × (result ≤ 20000) }
{
    match number_of(words[place].as_str()) {
        Some(number) => number as u32,
        None => unreachable!(),
    }
}

/// The count of instructions at a place.
fn count_at(words: &[String], place: usize) -> u32
    requires stands { place < length words.now }
    requires number { ForSome (slice_get (map string_bytes words.now) place)
        (λ word. spec.count_fault word ≡ None) }
    ensures { option_map decimal_value (slice_get (map string_bytes words.now) place) ≡ Some result }
{
    match number_of(words[place].as_str()) {
        Some(number) => number as u32,
        None => unreachable!(),
    }
}

/// The command of words without a fault, where it takes up a run by its report.
fn report_command(
    alloc: Global,
    words: &[String],
    verb: Verb,
    given: &Given,
) -> Result<Command, WordsFault>
    requires report { reads_report verb ≡ true }
    requires verb { option_and_then spec.verb_of (slice_get (map string_bytes words.now) 0) ≡ Some verb }
    requires read { IsReadTo (map string_bytes words.now) (forms.form_of verb) (length words.now) given.now }
    ensures command { IfOk result (λ command.
        command_of (map string_bytes words.now) ≡ Some (request_of command)) }
    ensures in_range { IfOk result IsInRange }
    ensures fault { IfErr result (λ fault. fault ≡ WordsFault.Memory) }
{
    match verb {
        Verb::Replay => Ok(Command::Replay {
            program: name_at(alloc, words, 1)?,
            report: name_at(alloc, words, 2)?,
            thread: thread_at(words, 3),
        }),
        Verb::Debug => Ok(Command::Debug {
            program: name_at(alloc, words, 1)?,
            report: name_at(alloc, words, 2)?,
            thread: thread_at(words, 3),
            script: name_at(alloc, words, 4)?,
        }),
        Verb::Ckpt => Ok(Command::Ckpt {
            program: name_at(alloc, words, 1)?,
            report: name_at(alloc, words, 2)?,
            thread: thread_at(words, 3),
            count: count_at(words, 4),
        }),
        Verb::Resume => Ok(Command::Resume {
            program: name_at(alloc, words, 1)?,
            report: name_at(alloc, words, 2)?,
            checkpoint: name_at(alloc, words, 3)?,
        }),
        Verb::AbiCheck => Ok(Command::AbiCheck {
            program: name_at(alloc, words, 1)?,
            report: name_at(alloc, words, 2)?,
            thread: thread_at(words, 3),
        }),
        _ => unreachable!(),
    }
}

/// The command of words without a fault.
fn make_command(
    alloc: Global,
    words: &[String],
    verb: Verb,
    given: &Given,
) -> Result<Command, WordsFault>
    requires verb { option_and_then spec.verb_of (slice_get (map string_bytes words.now) 0) ≡ Some verb }
    requires read { IsReadTo (map string_bytes words.now) (forms.form_of verb) (length words.now) given.now }
    ensures command { IfOk result (λ command.
        command_of (map string_bytes words.now) ≡ Some (request_of command)) }
    ensures in_range { IfOk result IsInRange }
    ensures fault { IfErr result (λ fault. fault ≡ WordsFault.Memory) }
{
    match verb {
        Verb::Run => Ok(Command::Run {
            program: name_at(alloc, words, 1)?,
            config: given.config(),
        }),
        Verb::Sim => Ok(Command::Sim {
            program: name_at(alloc, words, 1)?,
            plan: name_at(alloc, words, 2)?,
            config: given.config(),
        }),
        Verb::Dis => Ok(Command::Dis {
            program: name_at(alloc, words, 1)?,
        }),
        Verb::Asm => Ok(Command::Asm {
            source: name_at(alloc, words, 1)?,
        }),
        Verb::Replay | Verb::Debug | Verb::Ckpt | Verb::Resume | Verb::AbiCheck => report_command(
            alloc, words, verb, given,
        ),
        Verb::Vectors => Ok(Command::Vectors {
            file: name_at(alloc, words, 1)?,
            config: given.config(),
        }),
        Verb::Gen => Ok(Command::Gen {
            number: workload_at(words, 1),
        }),
        Verb::Bench => Ok(Command::Bench {
            number: workload_at(words, 1),
            cores: given.number(Setting::Cores),
        }),
        Verb::Help => Ok(Command::Help),
        Verb::Version => Ok(Command::Version),
    }
}

/// Reads the words of a command line, without the program's name: Ok is what they ask for, `Usage` is their
/// first fault, and `Memory` says that it was out of memory. A command's numbers are in their ranges.
pub fn read_words(alloc: Global, words: &[String]) -> Result<Command, WordsFault>
    ensures command { IfOk result (λ command.
        command_of (map string_bytes words.now) ≡ Some (request_of command)) }
    ensures in_range { IfOk result IsInRange }
    ensures fault { IfErr result (IsFirstFault (map string_bytes words.now)) }
{
    let Some(word) = word_at(words, 0) else {
        return Err(usage(0, UsageKind::Missing));
    };
    let Some(verb) = verb_of(word) else {
        return Err(usage(0, UsageKind::Unknown));
    };
    let given = read_form(words, form_of(verb))?;
    make_command(alloc, words, verb, &given)
}
