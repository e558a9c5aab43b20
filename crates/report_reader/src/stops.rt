//! The line of a stop.
ghost use Rattle.std.specs.Prelude.{◌≡◌};
ghost use Rattle.report_reader.specs.Stops as spec;
ghost use Rattle.line_reader.specs.Fields.{field, Says};
ghost use Rattle.line_reader.specs.Told.{words_ahead};

use line_reader::{Fields, found_in};
use sm_types::{Access, Exception, Stop};

/// The exceptions, before their values.
#[derive(Clone, Copy)]
pub enum ExceptionName {
    Undefined,
    PcAlign,
    Fetch,
    Data,
    SpAlign,
    Align,
    IllegalStreaming,
    NotStreaming,
    ZaInactive,
    Breakpoint,
    Shared,
}

/// The stops, before their values.
#[derive(Clone, Copy)]
pub enum StopName {
    Exited,
    Raised,
    Killed,
    BadFrame,
    Budget,
    TraceFull,
    OutputFull,
}

/// The accesses by their words.
const ACCESSES: [(&[u8], Access); 2] = [(b"read", Access::Read), (b"write", Access::Write)];

/// The access of a word.
#[tactic(auto, unfolding(crate::specs::Stops::access_of, line_reader::specs::Tables::found))]
fn access_of(word: &[u8]) -> Option<Access>
    ensures { result ≡ spec.access_of word.now }
{
    found_in(&ACCESSES, word)
}

/// The exceptions by their words.
const EXCEPTIONS: [(&[u8], ExceptionName); 11] = [
    (b"undefined", ExceptionName::Undefined),
    (b"pcalign", ExceptionName::PcAlign),
    (b"fetch", ExceptionName::Fetch),
    (b"data", ExceptionName::Data),
    (b"spalign", ExceptionName::SpAlign),
    (b"align", ExceptionName::Align),
    (b"illegalstreaming", ExceptionName::IllegalStreaming),
    (b"notstreaming", ExceptionName::NotStreaming),
    (b"zainactive", ExceptionName::ZaInactive),
    (b"breakpoint", ExceptionName::Breakpoint),
    (b"shared", ExceptionName::Shared),
];

/// The exception of a word.
#[tactic(auto, unfolding(crate::specs::Stops::exception_of, line_reader::specs::Tables::found))]
fn exception_of(word: &[u8]) -> Option<ExceptionName>
    ensures { result ≡ spec.exception_of word.now }
{
    found_in(&EXCEPTIONS, word)
}

/// The stops by their words.
const STOPS: [(&[u8], StopName); 7] = [
    (b"exited", StopName::Exited),
    (b"raised", StopName::Raised),
    (b"killed", StopName::Killed),
    (b"badframe", StopName::BadFrame),
    (b"budget", StopName::Budget),
    (b"tracefull", StopName::TraceFull),
    (b"outputfull", StopName::OutputFull),
];

/// The stop of a word.
#[tactic(auto, unfolding(crate::specs::Stops::stop_of, line_reader::specs::Tables::found))]
fn stop_of(word: &[u8]) -> Option<StopName>
    ensures { result ≡ spec.stop_of word.now }
{
    found_in(&STOPS, word)
}

/// Reads the next word, which is that of an access.
fn read_access(words: &mut Fields) -> Option<Access>
    ensures { Says (field spec.access_of (words_ahead words.old)) result (words_ahead words.new) }
{
    let word = words.next()?;
    access_of(word)
}

/// Reads the next word, which is that of an exception.
fn read_exception_name(words: &mut Fields) -> Option<ExceptionName>
    ensures { Says (field spec.exception_of (words_ahead words.old)) result (words_ahead words.new) }
{
    let word = words.next()?;
    exception_of(word)
}

/// Reads the next word, which is that of a stop.
fn read_stop_name(words: &mut Fields) -> Option<StopName>
    ensures { Says (field spec.stop_of (words_ahead words.old)) result (words_ahead words.new) }
{
    let word = words.next()?;
    stop_of(word)
}

/// Reads the values of an exception.
#[tactic(auto, unfolding(crate::specs::Stops::exception_values))]
fn read_exception(name: ExceptionName, words: &mut Fields) -> Option<Exception>
    ensures { Says (spec.exception_values name (words_ahead words.old)) result (words_ahead words.new) }
{
    match name {
        ExceptionName::Undefined => Some(Exception::Undefined(words.hex(8)? as u32)),
        ExceptionName::PcAlign => Some(Exception::PcAlign),
        ExceptionName::Fetch => Some(Exception::Fetch),
        ExceptionName::Data => {
            let address = words.hex(16)?;
            let access = read_access(words)?;
            Some(Exception::Data { address, access })
        }
        ExceptionName::SpAlign => Some(Exception::SpAlign),
        ExceptionName::Align => Some(Exception::Align(words.hex(16)?)),
        ExceptionName::IllegalStreaming => Some(Exception::IllegalStreaming),
        ExceptionName::NotStreaming => Some(Exception::NotStreaming),
        ExceptionName::ZaInactive => Some(Exception::ZaInactive),
        ExceptionName::Breakpoint => Some(Exception::Breakpoint(words.number(0x1_0000)? as u16)),
        ExceptionName::Shared => Some(Exception::Shared(words.hex(16)?)),
    }
}

/// Reads the values of a stop.
#[tactic(auto, unfolding(crate::specs::Stops::stop_values))]
fn read_stop(name: StopName, words: &mut Fields) -> Option<Stop>
    ensures { Says (spec.stop_values name (words_ahead words.old)) result (words_ahead words.new) }
{
    match name {
        StopName::Exited => Some(Stop::Exited(words.number(0x100)? as u8)),
        StopName::Raised => {
            let name = read_exception_name(words)?;
            let pc = words.hex(16)?;
            let exception = read_exception(name, words)?;
            Some(Stop::Raised { exception, pc })
        }
        StopName::Killed => Some(Stop::Killed(words.number(0x1_0000_0000)? as u32)),
        StopName::BadFrame => Some(Stop::BadFrame(words.hex(16)?)),
        StopName::Budget => Some(Stop::Budget),
        StopName::TraceFull => Some(Stop::TraceFull),
        StopName::OutputFull => Some(Stop::OutputFull),
    }
}

/// The stop that a line says.
#[tactic(auto, unfolding(crate::specs::Stops::stop_line, line_reader::specs::Fields::said_by))]
pub fn stop_line(line: &[u8]) -> Option<Stop>
    ensures { result ≡ spec.stop_line line.now }
{
    let mut words = Fields::of(line);
    words.named(b"stop")?;
    let name = read_stop_name(&mut words)?;
    let stop = read_stop(name, &mut words)?;
    words.end(stop)
}
