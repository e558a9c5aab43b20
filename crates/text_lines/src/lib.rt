//! Lines and words that several texts are written with, gathered into pieces that are written to a sink:
//! numbers and lines of numbers, and the words of stops, exceptions and events; and the kinds of lines of a
//! report, which its writer and its reader share. No memory is taken.
#![tactic(auto)]

mod forms;
mod lines;
mod words;

pub use forms::{FieldKind, Form, LineKind, Often, form_of, state_lines};
pub use lines::{
    flag_digit, hex32_digits, hex64_digits, put_counted, put_flag_line, put_flags_line, put_hex_line,
    put_number_line, put_value_lines,
};
pub use words::{put_event_words, put_exception, put_stop_line, put_stop_words};
