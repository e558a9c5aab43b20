//! The laws of the command's answers, which the program does not use: over files that are told, what words
//! ask for has one ending, with one status and, but for a run on several cores, one text; each text begins as
//! the text of help says of its status; where memory is wanting, nothing is written but by `debug`, and that
//! begins what is written where it is not; a program's file that is written is not longer than one that is
//! loaded; and the files that are named are those whose names the words say.
#![tactic(auto)]

mod laws;

pub use laws::{
    a_front_before_memory, begins_as_help_says, each_name_is_a_file, longest_program, one_answer,
    one_ending, only_debug_writes_before_memory, rests_end_or_part, resumed_where_replayed,
    resumes_as_replays,
};
