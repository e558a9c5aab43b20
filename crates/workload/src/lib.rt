//! The workload: sources for a benchmark, each known by its number. `write_source` writes the text of a
//! source and takes no memory; `source_text` gives it as bytes.
#![tactic(auto)]

mod laws;
mod source;
mod text_sink;

pub use laws::first_source;
pub use source::{source_text, write_source};
