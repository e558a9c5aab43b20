//! The outside as the emulator sees it: where files come from, where text goes, and a gate that each
//! turn of a worker passes.
//!
//! The traits say what every such place keeps to. `MemFiles`, `MemSink` and `OpenGate` are places in
//! memory, of which everything is proved. `DiskFiles` and `WriterSink`, with `StdSink` at standard output,
//! are the real ones: they loop over reads and writes, count what fails, and tell no content. A `Piece`
//! gathers the parts of a text, so that it costs few writes.
#![tactic(auto)]

mod disk_files;
mod files;
mod gate;
mod mem_files;
mod mem_sink;
mod piece;
mod sink;
mod writer_sink;

pub use disk_files::DiskFiles;
pub use files::{FileFault, Files};
pub use gate::{Gate, OpenGate};
pub use mem_files::MemFiles;
pub use mem_sink::MemSink;
pub use piece::{Piece, write_parts};
pub use sink::{PutFault, Sink};
pub use writer_sink::{StdSink, WriterSink};
