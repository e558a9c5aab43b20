//! A sink that keeps a text in memory and grows with it.
ghost use Rattle.std.specs.Prelude.{◌≡◌, []};
ghost use Rattle.edge_io.specs.Sink.{Writes};

use edge_io::{PutFault, Sink};
use std::alloc::Global;

/// A text that grows as it is written; a piece for which there is no memory fails.
#[derive(Drop)]
pub struct TextSink {
    text: Vec<u8>,
    faults: u64,
}

impl TextSink {
    ghost use Rattle.workload.specs.TextSink.{text_of};

    /// An empty text.
    pub fn new(alloc: Global) -> TextSink
        ensures { text_of result ≡ [] }
    {
        TextSink {
            text: Vec::new(alloc),
            faults: 0,
        }
    }

    /// The text.
    pub fn into_text(self) -> Vec<u8>
        ensures { result.items ≡ text_of self }
    {
        self.text
    }
}

impl Sink for TextSink {
    ghost use Rattle.workload.specs.TextSink.{view_of};

    ghost view = { view_of };

    /// Adds the piece, or leaves the text as it was and counts a fault. An empty piece never fails.
    fn put(&mut self, bytes: &[u8]) -> Result<(), PutFault>
        ensures { Writes (view_of self.old) (view_of self.new) result bytes.now }
    {
        if bytes.is_empty() {
            return Ok(());
        }
        match self.text.extend_from_slice(bytes) {
            Ok(()) => Ok(()),
            Err(_) => {
                self.faults = self.faults.saturating_add(1);
                Err(PutFault::Failed)
            }
        }
    }
}
