//! A place that text is written to.
ghost use Rattle.edge_io.specs.Sink.{SinkView, Writes};

/// Why a piece was not written.
#[derive(Clone, Copy, Debug, PartialEq, Eq)]
pub enum PutFault {
    /// Not all of the piece could be written.
    Failed,
}

/// A place that bytes are added to. It may tell what it holds.
pub trait Sink {
    /// What is known of it.
    ghost view: { Self → SinkView };

    /// Adds the bytes, or fails and adds a part of them from the front. An empty piece never fails.
    fn put(&mut self, bytes: &[u8]) -> Result<(), PutFault>
        ensures { Writes (view self.old) (view self.new) result bytes.now };
}
