//! Where files come from.
ghost use Rattle.std.specs.Prelude.{◌≡◌, ◌≢◌, ℕ, List, Err, IsTrue};
ghost use Rattle.edge_io.specs.Files.{FilesView, FetchAnswer};

use std::alloc::Global;

/// Why a file was not fetched.
#[derive(Clone, Copy, Debug, PartialEq, Eq)]
pub enum FileFault {
    /// No file has the name.
    Absent,
    /// The file could not be read.
    Failed,
    /// Want of memory.
    Memory,
}

/// Where files come from. It may tell which files there are.
pub trait Files {
    /// What is known of it.
    ghost view: { Self → FilesView };

    /// What one fetch of a name with a limit makes of it. A caller who shows this of the place before and
    /// the place now has made that one fetch, and no other.
    ghost fetched: { Self → List ℕ → ℕ → Self → Type 0 };

    /// The file's first `limit` bytes, or all where it has fewer. `Absent` where no file has the name,
    /// `Failed` where it could not be read, `Memory` for want of memory.
    fn fetch(&mut self, alloc: Global, name: &str, limit: u64) -> Result<Vec<u8>, FileFault>
        ensures same { (view self.new).told ≡ (view self.old).told }
        ensures answer { FetchAnswer (view self.old) (view self.new) name.now limit result }
        ensures reliable { IsTrue (view self.old).reliable → IsTrue (view self.new).reliable }
        ensures never_failed { IsTrue (view self.old).reliable → result ≢ Err FileFault.Failed }
        ensures fetched { fetched self.old name.now limit self.new };
}
