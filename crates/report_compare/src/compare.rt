//! Whether a text that is written is one that is there: a sink that compares it, and one that keeps it.
ghost use Rattle.std.specs.Prelude.{◌≡◌, ◌≤◌, ◌+◌, ◌++◌, [], length, take, IsTrue};

use edge_io::{PutFault, Sink};
use line_reader::is_word;
use std::alloc::Global;

/// A sink that has a text, and takes pieces as long as they are those of that text.
#[derive(Drop)]
pub struct Comparison<'a> {
    expected: &'a [u8],
    /// How many bytes came, which are the first of the text.
    same: usize,
    faults: u64,
    ghost inside: { same ≤ length expected.now },
}

impl<'a> Comparison<'a> {
    ghost use Rattle.report_compare.specs.Compare.{came};

    /// With that text, of which nothing came yet.
    pub fn with(expected: &'a [u8]) -> Comparison<'a>
        ensures { came result ≡ [] }
    {
        Comparison {
            expected,
            same: 0,
            faults: 0,
        }
    }

    /// What came, which is the text from the front.
    pub fn came(&self) -> &[u8]
        ensures { result.now ≡ came self.now }
    {
        &self.expected[..self.same]
    }

    /// Whether the next bytes of the text are these.
    fn goes_on(&self, bytes: &[u8]) -> bool
        ensures next { IsTrue result → came self.now ++ bytes.now
            ≡ take (self.now.same + length bytes.now) self.now.expected.now }
        ensures inside { IsTrue result → self.now.same + length bytes.now ≤ length self.now.expected.now }
        ensures empty { length bytes.now ≡ 0 → IsTrue result }
    {
        bytes.len() <= self.expected.len() - self.same
            && is_word(&self.expected[self.same..self.same + bytes.len()], bytes)
    }
}

impl Sink for Comparison<'_> {
    ghost use Rattle.report_compare.specs.Compare.{comparison_view};

    ghost view = { comparison_view };

    /// Fails, and takes nothing of the piece, where it is not what comes next in the text.
    fn put(&mut self, bytes: &[u8]) -> Result<(), PutFault> {
        if self.goes_on(bytes) {
            self.same += bytes.len();
            return Ok(());
        }
        self.faults = self.faults.saturating_add(1);
        Err(PutFault::Failed)
    }
}

/// A sink that keeps all that is written.
#[derive(Drop)]
pub struct Kept {
    text: Vec<u8>,
    faults: u64,
}

impl Kept {
    /// Of nothing yet.
    pub fn new(alloc: Global) -> Kept
        ensures { result.text.items ≡ [] }
    {
        Kept {
            text: Vec::new(alloc),
            faults: 0,
        }
    }

    /// What it keeps.
    pub fn bytes(&self) -> &[u8]
        ensures { result.now ≡ self.now.text.items }
    {
        self.text.as_slice()
    }
}

impl Sink for Kept {
    ghost use Rattle.report_compare.specs.Compare.{kept_view};

    ghost view = { kept_view };

    fn put(&mut self, bytes: &[u8]) -> Result<(), PutFault> {
        match self.text.extend_from_slice(bytes) {
            Ok(()) => Ok(()),
            Err(_) => {
                self.faults = self.faults.saturating_add(1);
                Err(PutFault::Failed)
            }
        }
    }
}
