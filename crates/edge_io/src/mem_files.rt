//! Files in memory.
ghost use Rattle.std.specs.Prelude.{◌≡◌, ◌≢◌, ℕ, ◌++◌, Option, Some, None, IsSome, List, [], ◌∷◌, take};
ghost use Rattle.std.specs.Prelude.{Contains, IsTrue, OnOk, OnErr, IfOk, IfErr, Err, ◌↔◌};
ghost use Rattle.edge_io.specs.Files.{FetchAnswer};

use crate::files::{FileFault, Files};
use sm_types::Memory;
use std::alloc::Global;
use std::collections::BTreeMap;

/// Files in memory: a map from names to bytes, and a list of the calls that fail.
#[derive(Drop)]
pub struct MemFiles {
    alloc: Global,
    entries: BTreeMap<String, Vec<u8>>,
    failing: Vec<u64>,
    made: u64,
    absences: u64,
    faults: u64,
}

impl MemFiles {
    ghost use Rattle.std.specs.Map.{update};
    ghost use Rattle.std.specs.Str.{bytes_eq};
    ghost use Rattle.edge_io.specs.MemFiles.{files_of, log_of};

    /// No file, and no failing call.
    pub fn new(alloc: Global) -> MemFiles
        ensures files { (name : List ℕ) → files_of result name ≡ None }
        ensures log { log_of result ≡ record { failing = []; made = 0; absences = 0; faults = 0 } }
    {
        MemFiles {
            alloc,
            entries: BTreeMap::new(alloc),
            failing: Vec::new(alloc),
            made: 0,
            absences: 0,
            faults: 0,
        }
    }

    /// Sets the bytes of a name. After want of memory the files are the same.
    pub fn add(&mut self, name: &str, bytes: &[u8]) -> Result<(), Memory>
        ensures ok { OnOk result ((other : List ℕ)
            → files_of self.new other
            ≡ update bytes_eq (files_of self.old) name.now (Some bytes.now) other) }
        ensures err { OnErr result ((other : List ℕ) → files_of self.new other ≡ files_of self.old other) }
        ensures log { log_of self.new ≡ log_of self.old }
    {
        let Ok(key) = String::from_str(self.alloc, name) else {
            return Err(Memory);
        };
        let Ok(content) = Vec::from_slice(self.alloc, bytes) else {
            return Err(Memory);
        };
        match self.entries.insert(key, content) {
            Ok(_) => Ok(()),
            Err(_) => Err(Memory),
        }
    }

    /// Lets that `fetch`, counted from 1, fail where its file is there. After want of memory the list is the
    /// same.
    pub fn fail(&mut self, call: u64) -> Result<(), Memory>
        ensures ok { OnOk result (log_of self.new
            ≡ record (log_of self.old) { failing = (log_of self.old).failing ++ call ∷ [] }) }
        ensures err { OnErr result (log_of self.new ≡ log_of self.old) }
        ensures files { (name : List ℕ) → files_of self.new name ≡ files_of self.old name }
    {
        match self.failing.push(call) {
            Ok(()) => Ok(()),
            Err(_) => Err(Memory),
        }
    }
}

/// The bytes of a file up to the limit.
fn first_bytes(alloc: Global, bytes: &[u8], limit: u64) -> Result<Vec<u8>, FileFault>
    ensures ok { IfOk result (λ copy. copy.items ≡ take limit bytes.now) }
    ensures err { IfErr result (λ fault. fault ≡ FileFault.Memory) }
{
    let end = if limit < bytes.len() as u64 {
        limit as usize
    } else {
        bytes.len()
    };
    match Vec::from_slice(alloc, &bytes[..end]) {
        Ok(copy) => Ok(copy),
        Err(_) => Err(FileFault::Memory),
    }
}

impl Files for MemFiles {
    ghost use Rattle.edge_io.specs.MemFiles.{files_of, log_of, view_of, IsAfterFetch};
    ghost use Rattle.edge_io.specs.Failing.{next_call};

    ghost view = { view_of };

    ghost fetched = { IsAfterFetch };

    /// A listed call fails exactly where the name is there.
    fn fetch(&mut self, alloc: Global, name: &str, limit: u64) -> Result<Vec<u8>, FileFault>
        ensures same { (view_of self.new).told ≡ (view_of self.old).told }
        ensures answer { FetchAnswer (view_of self.old) (view_of self.new) name.now limit result }
        ensures reliable { IsTrue (view_of self.old).reliable → IsTrue (view_of self.new).reliable }
        ensures never_failed { IsTrue (view_of self.old).reliable → result ≢ Err FileFault.Failed }
        ensures fetched { IsAfterFetch self.old name.now limit self.new }
        ensures failed { (result ≡ Err FileFault.Failed) ↔ (IsSome (files_of self.old name.now)
            × Contains (log_of self.old).failing (next_call (log_of self.old).made)) }
    {
        self.made = self.made.saturating_add(1);
        match self.entries.get(name) {
            None => {
                self.absences = self.absences.saturating_add(1);
                Err(FileFault::Absent)
            }
            Some(bytes) => {
                if self.failing.as_slice().contains(&self.made) {
                    self.faults = self.faults.saturating_add(1);
                    return Err(FileFault::Failed);
                }
                first_bytes(alloc, bytes.as_slice(), limit)
            }
        }
    }
}

#[cfg(test)]
mod tests {
    use super::*;
    use std::test::Fail;

    #[test]
    fn holds_files_and_fails_as_told(rt: HostRuntime) -> Result<(), Fail> {
        let mut files = MemFiles::new(rt.alloc());
        files.add("a", b"first")?;
        files.add("b", b"other")?;
        files.add("a", b"second")?;
        files.fail(2)?;
        let cases = [
            ("a", 100, Ok("second")),
            ("a", 100, Err(FileFault::Failed)),
            ("a", 3, Ok("sec")),
            ("c", 100, Err(FileFault::Absent)),
            ("b", 0, Ok("")),
        ];
        for (name, limit, want) in cases {
            match files.fetch(rt.alloc(), name, limit) {
                Ok(bytes) => assert_eq!(rt;
                    Ok(bytes.as_slice()),
                    want.map(|text| text.as_bytes()),
                    "{name}"
                ),
                Err(fault) => assert_eq!(rt; Some(fault), want.err(), "{name}"),
            }
        }
        Ok(())
    }
}
