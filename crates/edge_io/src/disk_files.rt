//! The files of the system.
ghost use Rattle.std.specs.Prelude.{◌≡◌, ◌≢◌, ◌↔◌, IfOk, IfErr, IfSome, take};

use crate::files::{FileFault, Files};
use std::alloc::Global;
use std::io::{ErrorKind, Read};
use std::{fs, rt};

/// The files of a system, which it reads by their paths. It tells no content, since others may change it.
#[derive(Drop)]
pub struct DiskFiles<R> {
    system: R,
    absences: u64,
    faults: u64,
}

impl<R: rt::Files + Drop> DiskFiles<R> {
    ghost use Rattle.edge_io.specs.DiskFiles.{absences_of, faults_of};

    /// Nothing was absent yet, and nothing failed.
    pub fn new(system: R) -> DiskFiles<R>
        ensures absences { absences_of result ≡ 0 }
        ensures faults { faults_of result ≡ 0 }
    {
        DiskFiles {
            system,
            absences: 0,
            faults: 0,
        }
    }
}

impl<R: rt::Files + Drop> Files for DiskFiles<R> {
    ghost use Rattle.edge_io.specs.DiskFiles.{view_of};

    ghost view = { view_of };

    /// It tells nothing of what it has fetched.
    ghost fetched = { λ old name limit new. Unit {0} };

    /// `Absent` where the path leads nowhere. `Failed` for a directory, a path through a file, a name with a
    /// zero byte, and any other fault of the system. It reads no more than `limit` bytes, and nothing at
    /// a limit of 0.
    fn fetch(&mut self, alloc: Global, name: &str, limit: u64) -> Result<Vec<u8>, FileFault> {
        match read_file(&self.system, alloc, name, limit) {
            Ok(bytes) => Ok(bytes),
            Err(FileFault::Absent) => {
                self.absences = self.absences.saturating_add(1);
                Err(FileFault::Absent)
            }
            Err(FileFault::Failed) => {
                self.faults = self.faults.saturating_add(1);
                Err(FileFault::Failed)
            }
            Err(FileFault::Memory) => Err(FileFault::Memory),
        }
    }
}

fn read_file<R: rt::Files>(
    system: &R,
    alloc: Global,
    name: &str,
    limit: u64,
) -> Result<Vec<u8>, FileFault> {
    match fs::open(system, name) {
        Ok(file) => first_bytes(file, alloc, limit),
        Err(error) => Err(fault_of_open(error.kind())),
    }
}

/// The reader's first `limit` bytes, or all where it has fewer. An interrupted read is tried again.
fn first_bytes<R: Read + Drop>(reader: R, alloc: Global, limit: u64) -> Result<Vec<u8>, FileFault>
    ensures ok { IfOk result (λ bytes. IfSome (R.remaining reader) (λ content. bytes.items
        ≡ take limit content)) }
    ensures err { IfErr result (λ fault. fault ≢ FileFault.Absent) }
{
    let mut bytes = Vec::new(alloc);
    let mut first = reader.take(limit);
    match first.read_to_end(&mut bytes) {
        Ok(_) => Ok(bytes),
        Err(error) => Err(fault_of_read(error.kind())),
    }
}

/// The fault that an error in opening a file is.
fn fault_of_open(kind: ErrorKind) -> FileFault
    ensures absent { (result ≡ FileFault.Absent) ↔ (kind ≡ ErrorKind.NotFound) }
    ensures memory { (result ≡ FileFault.Memory) ↔ (kind ≡ ErrorKind.OutOfMemory) }
{
    match kind {
        ErrorKind::NotFound => FileFault::Absent,
        ErrorKind::OutOfMemory => FileFault::Memory,
        _ => FileFault::Failed,
    }
}

/// The fault that an error in reading a file is.
fn fault_of_read(kind: ErrorKind) -> FileFault
    ensures never_absent { result ≢ FileFault.Absent }
    ensures memory { (result ≡ FileFault.Memory) ↔ (kind ≡ ErrorKind.OutOfMemory) }
{
    match kind {
        ErrorKind::OutOfMemory => FileFault::Memory,
        _ => FileFault::Failed,
    }
}

#[cfg(test)]
mod tests {
    use super::*;
    use std::test::Fail;

    #[test]
    fn reads_files_of_the_system(rt: HostRuntime) -> Result<(), Fail> {
        fs::write(&rt, "twelve.txt", "twelve bytes")?;
        let mut files = DiskFiles::new(rt);
        let cases = [
            ("twelve.txt", 100, Ok("twelve bytes")),
            ("twelve.txt", 12, Ok("twelve bytes")),
            ("twelve.txt", 6, Ok("twelve")),
            ("no such file", 100, Err(FileFault::Absent)),
            (".", 100, Err(FileFault::Failed)),
            ("twelve.txt/below", 100, Err(FileFault::Failed)),
            ("zero\0byte", 100, Err(FileFault::Failed)),
        ];
        for (name, limit, want) in cases {
            match files.fetch(rt.alloc(), name, limit) {
                Ok(bytes) => assert_eq!(rt;
                    Ok(bytes.as_slice()),
                    want.map(|text| text.as_bytes()),
                    "{name}"
                ),
                Err(fault) => assert_eq!(rt; Some(fault), want.err(), "{name}"),
            }
        }
        assert_eq!(rt; files.absences, 1);
        assert_eq!(rt; files.faults, 3);
        Ok(())
    }
}
