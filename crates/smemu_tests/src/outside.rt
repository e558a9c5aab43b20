//! The files and the writers of a system, where clauses cannot see them: what is opened, read, written and
//! flushed.

use edge_io::{DiskFiles, FileFault, Files, MemSink, Piece, PutFault, Sink, WriterSink};
use std::alloc::Allocator;
use std::cell::Cell;
use std::fs::{Metadata, OpenFile, OpenOptions};
use std::io::{ErrorKind, Read, Seek, SeekFrom, Write};
use std::test::Fail;
use std::{io, rt};

/// A file of some zeros. Every other read is interrupted, the others give three bytes, and a read past the
/// last one fails, where a kind is given.
#[derive(Drop)]
struct Zeros {
    left: usize,
    calls: u64,
    fails: Option<ErrorKind>,
}

impl Read for Zeros {
    fn read(&mut self, into: &mut [u8]) -> io::Result<usize> {
        self.calls = self.calls.saturating_add(1);
        if self.calls % 2 == 1 {
            return Err(io::Error::from(ErrorKind::Interrupted));
        }
        let count = into.len().min(3).min(self.left);
        if let Some(kind) = self.fails {
            if count == 0 {
                return Err(io::Error::from(kind));
            }
        }
        into[..count].fill(0);
        self.left -= count;
        Ok(count)
    }
}

impl Write for Zeros {
    fn write(&mut self, _bytes: &[u8]) -> io::Result<usize> {
        Err(io::Error::from(ErrorKind::Unsupported))
    }

    fn flush(&mut self) -> io::Result<()> {
        Ok(())
    }
}

impl Seek for Zeros {
    fn seek(&mut self, _to: SeekFrom) -> io::Result<u64> {
        Err(io::Error::from(ErrorKind::Unsupported))
    }
}

impl OpenFile for Zeros {
    fn metadata(&self) -> io::Result<Metadata> {
        Err(io::Error::from(ErrorKind::Unsupported))
    }

    fn set_len(&self, _size: u64) -> io::Result<()> {
        Err(io::Error::from(ErrorKind::Unsupported))
    }

    fn sync_all(&self) -> io::Result<()> {
        Ok(())
    }

    fn sync_data(&self) -> io::Result<()> {
        Ok(())
    }
}

/// A system with one file of eight zeros, `zeros`, which it opens, and `broken`, which cannot be read past
/// them; it counts how often it opens one. All other paths fail, in the way that their name says.
#[derive(Drop)]
struct System {
    opened: Cell<u64>,
}

impl rt::Files for System {
    type File = Zeros;

    type Dir = Zeros;

    fn open_file(&self, _how: &OpenOptions, path: &str) -> io::Result<Zeros> {
        self.opened.set(self.opened.get().saturating_add(1));
        let fails = match path {
            "zeros" => None,
            "broken" => Some(ErrorKind::NotFound),
            "locked" => return Err(io::Error::from(ErrorKind::PermissionDenied)),
            "folder" => return Err(io::Error::from(ErrorKind::IsADirectory)),
            "loop" => return Err(io::Error::from(ErrorKind::FilesystemLoop)),
            _ => return Err(io::Error::from(ErrorKind::NotFound)),
        };
        Ok(Zeros {
            left: 8,
            calls: 0,
            fails,
        })
    }

    fn open_dir(&self, _path: &str) -> io::Result<Zeros> {
        Err(io::Error::from(ErrorKind::Unsupported))
    }

    fn metadata(&self, _path: &str) -> io::Result<Metadata> {
        Err(io::Error::from(ErrorKind::Unsupported))
    }

    fn symlink_metadata(&self, _path: &str) -> io::Result<Metadata> {
        Err(io::Error::from(ErrorKind::Unsupported))
    }

    fn copy(&self, _from: &str, _to: &str) -> io::Result<u64> {
        Err(io::Error::from(ErrorKind::Unsupported))
    }

    fn rename(&self, _from: &str, _to: &str) -> io::Result<()> {
        Err(io::Error::from(ErrorKind::Unsupported))
    }

    fn remove_file(&self, _path: &str) -> io::Result<()> {
        Err(io::Error::from(ErrorKind::Unsupported))
    }

    fn create_dir(&self, _path: &str) -> io::Result<()> {
        Err(io::Error::from(ErrorKind::Unsupported))
    }

    fn remove_dir(&self, _path: &str) -> io::Result<()> {
        Err(io::Error::from(ErrorKind::Unsupported))
    }

    fn remove_dir_all<B: Allocator>(&self, _alloc: B, _path: &str) -> io::Result<()> {
        Err(io::Error::from(ErrorKind::Unsupported))
    }
}

#[test]
fn a_file_is_opened_once_and_read_to_its_limit(rt: HostRuntime) -> Result<(), Fail> {
    let cases: [(&str, u64, Result<usize, FileFault>); 9] = [
        ("zeros", 100, Ok(8)),
        ("zeros", 8, Ok(8)),
        ("zeros", 7, Ok(7)),
        ("zeros", 0, Ok(0)),
        ("broken", 9, Err(FileFault::Failed)),
        ("locked", 100, Err(FileFault::Failed)),
        ("folder", 100, Err(FileFault::Failed)),
        ("loop", 100, Err(FileFault::Failed)),
        ("nothing", 100, Err(FileFault::Absent)),
    ];
    for (name, limit, wanted) in cases {
        let system = System {
            opened: Cell::new(0),
        };
        let mut files = DiskFiles::new(&system);
        let fetched = files.fetch(rt.alloc(), name, limit);
        assert_eq!(rt; fetched.map(|bytes| bytes.len()), wanted, "{name} {limit}");
        drop(files);
        assert_eq!(rt; system.opened.get(), 1, "{name} {limit}");
    }
    Ok(())
}

/// A writer whose writes answer so many bytes, and whose flush fails where that is told.
#[derive(Drop)]
struct Stubborn {
    takes: usize,
    loses: bool,
}

impl Write for Stubborn {
    fn write(&mut self, bytes: &[u8]) -> io::Result<usize> {
        Ok(self.takes.min(bytes.len()))
    }

    fn flush(&mut self) -> io::Result<()> {
        if self.loses {
            return Err(io::Error::from(ErrorKind::StorageFull));
        }
        Ok(())
    }
}

#[test]
fn what_is_not_taken_or_not_flushed_is_a_fault(rt: HostRuntime) {
    let cases: [(usize, bool, &[u8], Result<(), PutFault>); 5] = [
        (0, false, b"text", Err(PutFault::Failed)),
        (0, false, b"", Ok(())),
        (2, false, b"text", Ok(())),
        (2, true, b"text", Err(PutFault::Failed)),
        (4, true, b"text", Err(PutFault::Failed)),
    ];
    for (takes, loses, text, wanted) in cases {
        let mut sink = WriterSink::new(Stubborn { takes, loses });
        assert_eq!(rt; sink.put(text), wanted, "{takes} {loses}");
    }
}

#[test]
fn a_text_is_written_in_pieces(rt: HostRuntime) -> Result<(), Fail> {
    let parts: [(u8, usize); 4] = [(b'a', 10_000), (b'b', 10_000), (b'c', 20_000), (b'd', 1)];
    // the call that fails after five bytes, and how many bytes are written then
    let cases: [(u64, usize); 5] = [(1, 5), (2, 10_005), (3, 20_005), (4, 40_001), (5, 40_001)];
    for (call, wanted) in cases {
        let mut out = MemSink::new(rt.alloc(), 100_000)?;
        out.fail(call, 5)?;
        let mut piece = Piece::new();
        let mut failed = false;
        for (byte, count) in parts {
            let bytes = vec![in rt.alloc(); byte; count]?;
            failed = failed || piece.put(&mut out, bytes.as_slice()).is_err();
        }
        failed = failed || piece.flush(&mut out).is_err();
        assert_eq!(rt; failed, call < 5, "{call}");
        assert_eq!(rt; out.bytes().len(), wanted, "{call}");
        assert!(rt; out.bytes().is_sorted(), "{call}");
    }
    Ok(())
}
