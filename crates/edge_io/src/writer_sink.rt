//! A sink that writes to the system.
ghost use Rattle.std.specs.Prelude.{◌≡◌, ◌↔◌, ℕ, ◌+◌, ◌^◌, ◌<◌, ◌≤◌, ◌++◌, List, [], None, IfOk, IfErr, IsOk};
ghost use Rattle.std.specs.Prelude.{OnOk, OnErr, take, length};
ghost use Rattle.std.specs.Io.KnownBytes.{Appends, Keeps};
ghost use Rattle.edge_io.specs.Sink.{Writes};

use crate::sink::{PutFault, Sink};
use std::io::{ErrorKind, Stdout, Write};

/// A sink that writes to a file, a pipe or the like, and keeps no text back. It tells no content, since
/// others may write there too.
#[derive(Drop)]
pub struct WriterSink<W> {
    writer: W,
    faults: u64,
}

/// The sink at standard output.
pub type StdSink = WriterSink<Stdout>;

impl<W: Write + Drop> WriterSink<W> {
    ghost use Rattle.edge_io.specs.WriterSink.{writer_of, faults_of};

    /// Nothing failed yet.
    pub fn new(writer: W) -> WriterSink<W>
        ensures writer { writer_of result ≡ writer }
        ensures faults { faults_of result ≡ 0 }
    {
        WriterSink { writer, faults: 0 }
    }
}

impl<W: Write + Drop> Sink for WriterSink<W> {
    ghost use Rattle.edge_io.specs.WriterSink.{writer_of, view_of};

    ghost view = { view_of };

    /// Fails where the system takes nothing more or reports a fault. What the writer is known to hold grows
    /// by the piece, or after a fault by a part of it from the front.
    fn put(&mut self, bytes: &[u8]) -> Result<(), PutFault>
        ensures writes { Writes (view_of self.old) (view_of self.new) result bytes.now }
        ensures empty { bytes.now ≡ [] → IsOk result }
        ensures ok { OnOk result (Appends (W.contents (writer_of self.old)) (W.contents (writer_of self.new))
            bytes.now) }
        ensures err { OnErr result ((n : ℕ) × Appends (W.contents (writer_of self.old))
            (W.contents (writer_of self.new)) (take n bytes.now)) }
    {
        if bytes.is_empty() {
            return Ok(());
        }
        match write_whole(&mut self.writer, bytes) {
            Ok(()) => Ok(()),
            Err(fault) => {
                self.faults = self.faults.saturating_add(1);
                Err(fault)
            }
        }
    }
}

/// Writes the whole piece and flushes it.
fn write_whole<W: Write>(writer: &mut W, bytes: &[u8]) -> Result<(), PutFault>
    ensures ok { OnOk result (Appends (W.contents writer.old) (W.contents writer.new) bytes.now) }
    ensures err { OnErr result ((n : ℕ) × Appends (W.contents writer.old) (W.contents writer.new)
        (take n bytes.now)) }
{
    let mut written = 0;
    for _ in 0..u64::MAX {
        if written == bytes.len() {
            return flush(writer);
        }
        match write_part(writer, &bytes[written..]) {
            Ok(n) => written += n,
            Err(fault) => return Err(fault),
        }
    }
    Err(PutFault::Failed)
}

/// Writes a part of the bytes from the front, and gives its length: none where the write was interrupted.
fn write_part<W: Write>(writer: &mut W, bytes: &[u8]) -> Result<usize, PutFault>
    ensures within { IfOk result (λ n. n ≤ length bytes.now) }
    ensures ok { IfOk result (λ n. Appends (W.contents writer.old) (W.contents writer.new)
        (take n bytes.now)) }
    ensures err { OnErr result (Keeps (W.contents writer.old) (W.contents writer.new)) }
{
    match writer.write(bytes) {
        Ok(taken) => part_of(Ok(taken)),
        Err(error) => part_of(Err(error.kind())),
    }
}

/// How much of a piece that is not empty was written, by the answer to its write: what was taken, or
/// nothing where the write was interrupted, so that it is tried again. A write that takes nothing is a
/// fault, as every other error is.
fn part_of(answer: Result<usize, ErrorKind>) -> Result<usize, PutFault>
    ensures taken { IfOk answer (λ taken. (IsOk result ↔ (0 < taken)) × IfOk result (λ n. n ≡ taken)) }
    ensures fault { IfErr answer (λ kind.
        (IsOk result ↔ (kind ≡ ErrorKind.Interrupted)) × IfOk result (λ n. n ≡ 0)) }
{
    match answer {
        Ok(0) => Err(PutFault::Failed),
        Ok(taken) => Ok(taken),
        Err(ErrorKind::Interrupted) => Ok(0),
        Err(_) => Err(PutFault::Failed),
    }
}

fn flush<W: Write>(writer: &mut W) -> Result<(), PutFault>
    ensures { Keeps (W.contents writer.old) (W.contents writer.new) }
{
    match writer.flush() {
        Ok(()) => Ok(()),
        Err(_) => Err(PutFault::Failed),
    }
}

#[cfg(test)]
mod tests {
    use super::*;
    use crate::{DiskFiles, Files};
    use std::alloc::Global;
    use std::io::Read;
    use std::test::Fail;
    use std::{fs, io};

    /// Takes three bytes at a time, and is interrupted before each of them.
    #[derive(Drop)]
    struct Slow {
        held: Vec<u8>,
        calls: u64,
    }

    impl Write for Slow {
        fn write(&mut self, bytes: &[u8]) -> io::Result<usize> {
            self.calls = self.calls.saturating_add(1);
            if self.calls % 2 == 1 {
                return Err(io::Error::from(ErrorKind::Interrupted));
            }
            let end = bytes.len().min(3);
            self.held.extend_from_slice(&bytes[..end])?;
            Ok(end)
        }

        fn flush(&mut self) -> io::Result<()> {
            Ok(())
        }
    }

    #[test]
    fn goes_on_after_interruptions(rt: HostRuntime) -> Result<(), Fail> {
        let mut sink = WriterSink::new(Slow {
            held: Vec::new(rt.alloc()),
            calls: 0,
        });
        assert_eq!(rt; sink.put(b"eight by"), Ok(()));
        assert_eq!(rt; sink.writer.held.as_slice(), b"eight by".as_slice());
        assert_eq!(rt; sink.faults, 0);
        Ok(())
    }

    #[test]
    fn writes_to_a_file(rt: HostRuntime) -> Result<(), Fail> {
        let mut sink = WriterSink::new(fs::create(&rt, "lines.txt")?);
        for _ in 0..30000 {
            assert_eq!(rt; sink.put(b"ten bytes\n"), Ok(()));
        }
        let mut files = DiskFiles::new(rt);
        let bytes = files
            .fetch(rt.alloc(), "lines.txt", 299_995)
            .ok()
            .ok_or("no file")?;
        assert_eq!(rt; bytes.len(), 299_995);
        assert!(rt; bytes.as_slice().ends_with(b"\nten b"));
        Ok(())
    }

    #[test]
    fn writes_to_a_pipe(rt: HostRuntime) -> Result<(), Fail> {
        let (mut reader, writer) = io::pipe(&rt)?;
        let mut sink = WriterSink::new(writer);
        for piece in ["first\n", "", "second\n"] {
            assert_eq!(rt; sink.put(piece.as_bytes()), Ok(()), "{piece}");
        }
        drop(sink);
        let mut text = Vec::new(rt.alloc());
        reader.read_to_end(&mut text)?;
        assert_eq!(rt; text.as_slice(), b"first\nsecond\n".as_slice());
        Ok(())
    }

    #[test]
    fn reports_what_nobody_takes(rt: HostRuntime) -> Result<(), Fail> {
        let (reader, writer) = io::pipe(&rt)?;
        drop(reader);
        let mut closed = WriterSink::new(writer);
        assert_eq!(rt; closed.put(b"lost"), Err(PutFault::Failed));
        assert_eq!(rt; closed.put(b""), Ok(()));
        assert_eq!(rt; closed.faults, 1);

        let mut full = WriterSink::new(fs::create(&rt, "/dev/full")?);
        assert_eq!(rt; full.put(b"lost"), Err(PutFault::Failed));
        assert_eq!(rt; full.faults, 1);

        let mut standard = StdSink::new(rt.stdout());
        assert_eq!(rt; standard.put(b""), Ok(()));
        Ok(())
    }
}
