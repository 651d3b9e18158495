//! Runs of the forms in memory and of the adapters, by the calls that a program makes.
use outside_io::{MemorySink, MemorySource, Sink, Source, StdSink, StdSource};
use std::alloc::{AllocError, Global};
use std::io;
use std::io::{Error, ErrorKind, Read, Write};
use std::process::Abort;
use std::test::Fail;

/// Copies a source of up to 300 bytes, three at a time. Nothing where a call failed.
fn copy<R: Source, W: Sink>(source: &mut R, sink: &mut W) -> Option<usize> {
    let mut total = 0usize;
    for _ in 0..101 {
        let mut buffer = [0; 3];
        let count = source.read(&mut buffer).ok()?;
        if count == 0 {
            return Some(total);
        }
        sink.write(&buffer[..count]).ok()?;
        total = total.saturating_add(count);
    }
    None
}

/// Copies a line in memory, failing these reads and writes, and tells what the sink then has.
fn copied(alloc: Global, reads: &[u64], writes: &[u64]) -> Result<Vec<u8>, AllocError> {
    let bytes = Vec::from_slice(alloc, b"1 begin\n")?;
    let mut source = MemorySource::new(bytes, Vec::from_slice(alloc, reads)?);
    let mut sink = MemorySink::new(alloc, Vec::from_slice(alloc, writes)?);
    let _ = copy(&mut source, &mut sink);
    Vec::from_slice(alloc, sink.bytes())
}

/// The bytes are these.
fn expect_bytes(rt: &impl Abort, told: &[u8], wanted: &[u8]) {
    assert!(rt; told == wanted);
}

/// A copy of the line in memory, failing these reads and writes, comes so far.
fn expect_copied(
    rt: &impl Abort,
    alloc: Global,
    reads: &[u64],
    writes: &[u64],
    wanted: &[u8],
) -> Result<(), AllocError> {
    expect_bytes(rt, copied(alloc, reads, writes)?.as_slice(), wanted);
    Ok(())
}

#[test]
fn copies_in_memory_up_to_a_failure(rt: HostRuntime) -> Result<(), Fail> {
    expect_copied(&rt, rt.alloc(), &[], &[], b"1 begin\n")?;
    expect_copied(&rt, rt.alloc(), &[3], &[], b"1 begi")?;
    expect_copied(&rt, rt.alloc(), &[], &[2], b"1 b")?;
    Ok(())
}

#[test]
fn copies_by_streams_of_std(rt: HostRuntime) {
    let mut bytes = Vec::new(rt.alloc());
    let mut source = StdSource::new(b"1 begin\n".as_slice());
    let mut sink = StdSink::new(&mut bytes);
    assert!(rt; copy(&mut source, &mut sink) == Some(8));
    expect_bytes(&rt, bytes.as_slice(), b"1 begin\n");
}

/// A stream of std that counts its calls. The first ones, so many, end with an error of this kind.
#[derive(Drop)]
struct Faulty<S> {
    inner: S,
    errors: u32,
    kind: ErrorKind,
    calls: u32,
}

impl<S> Faulty<S> {
    fn new(inner: S, errors: u32, kind: ErrorKind) -> Faulty<S> {
        Faulty {
            inner,
            errors,
            kind,
            calls: 0,
        }
    }

    /// One call more, and its error where it has one.
    fn count(&mut self) -> io::Result<()> {
        self.calls = self.calls.saturating_add(1);
        if self.errors < self.calls {
            return Ok(());
        }
        Err(Error::from(self.kind))
    }
}

impl<R: Read> Read for Faulty<R> {
    fn read(&mut self, into: &mut [u8]) -> io::Result<usize> {
        self.count()?;
        self.inner.read(into)
    }
}

impl<W: Write> Write for Faulty<W> {
    fn write(&mut self, piece: &[u8]) -> io::Result<usize> {
        self.count()?;
        self.inner.write(piece)
    }

    fn flush(&mut self) -> io::Result<()> {
        self.inner.flush()
    }
}

/// What a call through an adapter told: what it read or wrote, or nothing where it failed; how often it called
/// the stream under it; how many faults it counted; and what then stands in four bytes that it read into or that
/// the stream wrote into.
#[derive(Clone, Copy, PartialEq, Eq)]
struct Told {
    done: Option<usize>,
    calls: u32,
    faults: u64,
    bytes: [u8; 4],
}

/// The call told this.
fn expect_told(rt: &impl Abort, told: Told, wanted: Told) {
    assert!(rt; told == wanted);
}

/// The call went well: so much was done in so many calls, and then the bytes are these.
const fn went_well(done: usize, calls: u32, bytes: [u8; 4]) -> Told {
    Told {
        done: Some(done),
        calls,
        faults: 0,
        bytes,
    }
}

/// The call failed after so many calls, was counted as one fault, and left the bytes as they were.
const fn failed(calls: u32) -> Told {
    Told {
        done: None,
        calls,
        faults: 1,
        bytes: [0; 4],
    }
}

/// Reads four bytes from a reader of eight, whose first reads fail so.
fn read_through(errors: u32, kind: ErrorKind) -> Told {
    let mut reader = Faulty::new(b"1 begin\n".as_slice(), errors, kind);
    let mut source = StdSource::new(&mut reader);
    let mut bytes = [0; 4];
    let done = source.read(&mut bytes).ok();
    let faults = source.faults();
    let calls = reader.calls;
    Told {
        done,
        calls,
        faults,
        bytes,
    }
}

/// Writes the piece to a writer with room for four bytes, whose first writes fail so.
fn write_through(errors: u32, kind: ErrorKind, piece: &[u8]) -> Told {
    let mut bytes = [0; 4];
    let mut writer = Faulty::new(bytes.as_mut_slice(), errors, kind);
    let mut sink = StdSink::new(&mut writer);
    let done = sink.write(piece).ok();
    let faults = sink.faults();
    let calls = writer.calls;
    Told {
        done,
        calls,
        faults,
        bytes,
    }
}

#[test]
fn a_read_is_the_readers_own(rt: HostRuntime) {
    let well = read_through(0, ErrorKind::Other);
    expect_told(&rt, well, went_well(4, 1, *b"1 be"));
    let again = read_through(3, ErrorKind::Interrupted);
    expect_told(&rt, again, went_well(4, 4, *b"1 be"));
    expect_told(&rt, read_through(1, ErrorKind::WouldBlock), failed(1));
    let no_end = read_through(u32::MAX, ErrorKind::Interrupted);
    expect_told(&rt, no_end, failed(100_000));
}

#[test]
fn a_write_is_the_writers_own(rt: HostRuntime) {
    let well = write_through(0, ErrorKind::Other, b"abc");
    expect_told(&rt, well, went_well(3, 1, *b"abc\0"));
    let again = write_through(3, ErrorKind::Interrupted, b"abcdef");
    expect_told(&rt, again, went_well(4, 4, *b"abcd"));
    expect_told(
        &rt,
        write_through(1, ErrorKind::WouldBlock, b"abc"),
        failed(1),
    );
    let no_end = write_through(u32::MAX, ErrorKind::Interrupted, b"abc");
    expect_told(&rt, no_end, failed(100_000));
    let nothing = write_through(0, ErrorKind::Other, b"");
    expect_told(&rt, nothing, went_well(0, 0, [0; 4]));
}

#[test]
fn a_full_writer_is_a_failure(rt: HostRuntime) {
    let mut room = [0; 2];
    let mut sink = StdSink::new(room.as_mut_slice());
    assert!(rt; sink.write(b"abcd").ok() == Some(2), "a part of the piece");
    assert!(rt; sink.write(b"cd").is_err(), "no room");
    assert!(rt; sink.faults() == 1);
}
