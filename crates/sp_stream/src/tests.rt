use crate::memory::{MemorySink, MemorySource};
use crate::real::{ReaderSource, WriterSink};
use crate::steady::{NullSink, SteadySource, fill};
use sp_base::failure::Failed;
use sp_base::io::{Sink, Source};
use std::io::{self, Read, Write};
use std::test::Fail;

#[test]
fn a_source_gives_pieces_and_fails_at_its_call(rt: HostRuntime) -> Result<(), Fail> {
    let alloc = rt.alloc();
    let bytes = Vec::from_slice(alloc, b"abc")?;
    let mut source = MemorySource::new(bytes, 2, Vec::from_slice(alloc, &[2])?);
    let mut into = [0u8; 8];
    assert_eq!(rt; source.read(&mut into), Ok(2));
    assert_eq!(rt; source.read(&mut into), Err(Failed));
    assert_eq!(rt; source.read(&mut into), Ok(1));
    assert_eq!(rt; into[0], b'c');
    assert_eq!(rt; source.read(&mut into), Ok(0));
    Ok(())
}

#[test]
fn a_sink_takes_pieces_and_fails_at_its_call(rt: HostRuntime) -> Result<(), Fail> {
    let alloc = rt.alloc();
    let mut sink = MemorySink::new(alloc, 1, Vec::from_slice(alloc, &[2])?);
    assert_eq!(rt; sink.write(b"ab"), Ok(1));
    assert_eq!(rt; sink.write(b"b"), Err(Failed));
    assert_eq!(rt; sink.write(b"b"), Ok(1));
    assert_eq!(rt; sink.flush(), Ok(()));
    assert!(rt; sink.as_slice() == b"ab".as_slice());
    Ok(())
}

/// A stream of the operating system that moves few bytes at a time, and then fails.
#[derive(Drop)]
struct Balky {
    bytes: Vec<u8>,
    most: usize,
    calls: usize,
}

impl Balky {
    fn new(bytes: Vec<u8>, most: usize, calls: usize) -> Balky {
        Balky { bytes, most, calls }
    }

    // Counts a call, of which only the first few succeed.
    fn call(&mut self) -> io::Result<()> {
        if self.calls == 0 {
            return Err(io::Error::from(io::ErrorKind::Other));
        }
        self.calls -= 1;
        Ok(())
    }
}

impl Read for Balky {
    fn read(&mut self, into: &mut [u8]) -> io::Result<usize> {
        self.call()?;
        Ok(fill(into, self.bytes.as_slice(), self.most))
    }
}

impl Write for Balky {
    fn write(&mut self, bytes: &[u8]) -> io::Result<usize> {
        self.call()?;
        let count = bytes.len().min(self.most);
        match self.bytes.extend_from_slice(&bytes[..count]) {
            Ok(()) => Ok(count),
            Err(_) => Err(io::Error::from(io::ErrorKind::OutOfMemory)),
        }
    }

    fn flush(&mut self) -> io::Result<()> {
        self.call()
    }
}

#[test]
fn steady_streams_pass_bytes_on(rt: HostRuntime) -> Result<(), Fail> {
    let alloc = rt.alloc();
    let mut into = [0u8; 2];
    let mut steady = SteadySource::new(Vec::from_slice(alloc, b"abc")?);
    assert_eq!(rt; steady.read(&mut into), Ok(2));
    assert_eq!(rt; into, *b"ab");
    assert_eq!(rt; NullSink.write(b"abc"), Ok(3));
    Ok(())
}

#[test]
fn a_source_over_a_reader_passes_short_reads_and_failures_on(rt: HostRuntime) -> Result<(), Fail> {
    let alloc = rt.alloc();
    let mut into = *b"....";
    let mut source = ReaderSource::new(Balky::new(Vec::from_slice(alloc, b"abc")?, 2, 1));
    assert_eq!(rt; source.read(&mut into), Ok(2));
    assert_eq!(rt; into, *b"ab..");
    assert_eq!(rt; source.read(&mut into), Err(Failed));
    Ok(())
}

#[test]
fn a_sink_over_a_writer_passes_short_writes_and_failures_on(rt: HostRuntime) -> Result<(), Fail> {
    let alloc = rt.alloc();
    let mut sink = WriterSink::new(Balky::new(Vec::new(alloc), 2, 2));
    assert_eq!(rt; sink.write(b"abc"), Ok(2));
    assert_eq!(rt; sink.flush(), Ok(()));
    assert_eq!(rt; sink.flush(), Err(Failed));
    assert_eq!(rt; sink.write(b"c"), Err(Failed));
    let mut stuck = WriterSink::new(Balky::new(Vec::new(alloc), 0, 1));
    assert_eq!(rt; stuck.write(b"abc"), Err(Failed));
    Ok(())
}
