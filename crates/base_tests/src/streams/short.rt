//! Readers and writers of std that give and take at most two bytes a call, and fail at one call.

use cu_base::{Blob, NoMemory};
use cu_io::{
    FileSource, ReadFault, Room, StdSink, Stream, StreamFault, WriteFault, read_whole, write_whole,
};
use std::alloc::Global;
use std::io;
use std::io::{ErrorKind, Read, Write};
use std::test::Fail;

/// A reader of these bytes that fails at the call of a number, from 1.
#[derive(Drop)]
struct ShortReader<'a> {
    left: &'a [u8],
    calls: u64,
    fails: u64,
}

impl Read for ShortReader<'_> {
    fn read(&mut self, buf: &mut [u8]) -> io::Result<usize> {
        self.calls = self.calls.saturating_add(1);
        if self.calls == self.fails {
            return Err(io::Error::from(ErrorKind::Other));
        }
        let n = buf.len().min(self.left.len()).min(2);
        buf[..n].copy_from_slice(&self.left[..n]);
        self.left = &self.left[n..];
        Ok(n)
    }
}

/// A writer that fails at the call of a number, from 1, and one that takes nothing where it takes
/// 0.
#[derive(Drop)]
struct ShortWriter {
    written: Blob,
    takes: usize,
    calls: u64,
    fails: u64,
}

impl Write for ShortWriter {
    fn write(&mut self, buf: &[u8]) -> io::Result<usize> {
        self.calls = self.calls.saturating_add(1);
        if self.calls == self.fails {
            return Err(io::Error::from(ErrorKind::Other));
        }
        let n = buf.len().min(self.takes);
        match self.written.push_slice(&buf[..n]) {
            Ok(()) => Ok(n),
            Err(NoMemory) => Err(io::Error::from(ErrorKind::OutOfMemory)),
        }
    }

    fn flush(&mut self) -> io::Result<()> {
        Ok(())
    }
}

/// The source of `abcde` that fails at the call of this number.
fn source<'a>(fails: u64) -> FileSource<ShortReader<'a>> {
    let reader = ShortReader {
        left: b"abcde",
        calls: 0,
        fails,
    };
    FileSource::new(reader, 0)
}

/// A sink that takes this many bytes a call and fails at the call of this number.
fn sink(alloc: Global, takes: usize, fails: u64) -> StdSink<ShortWriter> {
    StdSink::new(ShortWriter {
        written: Blob::new(alloc),
        takes,
        calls: 0,
        fails,
    })
}

#[test]
fn short_reads_are_read_to_the_end(rt: HostRuntime) -> Result<(), Fail> {
    let all = read_whole(rt.alloc(), &mut source(0), 9)?;
    assert!(rt; all.as_slice() == b"abcde".as_slice());
    let mut stream = Stream::new(source(0), Room::new(rt.alloc())?);
    let mut out = [b'.'; 5];
    assert!(rt; stream.fill(&mut out).is_ok());
    assert!(rt; out == *b"abcde");
    assert!(rt; stream.pass(1) == Err(StreamFault::Ended));
    let _ = stream.into_source();
    Ok(())
}

/// The reads of five bytes: two, two, one, and none at the end.
#[test]
fn an_error_of_the_reader_is_no_end(rt: HostRuntime) -> Result<(), Fail> {
    for fails in 1..5u64 {
        let read = read_whole(rt.alloc(), &mut source(fails), 9);
        assert!(rt; matches!(&read, Err(ReadFault::Read)));
    }
    let mut stream = Stream::new(source(3), Room::new(rt.alloc())?);
    let mut out = [b'.'; 5];
    assert!(rt; stream.fill(&mut out) == Err(StreamFault::Failed));
    assert_eq!(rt; stream.place(), 4);
    let _ = stream.into_source();
    Ok(())
}

#[test]
fn short_writes_are_written_to_the_end(rt: HostRuntime) -> Result<(), Fail> {
    let mut out = sink(rt.alloc(), 2, 0);
    assert!(rt; write_whole(&mut out, b"abcde").is_ok());
    assert!(rt; out.into_inner().written.as_slice() == b"abcde".as_slice());
    Ok(())
}

#[test]
fn an_error_of_the_writer_is_not_written(rt: HostRuntime) -> Result<(), Fail> {
    let mut failing = sink(rt.alloc(), 2, 3);
    assert!(rt; write_whole(&mut failing, b"abcde") == Err(WriteFault::Write));
    assert!(rt; failing.into_inner().written.as_slice() == b"abcd".as_slice());
    let mut full = sink(rt.alloc(), 0, 0);
    assert!(rt; write_whole(&mut full, b"a") == Err(WriteFault::Write));
    Ok(())
}
