//! Readers and writers of std as sources and sinks, and inputs that are files.
ghost use Rattle.std.specs.Prelude.{◌≡◌, []};

use crate::{Inputs, OpenFault, Sink, SinkFault, Source};
use cu_base::{Failed, Names, Text};
use std::alloc::Global;
use std::fs::{File, OpenFile};
use std::io::{BufReader, Read, Write};
use std::rt::Files;

/// The most bytes that are read ahead of a file.
const AHEAD_BYTES: usize = 65_536;

/// A reader of std as a source: it tells what the reader tells of the bytes that remain. A read
/// that answers an error is a counted fault.
#[derive(Drop)]
pub struct FileSource<R: Read + Drop> {
    reader: R,
    expected: u64,
    taken: u64,
    faults: u64,
}

impl<R: Read + Drop> FileSource<R> {
    /// The source of a reader that may have about `expected` bytes left. Nothing was read of it.
    pub fn new(reader: R, expected: u64) -> FileSource<R>
        ensures reader { result.reader ≡ reader }
        ensures counts { (result.taken ≡ 0) × (result.faults ≡ 0) }
    {
        FileSource {
            reader,
            expected,
            taken: 0,
            faults: 0,
        }
    }
}

impl<R: Read + Drop> Source for FileSource<R> {
    ghost seen = { λ s. record {
      left = R.remaining s.reader;
      taken = s.taken;
      faults = s.faults;
    } };

    fn read(&mut self, out: &mut [u8]) -> Result<usize, Failed> {
        match self.reader.read(out) {
            Ok(n) => {
                self.taken = self.taken.saturating_add(n as u64);
                Ok(n)
            }
            Err(_) => {
                self.faults = self.faults.saturating_add(1);
                Err(Failed)
            }
        }
    }

    fn expected_len(&self) -> u64 {
        self.expected
    }
}

/// The files of the runtime, by path. They tell no content: what the operating system gives is
/// trusted. A file that is not there is a counted fault. Small reads are served from bytes that
/// were read ahead.
#[derive(Drop)]
pub struct FileInputs<'a, R: Files> {
    rt: &'a R,
    asked: Names,
    taken: u64,
    faults: u64,
}

impl<'a, R: Files> FileInputs<'a, R> {
    /// The files, of which none was asked for.
    pub fn new(alloc: Global, rt: &'a R) -> FileInputs<'a, R>
        ensures asked { result.asked.items ≡ [] }
        ensures counts { (result.taken ≡ 0) × (result.faults ≡ 0) }
    {
        FileInputs {
            rt,
            asked: Names::new(alloc),
            taken: 0,
            faults: 0,
        }
    }
}

impl<'a, R: Files> Inputs for FileInputs<'a, R> {
    ghost use Rattle.std.specs.Prelude.{None};

    type Src = FileSource<BufReader<R::File>>;

    ghost seen = { λ s. record {
      named = None;
      asked = s.asked.items;
      faults = s.faults;
      taken = s.taken;
    } };

    fn open(
        &mut self,
        alloc: Global,
        name: &Text,
    ) -> Result<FileSource<BufReader<R::File>>, OpenFault> {
        let Ok(kept) = Text::from_str(alloc, name.as_str()) else {
            return Err(OpenFault::Memory);
        };
        if self.asked.push(kept).is_err() {
            return Err(OpenFault::Memory);
        }
        let Ok(file) = File::open(self.rt, name.as_str()) else {
            self.faults = self.faults.saturating_add(1);
            return Err(OpenFault::Failed);
        };
        let expected = len_of(&file);
        match BufReader::with_capacity(alloc, AHEAD_BYTES, file) {
            Ok(reader) => Ok(FileSource::new(reader, expected)),
            Err(_) => Err(OpenFault::Memory),
        }
    }

    fn fold(&mut self, src: FileSource<BufReader<R::File>>) {
        self.taken = self.taken.saturating_add(src.taken);
        self.faults = self.faults.saturating_add(src.faults);
    }
}

/// The length of a file, and 0 where it is not known.
fn len_of<F: OpenFile>(file: &F) -> u64 {
    match file.metadata() {
        Ok(metadata) => metadata.len(),
        Err(_) => 0,
    }
}

/// A writer of std as a sink: it tells what the writer tells of its contents. A write that answers
/// an error, or takes nothing of a nonempty piece, is a counted fault.
#[derive(Drop)]
pub struct StdSink<W: Write + Drop> {
    writer: W,
    faults: u64,
}

impl<W: Write + Drop> StdSink<W> {
    /// The sink of a writer that has not failed.
    pub fn new(writer: W) -> StdSink<W>
        ensures writer { result.writer ≡ writer }
        ensures counts { result.faults ≡ 0 }
    {
        StdSink { writer, faults: 0 }
    }

    /// The writer, as far as it was written.
    pub fn into_inner(self) -> W
        ensures { result ≡ self.writer }
    {
        self.writer
    }
}

impl<W: Write + Drop> Sink for StdSink<W> {
    ghost seen = { λ s. record { written = W.contents s.writer; faults = s.faults } };

    fn write(&mut self, bytes: &[u8]) -> Result<usize, SinkFault> {
        match self.writer.write(bytes) {
            Ok(n) if n > 0 || bytes.is_empty() => Ok(n),
            _ => {
                self.faults = self.faults.saturating_add(1);
                Err(SinkFault::Failed)
            }
        }
    }
}
