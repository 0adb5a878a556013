//! The same without faults: their counts are the constant 0.
ghost use Rattle.std.specs.Prelude.{◌≡◌, [], length, IfOk, IsOk, OnOk, OnErr};
ghost use Rattle.std.specs.Io.{ReadsAtMost};
ghost use Rattle.cu_base.specs.Causes.{HasCause, HasCauseOf};
ghost use Rattle.cu_io.specs.Named.{LacksName};
ghost use Rattle.cu_io.specs.Numbered.{calm_source, calm_sink, with_named, GivesMost};
ghost use Rattle.cu_io.specs.Streams.{Gives, TakesPiece, Writes};

use super::known::Known;
use super::reader::Reader;
use crate::{Inputs, OpenFault, Sink, SinkFault, Source};
use cu_base::{Blob, Failed, NoMemory, Text};
use std::alloc::Global;
use std::marker::Model;

/// A source in memory that never fails. Contracts see what is left and how many bytes it gave.
#[derive(Drop)]
pub struct NoFaultSource {
    reader: Reader,
}

impl Model for NoFaultSource {
    ghost use Rattle.cu_io.specs.Numbered.{Unread};

    ghost Value = { Unread };

    ghost view = { λ s. s.reader };
}

impl NoFaultSource {
    /// A source of these bytes.
    pub fn new(bytes: Blob) -> NoFaultSource
        ensures { result ≡ record { left = bytes; taken = 0 } }
    {
        NoFaultSource {
            reader: Reader::new(bytes),
        }
    }
}

impl Source for NoFaultSource {
    ghost use Rattle.cu_io.specs.Numbered.{calm_source};

    ghost seen = { λ s. calm_source s };

    fn read(&mut self, out: &mut [u8]) -> Result<usize, Failed>
        ensures bound { ReadsAtMost result out.new }
        ensures reads { Gives (calm_source self.old) (calm_source self.new) result out.new }
        ensures cause { HasCause 0 0 result }

        ensures only { IsOk result }
        ensures ok { IfOk result (GivesMost self.old.left out.old out.new) }
    {
        Ok(self.reader.give(out))
    }

    fn expected_len(&self) -> u64 {
        self.reader.left_len() as u64
    }
}

/// A sink in memory that never fails. Contracts see what was written.
#[derive(Drop)]
pub struct NoFaultSink {
    written: Blob,
}

impl Model for NoFaultSink {
    ghost use Rattle.std.specs.Prelude.{ℕ, List};

    ghost Value = { List ℕ };

    ghost view = { λ s. s.written };
}

impl NoFaultSink {
    /// A sink to which nothing was written.
    pub fn new(alloc: Global) -> NoFaultSink
        ensures { result ≡ [] }
    {
        NoFaultSink {
            written: Blob::new(alloc),
        }
    }

    /// What was written.
    pub fn as_slice(&self) -> &[u8]
        ensures { result.now ≡ self.now }
    {
        self.written.as_slice()
    }
}

impl Sink for NoFaultSink {
    ghost use Rattle.cu_io.specs.Numbered.{calm_sink};

    ghost seen = { λ s. calm_sink s };

    fn write(&mut self, bytes: &[u8]) -> Result<usize, SinkFault>
        ensures bound { TakesPiece result bytes.now }
        ensures writes { Writes (calm_sink self.old) (calm_sink self.new) result bytes.now }
        ensures cause { HasCauseOf SinkFault.Failed 0 0 result }

        ensures ok { IfOk result (λ n. n ≡ length bytes.now) }
    {
        match self.written.push_slice(bytes) {
            Ok(()) => Ok(bytes.len()),
            Err(_) => Err(SinkFault::Memory),
        }
    }
}

/// Inputs in memory that never fail. Contracts see the names and their bytes, the names asked for,
/// and how many bytes were taken.
#[derive(Drop)]
pub struct NoFaultInputs {
    known: Known,
}

impl Model for NoFaultInputs {
    ghost use Rattle.cu_io.specs.Numbered.{Askable};

    ghost Value = { Askable };

    ghost view = { λ s. s.known };
}

impl NoFaultInputs {
    /// No inputs.
    pub fn new(alloc: Global) -> NoFaultInputs
        ensures { result ≡ record { named = []; asked = []; taken = 0 } }
    {
        NoFaultInputs {
            known: Known::new(alloc),
        }
    }

    /// Adds an input of a new name.
    pub fn add(&mut self, name: Text, bytes: Blob) -> Result<(), NoMemory>
        requires { LacksName self.old.named name }
        ensures ok { OnOk result (self.new ≡ with_named name bytes self.old) }
        ensures err { OnErr result (self.new ≡ self.old) }
    {
        self.known.add(name, bytes)
    }
}

impl Inputs for NoFaultInputs {
    ghost use Rattle.cu_io.specs.Numbered.{calm_of};

    type Src = NoFaultSource;

    ghost seen = { λ s. calm_of s };

    fn open(&mut self, alloc: Global, name: &Text) -> Result<NoFaultSource, OpenFault> {
        if self.known.ask(alloc, name).is_err() {
            return Err(OpenFault::Memory);
        }
        let Some(bytes) = self.known.find(name) else {
            return Err(OpenFault::Missing);
        };
        match Blob::from_slice(alloc, bytes) {
            Ok(bytes) => Ok(NoFaultSource::new(bytes)),
            Err(_) => Err(OpenFault::Memory),
        }
    }

    fn fold(&mut self, src: NoFaultSource) {
        self.known.count(src.reader.taken());
    }
}
