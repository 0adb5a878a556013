ghost use Rattle.std.specs.Prelude.{◌≡◌, length, IfOk};
ghost use Rattle.cu_io.specs.Numbered.{unwritten, sink_seen, StrikesWriting};
ghost use Rattle.cu_io.specs.Streams.{TakesPiece, Writes, WriteFails};

use crate::{Sink, SinkFault};
use cu_base::{Blob, Numbers};
use std::alloc::Global;
use std::marker::Model;

/// A sink in memory. Contracts see what was written, the numbers of the writes that fail, how many
/// writes there were and how many failed.
#[derive(Drop)]
pub struct MemSink {
    written: Blob,
    fails: Numbers,
    calls: u64,
    faults: u64,
}

impl Model for MemSink {
    ghost use Rattle.cu_io.specs.Numbered.{Writable};

    ghost Value = { Writable };

    ghost view = { λ s. record {
      written = s.written;
      fails = s.fails.items;
      calls = s.calls;
      faults = s.faults;
    } };
}

impl MemSink {
    /// A sink to which nothing was written. Its writes of the numbers `fails`, from 1, answer
    /// Failed.
    pub fn new(alloc: Global, fails: Numbers) -> MemSink
        ensures { result ≡ unwritten fails.items }
    {
        MemSink {
            written: Blob::new(alloc),
            fails,
            calls: 0,
            faults: 0,
        }
    }

    /// What was written.
    pub fn as_slice(&self) -> &[u8]
        ensures { result.now ≡ self.now.written }
    {
        self.written.as_slice()
    }
}

impl Sink for MemSink {
    ghost use Rattle.cu_io.specs.Numbered.{sink_seen};

    ghost seen = { λ s. sink_seen s };

    /// Takes the whole piece.
    fn write(&mut self, bytes: &[u8]) -> Result<usize, SinkFault>
        ensures bound { TakesPiece result bytes.now }
        ensures writes { Writes (sink_seen self.old) (sink_seen self.new) result bytes.now }
        ensures cause { WriteFails SinkFault.Failed (sink_seen self.old) (sink_seen self.new) result }

        ensures ok { IfOk result (λ n. n ≡ length bytes.now) }
        ensures strikes { StrikesWriting self.old self.new result }
    {
        self.calls = self.calls.saturating_add(1);
        if self.fails.as_slice().contains(&self.calls) {
            self.faults = self.faults.saturating_add(1);
            return Err(SinkFault::Failed);
        }
        match self.written.push_slice(bytes) {
            Ok(()) => Ok(bytes.len()),
            Err(_) => Err(SinkFault::Memory),
        }
    }
}
