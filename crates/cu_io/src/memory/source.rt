ghost use Rattle.std.specs.Prelude.{◌≡◌, IfOk, OnErr};
ghost use Rattle.std.specs.Io.{ReadsAtMost};
ghost use Rattle.cu_base.specs.Causes.{HasCause};
ghost use Rattle.cu_io.specs.Streams.{Gives};
ghost use Rattle.cu_io.specs.Numbered.{unread, source_seen, GivesMost, StrikesReading};

use super::reader::Reader;
use crate::Source;
use cu_base::{Blob, Failed, Numbers};
use std::marker::Model;

/// A source in memory. Contracts see what is left, the numbers of the reads that fail, how many
/// reads there were, how many bytes they gave and how many failed.
#[derive(Drop)]
pub struct MemSource {
    reader: Reader,
    fails: Numbers,
    calls: u64,
    faults: u64,
}

impl Model for MemSource {
    ghost use Rattle.cu_io.specs.Numbered.{Readable};

    ghost Value = { Readable };

    ghost view = { λ s. record {
      left = s.reader.left;
      fails = s.fails.items;
      calls = s.calls;
      taken = s.reader.taken;
      faults = s.faults;
    } };
}

impl MemSource {
    /// A source of these bytes. Its reads of the numbers `fails`, from 1, answer Failed.
    pub fn new(bytes: Blob, fails: Numbers) -> MemSource
        ensures { result ≡ unread bytes fails.items }
    {
        MemSource {
            reader: Reader::new(bytes),
            fails,
            calls: 0,
            faults: 0,
        }
    }

    /// How many bytes its reads gave.
    pub fn taken(&self) -> u64
        ensures { result ≡ self.now.taken }
    {
        self.reader.taken()
    }

    /// How many of its reads failed.
    pub fn faults(&self) -> u64
        ensures { result ≡ self.now.faults }
    {
        self.faults
    }
}

impl Source for MemSource {
    ghost use Rattle.cu_io.specs.Numbered.{source_seen};

    ghost seen = { λ s. source_seen s };

    /// Gives as many bytes as there is room for and as are left.
    fn read(&mut self, out: &mut [u8]) -> Result<usize, Failed>
        ensures bound { ReadsAtMost result out.new }
        ensures reads { Gives (source_seen self.old) (source_seen self.new) result out.new }
        ensures cause { HasCause self.old.faults self.new.faults result }

        ensures ok { IfOk result (GivesMost self.old.left out.old out.new) }
        ensures err { OnErr result (out.new ≡ out.old) }
        ensures strikes { StrikesReading self.old self.new result }
    {
        self.calls = self.calls.saturating_add(1);
        if self.fails.as_slice().contains(&self.calls) {
            self.faults = self.faults.saturating_add(1);
            return Err(Failed);
        }
        Ok(self.reader.give(out))
    }

    fn expected_len(&self) -> u64 {
        self.reader.left_len() as u64
    }
}
