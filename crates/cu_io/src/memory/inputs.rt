ghost use Rattle.std.specs.Prelude.{◌≡◌, ◌∷◌, [], ◌++◌, Some, IfOk, IsErrOf, OnOk, OnErr};
ghost use Rattle.cu_io.specs.Named.{LacksName, IsMissing};
ghost use Rattle.cu_io.specs.Numbered.{seen_of, source_seen, unread, unasked, with_input};
ghost use Rattle.cu_io.specs.Numbered.{StrikesOpening, KeepsPlan};
ghost use Rattle.cu_io.specs.Seen.{Follows, Asks, IsOpened, HasOpenCause, TakesBack};

use super::known::Known;
use crate::{Inputs, MemSource, OpenFault};
use cu_base::{Blob, NoMemory, Numbers, Text};
use std::alloc::Global;
use std::marker::Model;

/// Inputs in memory. Contracts see the names and their bytes, the names asked for, the numbers of
/// the calls of `open` that fail, those of the reads that fail at each source, and the counts.
#[derive(Drop)]
pub struct MemInputs {
    known: Known,
    open_fails: Numbers,
    read_fails: Numbers,
    calls: u64,
    faults: u64,
}

impl Model for MemInputs {
    ghost use Rattle.cu_io.specs.Numbered.{Findable};

    ghost Value = { Findable };

    ghost view = { λ s. record {
      named = s.known.named;
      asked = s.known.asked;
      open_fails = s.open_fails.items;
      read_fails = s.read_fails.items;
      calls = s.calls;
      taken = s.known.taken;
      faults = s.faults;
    } };
}

impl MemInputs {
    /// No inputs. The calls of `open` of the numbers `open_fails`, from 1, answer Failed, and each
    /// source fails at its own reads of the numbers `read_fails`.
    pub fn new(alloc: Global, open_fails: Numbers, read_fails: Numbers) -> MemInputs
        ensures { result ≡ unasked open_fails.items read_fails.items }
    {
        MemInputs {
            known: Known::new(alloc),
            open_fails,
            read_fails,
            calls: 0,
            faults: 0,
        }
    }

    /// Adds an input of a new name.
    pub fn add(&mut self, name: Text, bytes: Blob) -> Result<(), NoMemory>
        requires { LacksName self.old.named name }
        ensures ok { OnOk result (self.new ≡ with_input name bytes self.old) }
        ensures err { OnErr result (self.new ≡ self.old) }
    {
        self.known.add(name, bytes)
    }
}

impl Inputs for MemInputs {
    ghost use Rattle.cu_io.specs.Numbered.{seen_of};

    type Src = MemSource;

    ghost seen = { λ s. seen_of s };

    fn open(&mut self, alloc: Global, name: &Text) -> Result<MemSource, OpenFault>
        ensures ok { IfOk result (λ src. IsOpened (seen_of self.old) name.now (source_seen src)) }
        ensures refused { IsErrOf result OpenFault.Missing
            → IsMissing (Some self.old.named) name.now }
        ensures counts { Asks name.now (seen_of self.old) (seen_of self.new) result }
        ensures frame { Follows (seen_of self.old) (seen_of self.new) }
        ensures cause { HasOpenCause (seen_of self.old) (seen_of self.new) result }

        ensures strikes { StrikesOpening self.old self.new result }
        ensures plan { KeepsPlan self.old self.new }
        ensures source { IfOk result (λ src. (src.fails ≡ self.old.read_fails) × (src.calls ≡ 0)) }
    {
        self.calls = self.calls.saturating_add(1);
        if self.known.ask(alloc, name).is_err() {
            return Err(OpenFault::Memory);
        }
        if self.open_fails.as_slice().contains(&self.calls) {
            self.faults = self.faults.saturating_add(1);
            return Err(OpenFault::Failed);
        }
        let Some(bytes) = self.known.find(name) else {
            return Err(OpenFault::Missing);
        };
        source_of(alloc, bytes, self.read_fails.as_slice()).map_err(|_| OpenFault::Memory)
    }

    fn fold(&mut self, src: MemSource)
        ensures counts { TakesBack (source_seen src) (seen_of self.old) (seen_of self.new) }
        ensures frame { Follows (seen_of self.old) (seen_of self.new) }

        ensures calls { self.new.calls ≡ self.old.calls }
        ensures plan { KeepsPlan self.old self.new }
    {
        self.known.count(src.taken());
        self.faults = self.faults.saturating_add(src.faults());
    }
}

/// A source of these bytes, unread.
fn source_of(alloc: Global, bytes: &[u8], fails: &[u64]) -> Result<MemSource, NoMemory>
    ensures { IfOk result (λ src. src ≡ unread bytes.now fails.now) }
{
    let bytes = Blob::from_slice(alloc, bytes)?;
    let fails = Numbers::from_slice(alloc, fails)?;
    Ok(MemSource::new(bytes, fails))
}
