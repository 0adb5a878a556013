ghost use Rattle.std.specs.Prelude.{◌≡◌, [], OnOk, OnErr, option_map};
ghost use Rattle.cu_io.specs.Named.{LacksName, bytes_named};
ghost use Rattle.cu_io.specs.Numbered.{with_named, with_asked, with_taken};

use crate::Loaded;
use cu_base::{Blob, Names, NoMemory, Text};
use std::alloc::Global;
use std::marker::Model;

/// Named bytes in memory, the names that were asked for, and how many bytes were taken.
#[derive(Drop)]
pub struct Known {
    loaded: Loaded,
    asked: Names,
    taken: u64,
}

impl Model for Known {
    ghost use Rattle.cu_io.specs.Numbered.{Askable};

    ghost Value = { Askable };

    ghost view = { λ k. record { named = k.loaded.items; asked = k.asked.items; taken = k.taken } };
}

impl Known {
    /// No names.
    pub fn new(alloc: Global) -> Known
        ensures { result ≡ record { named = []; asked = []; taken = 0 } }
    {
        Known {
            loaded: Loaded::new(alloc),
            asked: Names::new(alloc),
            taken: 0,
        }
    }

    /// Adds the bytes of a new name.
    pub fn add(&mut self, name: Text, bytes: Blob) -> Result<(), NoMemory>
        requires { LacksName self.old.named name }
        ensures ok { OnOk result (self.new ≡ with_named name bytes self.old) }
        ensures err { OnErr result (self.new ≡ self.old) }
    {
        self.loaded.push((name, bytes))
    }

    /// Keeps that a name was asked for.
    pub fn ask(&mut self, alloc: Global, name: &Text) -> Result<(), NoMemory>
        ensures ok { OnOk result (self.new ≡ with_asked name.now self.old) }
        ensures err { OnErr result (self.new ≡ self.old) }
    {
        let kept = Text::from_str(alloc, name.as_str())?;
        self.asked.push(kept)
    }

    /// The bytes of a name.
    pub fn find(&self, name: &Text) -> Option<&[u8]>
        ensures { option_map (λ bytes. bytes.now) result ≡ bytes_named self.now.named name.now }
    {
        self.loaded.get(name.as_str())
    }

    /// Counts bytes that were taken.
    pub fn count(&mut self, taken: u64)
        ensures { self.new ≡ with_taken taken self.old }
    {
        self.taken = self.taken.saturating_add(taken);
    }
}
