//! The offsets of the capsule in hand.

ghost use Rattle.std.specs.Prelude.{◌≡◌, ◌<◌, [], ◌∷◌, ◌++◌, OnOk, OnErr, drop, take, get_or};
ghost use Rattle.std.specs.Prelude.{length};

use cu_base::NoMemory;
use std::alloc::Global;
use std::marker::Model;

/// A list of offsets. Contracts see the list of numbers.
#[derive(Drop)]
pub struct OffsetList {
    inside: Vec<u32>,
}

impl Model for OffsetList {
    ghost use Rattle.std.specs.Prelude.{ℕ, List};

    ghost Value = { List ℕ };

    ghost view = { λ o. o.inside.items };
}

impl OffsetList {
    /// No offsets. It takes no memory.
    pub fn new(alloc: Global) -> OffsetList
        ensures { result ≡ [] }
    {
        OffsetList {
            inside: Vec::new(alloc),
        }
    }

    /// Appends an offset.
    pub fn push(&mut self, offset: u32) -> Result<(), NoMemory>
        ensures ok { OnOk result (self.new ≡ self.old ++ offset ∷ []) }
        ensures err { OnErr result (self.new ≡ self.old) }
    {
        match self.inside.reserve(1) {
            Ok(()) => {
                self.inside.push_reserved(offset);
                Ok(())
            }
            Err(_) => Err(NoMemory),
        }
    }

    /// Forgets all behind the first `n`.
    pub fn truncate(&mut self, n: usize)
        ensures { self.new ≡ take n self.old }
    {
        self.inside.truncate(n);
    }

    /// Forgets the first `n`.
    pub fn forget(&mut self, n: usize)
        ensures { self.new ≡ drop n self.old }
    {
        if n == 0 {
            return;
        }
        if n >= self.inside.len() {
            self.inside.clear();
            return;
        }
        let end = self.inside.len();
        self.inside.copy_within(n..end, 0);
        self.inside.truncate(end - n);
    }

    /// How many there are.
    pub fn len(&self) -> usize
        ensures { result ≡ length self.now }
    {
        self.inside.len()
    }

    /// The offsets as a slice.
    pub fn as_slice(&self) -> &[u32]
        ensures { result.now ≡ self.now }
    {
        self.inside.as_slice()
    }
}

/// Offset `k`, and 0 where there is none.
pub fn offset_or(offsets: &[u32], k: u32) -> u32
    ensures { result ≡ get_or offsets.now k 0 }
{
    match offsets.get(k as usize) {
        Some(offset) => *offset,
        None => 0,
    }
}
