ghost use Rattle.std.specs.Prelude.{◌≡◌, ℕ, ◌+◌, ◌≤◌, ◌<◌, [], ◌∷◌, ◌++◌, length, OnOk, OnErr};
ghost use Rattle.std.specs.Prelude.{IsOk, option_map, option_copied, slice_get};
ghost use Rattle.cu_io.specs.Named.{bytes_named, LacksName, HasDistinctNames};

use cu_base::{Blob, Items, NoMemory, Text};
use std::alloc::Global;
use std::marker::Model;

/// Inputs that were read: pairs of name and bytes, the names distinct.
#[derive(Drop)]
pub struct Loaded {
    list: Items<(Text, Blob)>,
}

impl Model for Loaded {
    ghost use Rattle.std.specs.Prelude.{ℕ, List};
    ghost use Rattle.cu_base.specs.Kept.{Kept};
    ghost use Rattle.cu_io.specs.Named.{HasDistinctNames};

    ghost Value = { Kept (List ℕ × List ℕ) };

    ghost view = { λ a. a.list };

    ghost invariant = { λ a. HasDistinctNames a.list.items };
}

impl Loaded {
    /// No inputs. It takes no memory.
    pub fn new(alloc: Global) -> Loaded
        ensures { result.items ≡ [] }
    {
        Loaded {
            list: Items::new(alloc),
        }
    }

    /// Appends an input of a new name. It is Ok wherever `spare` is at least 1.
    pub fn push(&mut self, item: (Text, Blob)) -> Result<(), NoMemory>
        requires { LacksName self.old.items item.0 }
        ensures ok { OnOk result (self.new.items ≡ self.old.items ++ item ∷ []) }
        ensures spare { OnOk result (self.old.spare ≤ self.new.spare + 1) }
        ensures enough { 0 < self.old.spare → IsOk result }
        ensures err { OnErr result (self.new ≡ self.old) }
    {
        self.list.push(item)?;
        Ok(())
    }

    /// Makes room for `n` further inputs. It is Ok wherever `spare` is at least `n`.
    pub fn reserve(&mut self, n: usize) -> Result<(), NoMemory>
        ensures frame { self.new.items ≡ self.old.items }
        ensures ok { OnOk result (n ≤ self.new.spare) }
        ensures spare { self.old.spare ≤ self.new.spare }
        ensures enough { n ≤ self.old.spare → IsOk result }
        ensures err { OnErr result (self.new ≡ self.old) }
    {
        self.list.reserve(n)
    }

    /// How many inputs there are.
    pub fn len(&self) -> usize
        ensures { result ≡ length self.now.items }
    {
        self.list.len()
    }

    /// Input `i`, and None exactly where `i` is not below the length.
    pub fn at(&self, i: usize) -> Option<&(Text, Blob)>
        ensures { option_copied result ≡ slice_get self.now.items i }
    {
        self.list.at(i)
    }

    /// The inputs as a slice.
    pub fn as_slice(&self) -> &[(Text, Blob)]
        ensures value { result.now ≡ self.now.items }
        ensures distinct { HasDistinctNames self.now.items }
    {
        self.list.as_slice()
    }

    /// The bytes of a name. None exactly where the name is not there.
    pub fn get(&self, name: &str) -> Option<&[u8]>
        ensures { option_map (λ bytes. bytes.now) result ≡ bytes_named self.now.items name.now }
    {
        for (known, bytes) in self.list.as_slice() {
            if known.as_str() == name {
                return Some(bytes.as_slice());
            }
        }
        None
    }
}
