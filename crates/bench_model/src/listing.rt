ghost use Rattle.std.specs.Prelude.{◌≡◌, ◌==◌, ◌+◌, ◌≤◌, ◌<◌, [], ◌∷◌, ◌++◌, length, OnOk, OnErr};
ghost use Rattle.std.specs.Prelude.{IsOk, slice_get, option_copied};

use cu_base::{Items, NoMemory, Text};
use std::alloc::Global;
use std::marker::Model;

/// A file of the folder as a listing tells it. Contracts see the record of its fields.
#[derive(Drop)]
pub struct Listed {
    /// 1 to 40 of ASCII letters, digits, `.`, `_` and `-`.
    pub name: Text,
    /// The serial that its put drew.
    pub serial: u64,
    /// Its bytes, at most 67,108,864.
    pub size: u32,
}

impl Model for Listed {
    ghost use Rattle.bench_model.specs.Files.{ListedFile, IsListedFile};

    ghost Value = { ListedFile };

    ghost view = { λ x. record { name = x.name; serial = x.serial; size = x.size } };

    ghost invariant = { λ x. IsListedFile (record { name = x.name; serial = x.serial; size = x.size }) };
}

/// The files of a folder: their names differ in more than case, their serials are distinct, and
/// their number and the sum of their sizes are within the limits.
#[derive(Drop)]
pub struct Listing {
    list: Items<Listed>,
}

impl Model for Listing {
    ghost use Rattle.bench_model.specs.Files.{ListedFile, IsListing};
    ghost use Rattle.cu_base.specs.Kept.{Kept};

    ghost Value = { Kept ListedFile };

    ghost view = { λ a. a.list };

    ghost invariant = { λ a. IsListing a.list.items };
}

impl Listing {
    ghost use Rattle.bench_model.specs.Files.{IsListing};

    /// No files. It takes no memory.
    pub fn new(alloc: Global) -> Listing
        ensures { result.items ≡ [] }
    {
        Listing {
            list: Items::new(alloc),
        }
    }

    /// Appends a file. It is Ok wherever `spare` is at least 1.
    pub fn push(&mut self, file: Listed) -> Result<(), NoMemory>
        requires { IsListing (self.old.items ++ file ∷ []) }
        ensures ok { OnOk result (self.new.items ≡ self.old.items ++ file ∷ []) }
        ensures spare { OnOk result (self.old.spare ≤ self.new.spare + 1) }
        ensures enough { 0 < self.old.spare → IsOk result }
        ensures err { OnErr result (self.new ≡ self.old) }
    {
        self.list.push(file)?;
        Ok(())
    }

    /// Makes room for `n` further files.
    pub fn reserve(&mut self, n: usize) -> Result<(), NoMemory>
        ensures frame { self.new.items ≡ self.old.items }
        ensures ok { OnOk result (n ≤ self.new.spare) }
        ensures spare { self.old.spare ≤ self.new.spare }
        ensures enough { n ≤ self.old.spare → IsOk result }
        ensures err { OnErr result (self.new ≡ self.old) }
    {
        self.list.reserve(n)
    }

    /// How many files there are.
    pub fn len(&self) -> usize
        ensures { result ≡ length self.now.items }
    {
        self.list.len()
    }

    /// Whether there is no file.
    pub fn is_empty(&self) -> bool
        ensures { result ≡ (length self.now.items == 0) }
    {
        self.list.is_empty()
    }

    /// File `i`, and None exactly where `i` is not below the length.
    pub fn at(&self, i: usize) -> Option<&Listed>
        ensures value { option_copied result ≡ slice_get self.now.items i }
        ensures rule { IsListing self.now.items }
    {
        self.list.at(i)
    }

    /// The files as a slice.
    pub fn as_slice(&self) -> &[Listed]
        ensures value { result.now ≡ self.now.items }
        ensures rule { IsListing self.now.items }
    {
        self.list.as_slice()
    }
}
