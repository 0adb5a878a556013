ghost use Rattle.std.specs.Prelude.{◌≡◌, ◌==◌, false, ◌+◌, ◌≤◌, ◌<◌, [], ◌∷◌, ◌++◌, length, OnOk};
ghost use Rattle.std.specs.Prelude.{OnErr, IsOk, slice_get, option_copied};

use crate::Change;
use cu_base::{Guid, Items, NoMemory};
use std::alloc::Global;
use std::marker::Model;

/// Changes of distinct pairs of name and GUID.
#[derive(Drop)]
pub struct Batch {
    list: Items<Change>,
}

impl Model for Batch {
    ghost use Rattle.var_log.specs.Changes.{AreChanges};
    ghost use Rattle.var_log.specs.declared.change.Change.{Change};
    ghost use Rattle.cu_base.specs.Kept.{Kept};

    ghost Value = { Kept Change };

    ghost view = { λ a. a.list };

    ghost invariant = { λ a. AreChanges a.list.items };
}

impl Batch {
    ghost use Rattle.var_log.specs.Changes.{AreChanges, has_key, guid_of, name_of};

    /// No changes. It takes no memory.
    pub fn new(alloc: Global) -> Batch
        ensures { result.items ≡ [] }
    {
        Batch {
            list: Items::new(alloc),
        }
    }

    /// Whether a change is of this name and GUID.
    pub fn has_key(&self, name: &str, guid: &Guid) -> bool
        ensures { result ≡ has_key guid.now name.now self.now.items }
    {
        self.list.as_slice().iter().any(|c| c.guid().bytes == guid.bytes
            && c.name().as_str() == name)
    }

    /// Appends a change of another name or GUID than the changes before. It is Ok wherever `spare`
    /// is at least 1.
    pub fn push(&mut self, change: Change) -> Result<(), NoMemory>
        requires { has_key (guid_of change) (name_of change) self.old.items ≡ false }
        ensures ok { OnOk result (self.new.items ≡ self.old.items ++ change ∷ []) }
        ensures spare { OnOk result (self.old.spare ≤ self.new.spare + 1) }
        ensures enough { 0 < self.old.spare → IsOk result }
        ensures err { OnErr result (self.new ≡ self.old) }
    {
        self.list.push(change)?;
        Ok(())
    }

    /// Makes room for `n` further changes.
    pub fn reserve(&mut self, n: usize) -> Result<(), NoMemory>
        ensures frame { self.new.items ≡ self.old.items }
        ensures ok { OnOk result (n ≤ self.new.spare) }
        ensures spare { self.old.spare ≤ self.new.spare }
        ensures enough { n ≤ self.old.spare → IsOk result }
        ensures err { OnErr result (self.new ≡ self.old) }
    {
        self.list.reserve(n)
    }

    /// How many changes there are.
    pub fn len(&self) -> usize
        ensures { result ≡ length self.now.items }
    {
        self.list.len()
    }

    /// Whether there is no change.
    pub fn is_empty(&self) -> bool
        ensures { result ≡ (length self.now.items == 0) }
    {
        self.list.is_empty()
    }

    /// Change `i`, and None exactly where `i` is not below the length.
    pub fn at(&self, i: usize) -> Option<&Change>
        ensures value { option_copied result ≡ slice_get self.now.items i }
        ensures rule { AreChanges self.now.items }
    {
        self.list.at(i)
    }

    /// The changes as a slice.
    pub fn as_slice(&self) -> &[Change]
        ensures value { result.now ≡ self.now.items }
        ensures rule { AreChanges self.now.items }
    {
        self.list.as_slice()
    }
}
