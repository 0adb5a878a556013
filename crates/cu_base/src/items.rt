ghost use Rattle.std.specs.Prelude.{◌≡◌, ◌==◌, ◌+◌, ◌≤◌, ◌<◌, [], ◌∷◌, ◌++◌, length, OnOk, OnErr};
ghost use Rattle.std.specs.Prelude.{IfOk, IsOk, slice_get, option_copied};

use crate::NoMemory;
use std::alloc::Global;
use std::marker::Model;

/// A list. Contracts see its items, and as `spare` how many more it takes without memory.
#[derive(Drop)]
pub struct Items<T> {
    inside: Vec<T>,
}

impl<T> Model for Items<T> {
    ghost use Rattle.std.specs.Prelude.{◌-◌, vec_capacity, vec_len};
    ghost use Rattle.cu_base.specs.Kept.{Kept};

    ghost Value = { Kept T };

    ghost view = { λ a. record {
      items = a.inside.items;
      spare = vec_capacity a.inside - vec_len a.inside;
    } };
}

impl<T> Items<T> {
    /// The empty list. It takes no memory.
    pub fn new(alloc: Global) -> Items<T>
        ensures { result.items ≡ [] }
    {
        Items {
            inside: Vec::new(alloc),
        }
    }

    /// Appends an item. It is Ok wherever `spare` is at least 1.
    pub fn push(&mut self, item: T) -> Result<(), NoMemory>
    where
        T: Drop,
        ensures ok { OnOk result (self.new.items ≡ self.old.items ++ item ∷ []) }
        ensures spare { OnOk result (self.old.spare ≤ self.new.spare + 1) }
        ensures enough { 0 < self.old.spare → IsOk result }
        ensures err { OnErr result (self.new ≡ self.old) }
    {
        match self.inside.reserve(1) {
            Ok(()) => {
                self.inside.push_reserved(item);
                Ok(())
            }
            Err(_) => Err(NoMemory),
        }
    }

    /// Makes room for `n` further items.
    pub fn reserve(&mut self, n: usize) -> Result<(), NoMemory>
        ensures frame { self.new.items ≡ self.old.items }
        ensures ok { OnOk result (n ≤ self.new.spare) }
        ensures spare { self.old.spare ≤ self.new.spare }
        ensures enough { n ≤ self.old.spare → IsOk result }
        ensures err { OnErr result (self.new ≡ self.old) }
    {
        match self.inside.reserve(n) {
            Ok(()) => Ok(()),
            Err(_) => Err(NoMemory),
        }
    }

    /// How many items there are.
    pub fn len(&self) -> usize
        ensures { result ≡ length self.now.items }
    {
        self.inside.len()
    }

    /// Whether there is no item.
    pub fn is_empty(&self) -> bool
        ensures { result ≡ (length self.now.items == 0) }
    {
        self.inside.is_empty()
    }

    /// Item `i`, and None exactly where `i` is not below the length.
    pub fn at(&self, i: usize) -> Option<&T>
        ensures { option_copied result ≡ slice_get self.now.items i }
    {
        self.inside.get(i)
    }

    /// The items as a slice.
    pub fn as_slice(&self) -> &[T]
        ensures { result.now ≡ self.now.items }
    {
        self.inside.as_slice()
    }
}

impl<T: Copy> Items<T> {
    /// A list of these items.
    pub fn from_slice(alloc: Global, items: &[T]) -> Result<Items<T>, NoMemory>
        ensures { IfOk result (λ list. list.items ≡ items.now) }
    {
        match Vec::from_slice(alloc, items) {
            Ok(inside) => Ok(Items { inside }),
            Err(_) => Err(NoMemory),
        }
    }
}
