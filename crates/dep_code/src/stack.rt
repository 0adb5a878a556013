ghost use Rattle.std.specs.Prelude.{◌≡◌, ◌==◌, [], ◌∷◌, length, MatchOption, OnOk};

use cu_base::NoMemory;
use std::alloc::Global;
use std::marker::Model;

/// A stack. Contracts see its values from the top.
#[derive(Drop)]
pub struct Stack<T> {
    inside: Vec<T>,
}

impl<T> Model for Stack<T> {
    ghost use Rattle.std.specs.Prelude.{List, reverse};

    ghost Value = { List T };

    ghost view = { λ s. reverse s.inside.items };
}

impl<T> Stack<T> {
    /// The empty stack. It takes no memory.
    pub fn new(alloc: Global) -> Stack<T>
        ensures { result ≡ [] }
    {
        Stack {
            inside: Vec::new(alloc),
        }
    }

    /// Puts a value on the top.
    pub fn push(&mut self, value: T) -> Result<(), NoMemory>
    where
        T: Drop,
        ensures { OnOk result (self.new ≡ value ∷ self.old) }
    {
        match self.inside.push(value) {
            Ok(()) => Ok(()),
            Err(_) => Err(NoMemory),
        }
    }

    /// Takes the value at the top, if there is one.
    pub fn pop(&mut self) -> Option<T>
        ensures { MatchOption result (self.old ≡ []) (λ value. self.old ≡ value ∷ self.new) }
    {
        self.inside.pop()
    }

    /// Whether no value is there.
    pub fn is_empty(&self) -> bool
        ensures { result ≡ (length self.now == 0) }
    {
        self.inside.is_empty()
    }
}
