ghost use Rattle.std.specs.Prelude.{◌≡◌, ◌+◌, ◌-◌, ◌^◌, ◌++◌, min, length, take, drop};
ghost use Rattle.cu_io.specs.Numbered.{Consumed};

use cu_base::Blob;
use std::marker::Model;

/// Bytes in memory that are given from the front. Contracts see what is left and how many were
/// given.
#[derive(Drop)]
pub struct Reader {
    bytes: Blob,
    at: usize,
    taken: u64,
}

impl Model for Reader {
    ghost use Rattle.std.specs.Prelude.{◌≤◌, length, drop};
    ghost use Rattle.cu_io.specs.Numbered.{Unread};

    ghost Value = { Unread };

    ghost view = { λ r. record { left = drop r.at r.bytes; taken = r.taken } };

    ghost invariant = { λ r. r.at ≤ length r.bytes };
}

impl Reader {
    /// All of these bytes are left.
    pub fn new(bytes: Blob) -> Reader
        ensures { result ≡ record { left = bytes; taken = 0 } }
    {
        Reader {
            bytes,
            at: 0,
            taken: 0,
        }
    }

    /// Gives as many bytes as there is room for and as are left, and tells how many.
    pub fn give(&mut self, out: &mut [u8]) -> usize
        ensures count { result ≡ min (length out.old) (length self.old.left) }
        ensures given { out.new ≡ take result self.old.left ++ drop result out.old }
        ensures left { self.new.left ≡ drop result self.old.left }
        ensures taken { self.new.taken ≡ min (self.old.taken + result) (2 ^ 64 - 1) }
        ensures bytes { Consumed self.old.left self.new.left result out.new }
    {
        let left = &self.bytes.as_slice()[self.at..];
        let n = out.len().min(left.len());
        out[..n].copy_from_slice(&left[..n]);
        self.at += n;
        self.taken = self.taken.saturating_add(n as u64);
        n
    }

    /// How many bytes were given.
    pub fn taken(&self) -> u64
        ensures { result ≡ self.now.taken }
    {
        self.taken
    }

    /// How many bytes are left.
    pub fn left_len(&self) -> usize
        ensures { result ≡ length self.now.left }
    {
        self.bytes.len() - self.at
    }
}
