//! The first bytes of a structure.

ghost use Rattle.std.specs.Prelude.{◌≡◌, [], ◌++◌, take};

use fmp_headers::IMAGE_HEADER_BYTES;
use std::marker::Model;

/// The first bytes that came of a structure, as far as a test looks at them. Contracts see the list
/// of them.
#[derive(Drop)]
pub struct Head {
    bytes: [u8; IMAGE_HEADER_BYTES as usize],
    length: usize,
}

impl Model for Head {
    ghost use Rattle.std.specs.Prelude.{ℕ, ◌≤◌, List, take};
    ghost use Rattle.fmp_headers.specs.declared.image.TheConstants.{IMAGE_HEADER_BYTES};

    ghost Value = { List ℕ };

    ghost view = { λ h. take h.length h.bytes };

    ghost invariant = { λ h. h.length ≤ IMAGE_HEADER_BYTES };
}

impl Head {
    /// No bytes.
    pub fn new() -> Head
        ensures { result ≡ [] }
    {
        Head {
            bytes: [0; IMAGE_HEADER_BYTES as usize],
            length: 0,
        }
    }

    /// These bytes with the next ones behind them, as far as they have room.
    pub fn with(&self, more: &[u8]) -> Head
        ensures { result ≡ take IMAGE_HEADER_BYTES (self.now ++ more.now) }
    {
        let added = (IMAGE_HEADER_BYTES as usize - self.length).min(more.len());
        let mut bytes = self.bytes;
        bytes[self.length..self.length + added].copy_from_slice(&more[..added]);
        Head {
            bytes,
            length: self.length + added,
        }
    }

    /// The same bytes.
    pub fn copied(&self) -> Head
        ensures { result ≡ self.now }
    {
        Head {
            bytes: self.bytes,
            length: self.length,
        }
    }

    /// The bytes as a slice.
    pub fn as_slice(&self) -> &[u8]
        ensures { result.now ≡ self.now }
    {
        &self.bytes[..self.length]
    }
}
