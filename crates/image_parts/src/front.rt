//! The first bytes of an image.

ghost use Rattle.std.specs.Prelude.{◌≡◌, [], ◌++◌, take};

use crate::authentication::AUTHENTICATION_BYTES;
use std::marker::Model;

/// The first bytes that came, as far as authentication data has fields there. Contracts see the
/// list of them.
#[derive(Drop)]
pub struct Front {
    bytes: [u8; AUTHENTICATION_BYTES],
    length: usize,
}

impl Model for Front {
    ghost use Rattle.std.specs.Prelude.{ℕ, ◌≤◌, List, take};
    ghost use Rattle.image_parts.specs.declared.authentication.TheConstants.{AUTHENTICATION_BYTES};

    ghost Value = { List ℕ };

    ghost view = { λ f. take f.length f.bytes };

    ghost invariant = { λ f. f.length ≤ AUTHENTICATION_BYTES };
}

impl Front {
    /// No bytes.
    pub fn new() -> Front
        ensures { result ≡ [] }
    {
        Front {
            bytes: [0; AUTHENTICATION_BYTES],
            length: 0,
        }
    }

    /// These bytes with the next ones behind them, as far as they have room.
    pub fn with(&self, more: &[u8]) -> Front
        ensures { result ≡ take AUTHENTICATION_BYTES (self.now ++ more.now) }
    {
        let added = (AUTHENTICATION_BYTES - self.length).min(more.len());
        let mut bytes = self.bytes;
        bytes[self.length..self.length + added].copy_from_slice(&more[..added]);
        Front {
            bytes,
            length: self.length + added,
        }
    }

    /// The bytes as a slice.
    pub fn as_slice(&self) -> &[u8]
        ensures { result.now ≡ self.now }
    {
        &self.bytes[..self.length]
    }
}
