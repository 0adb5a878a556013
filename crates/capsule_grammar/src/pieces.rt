//! Bytes that are written piece by piece.

ghost use Rattle.std.specs.Prelude.{◌≡◌};
ghost use Rattle.capsule_grammar.specs.Pieces.{piece_bytes};

use cu_base::Blob;

/// A run of bytes among others that are written one after the other.
#[derive(Drop)]
pub enum Piece<'a> {
    /// Bytes that stand nowhere else.
    Own(Blob),
    /// Bytes of an input, where they stand.
    Lent(&'a [u8]),
}

impl<'a> Piece<'a> {
    /// The bytes.
    pub fn as_slice(&self) -> &[u8]
        ensures { result.now ≡ piece_bytes self.now }
    {
        match self {
            Piece::Own(blob) => blob.as_slice(),
            Piece::Lent(bytes) => bytes,
        }
    }
}
