//! Admission by digest.

ghost use Rattle.std.specs.Prelude.{◌≡◌};
ghost use Rattle.image_parts.specs.Admission.{is_admitted};

use sha2::{Digest, Sha256};

/// Whether the SHA-256 of the whole image is listed.
pub fn is_admitted(list: &[cu_base::Digest], image: &[u8]) -> bool
    ensures { result ≡ is_admitted list.now image.now }
{
    let digest = Sha256::digest(image);
    list.iter().any(|listed| listed.bytes == digest)
}
