//! The capsule header at the front of bytes.

ghost use Rattle.std.specs.Prelude.{◌≡◌, ℕ, List, length, IfOk, Ok};
ghost use Rattle.cu_base.specs.Refusals.{first_refusal};
ghost use Rattle.fmp_headers.specs.CapsuleHeader.{capsule_header};
ghost use Rattle.capsule_grammar.specs.Refusals.{Answers, capsule_rows, is_fmp_guid};

use crate::{Refusal, Why};
use cu_base::Guid;
use fmp_headers::{CapsuleHeader, FMP_CAPSULE_GUID, HeaderFault};

/// The capsule header that was read at the front of bytes, where the capsule that it tells lies
/// within them; else the first row of the header that refuses them. `size` is how many bytes there
/// are.
pub fn check_capsule_header(
    read: Result<CapsuleHeader, HeaderFault>,
    size: u64,
) -> Result<CapsuleHeader, Refusal>
    ensures ok { IfOk result (λ h. read ≡ Ok h) }
    ensures refused { (bytes : List ℕ) → capsule_header bytes ≡ read → length bytes ≡ size →
        Answers result (first_refusal (capsule_rows bytes)) }
{
    let (at, why) = match read {
        Ok(header) => {
            if header.image_size as u64 <= size {
                return Ok(header);
            }
            (24, Why::BadImageSize)
        }
        Err(HeaderFault::Short) => (0, Why::Short),
        Err(HeaderFault::BadHeaderSize) => (16, Why::BadHeaderSize),
        Err(_) => (24, Why::BadImageSize),
    };
    Err(Refusal { at, why })
}

/// Whether the GUID is that of FMP capsules.
pub fn is_fmp_guid(guid: &Guid) -> bool
    ensures { result ≡ is_fmp_guid guid.now.bytes }
{
    *guid == FMP_CAPSULE_GUID
}
