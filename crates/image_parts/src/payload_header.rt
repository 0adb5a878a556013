//! The payload header behind authentication data and section.

ghost use Rattle.std.specs.Prelude.{◌≡◌, ◌+◌, ◌≤◌, ◌<◌, ◌^◌, OnOk, IfOk, length};
ghost use Rattle.cu_base.specs.Refusals.{first_refusal};
ghost use Rattle.image_parts.specs.PayloadHeader.{header_size, payload_head_at};
ghost use Rattle.image_parts.specs.PayloadHeader.{payload_header_rows_of};
ghost use Rattle.image_parts.specs.Refusals.{Answers};

use crate::{PartFault, PartWhy, PayloadHead};
use cu_base::u32_at;

/// The bytes of the fields: signature, HeaderSize, FwVersion and LowestSupportedVersion.
pub const FIELD_BYTES: usize = 16;

/// The place of HeaderSize.
const HEADER_SIZE_AT: usize = 4;

/// The place of FwVersion.
const VERSION_AT: usize = 8;

/// The place of LowestSupportedVersion.
const LOWEST_AT: usize = 12;

/// The signature.
pub const SIGNATURE: [u8; 4] = *b"MSS1";

/// The payload header at the front of `size` bytes, which begin at place `start` of the image.
/// `front` has its fields.
pub fn read_head(front: &[u8], size: usize, start: usize) -> Result<PayloadHead, PartFault>
    requires place { start + size < 2 ^ 32 }
    requires front { FIELD_BYTES ≤ size → FIELD_BYTES ≤ length front.now }
    ensures rows { Answers result (first_refusal (payload_header_rows_of front.now size start)) }
    ensures value { IfOk result (λ head. head ≡ payload_head_at front.now) }
    ensures fields { IfOk result (λ head. FIELD_BYTES ≤ head.header_size) }
    ensures within { IfOk result (λ head. head.header_size ≤ size) }
{
    let at = start as u32;
    if size < FIELD_BYTES {
        return Err(PartFault::new(at, PartWhy::ShortPayloadHeader));
    }
    if &front[..SIGNATURE.len()] != SIGNATURE.as_slice() {
        return Err(PartFault::new(at, PartWhy::BadSignature));
    }
    let header_size = u32_at(front, HEADER_SIZE_AT);
    if (header_size as usize) < FIELD_BYTES || size < header_size as usize {
        return Err(PartFault::new(at + HEADER_SIZE_AT as u32, PartWhy::BadPayloadHeaderSize));
    }
    Ok(PayloadHead {
        header_size,
        version: u32_at(front, VERSION_AT),
        lowest: u32_at(front, LOWEST_AT),
    })
}
