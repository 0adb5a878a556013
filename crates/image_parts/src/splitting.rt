//! An image cut into its parts.

ghost use Rattle.std.specs.Prelude.{◌≡◌, ◌<◌, ◌^◌, IfOk, IfErr, IsErrOf, IsTrue, length};
ghost use Rattle.image_parts.specs.declared.fault.PartRefusal.TheVariants.{Memory};
ghost use Rattle.image_parts.specs.Cuts.{IsCutInto};
ghost use Rattle.image_parts.specs.Parts.{IsPartsOf};
ghost use Rattle.image_parts.specs.Refusals.{IsFound, IsRefusalOf};
ghost use Rattle.image_parts.specs.Support.{has_section};
ghost use Rattle.image_parts.specs.Values.{PartsValue, parts_seen};

use crate::authentication::read_auth;
use crate::payload_header::{FIELD_BYTES, read_head};
use crate::section::{section_at, section_size};
use crate::{PartRefusal, Parts};
use std::alloc::Global;

/// The parts of the image of this support, which are slices of it (UEFI 2.10, 23.1 and 23.2; EDK
/// II, FmpPayloadHeaderLibV1). Part tells the first wrong place, Memory comes only where a section
/// is due.
pub fn split<'a>(alloc: Global, image: &'a [u8], support: u64) -> Result<Parts<'a>, PartRefusal>
    requires { length image.now < 2 ^ 32 }
    ensures ok { IfOk result (λ p. IsPartsOf image.now support (parts_seen p)) }
    ensures only { (p : PartsValue) → IsPartsOf image.now support p → IsFound p result }
    ensures refused { IfErr result (λ e. IsRefusalOf e image.now support) }
    ensures memory { IsErrOf result Memory → IsTrue (has_section support) }
{
    cut(alloc, image, support)
}

/// The parts at their places.
fn cut<'a>(alloc: Global, image: &'a [u8], support: u64) -> Result<Parts<'a>, PartRefusal>
    requires { length image.now < 2 ^ 32 }
    ensures ok { IfOk result (λ p. IsCutInto image.now support (parts_seen p)) }
    ensures refused { IfErr result (λ e. IsRefusalOf e image.now support) }
    ensures memory { IsErrOf result Memory → IsTrue (has_section support) }
{
    let (auth, end) = read_auth(image, support)?;
    let size = section_size(alloc, &image[end..], end, support)?;
    let rest = &image[end + size..];
    let head = read_head(rest, rest.len(), end + size)?;
    Ok(Parts {
        auth,
        dep: section_at(image, end, size, support),
        head,
        extra: &rest[FIELD_BYTES..head.header_size as usize],
        payload: &rest[head.header_size as usize..],
    })
}
