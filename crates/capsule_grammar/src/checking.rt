//! Whether a capsule stands at the front of bytes, without a copy of any of them.

ghost use Rattle.std.specs.Prelude.{◌≡◌, ◌+◌, ◌≤◌, ◌<◌, ◌^◌, IfOk, length};
ghost use Rattle.cu_base.specs.Refusals.{first_refusal};
ghost use Rattle.fmp_headers.specs.CapsuleHeader.{image_size};
ghost use Rattle.capsule_grammar.specs.Accepted.{AreBounds};
ghost use Rattle.capsule_grammar.specs.Refusals.{Answers, refusal, fmp_rows, all_image_rows};
ghost use Rattle.capsule_grammar.specs.Refusals.{list_end, item_count, bound, item};

use crate::Refusal;
use crate::header::{check_capsule_header, is_fmp_guid};
use crate::parts::{
    check_fmp_header, check_image, check_offsets, driver_count, image_count, start_of,
};
use fmp_headers::CapsuleHeader;

/// The length of the capsule at the front of the bytes, or the first wrong place. It takes no
/// memory and copies nothing.
pub fn check(bytes: &[u8]) -> Result<usize, Refusal>
    ensures ok { IfOk result (λ n. n ≡ image_size bytes.now) }
    ensures refused { Answers result (refusal bytes.now) }
{
    let header = check_capsule_header(CapsuleHeader::read(bytes), bytes.len() as u64)?;
    if is_fmp_guid(&header.guid) {
        let body = &bytes[header.header_size as usize..header.image_size as usize];
        check_fmp(body, header.header_size)?;
    }
    Ok(header.image_size as usize)
}

/// Whether these bytes are the body of an FMP capsule. Places count from `at`.
pub fn check_fmp(body: &[u8], at: u32) -> Result<(), Refusal>
    requires small { at + length body.now < 2 ^ 31 }
    ensures { Answers result (first_refusal (fmp_rows body.now at)) }
{
    let size = body.len() as u32;
    check_fmp_header(body, size, at)?;
    check_offsets(body, size, at)?;
    check_images(body, at)
}

fn check_images(body: &[u8], at: u32) -> Result<(), Refusal>
    requires small { at + length body.now < 2 ^ 31 }
    requires list { list_end body.now ≤ length body.now }
    requires bounds { AreBounds body.now (length body.now) }
    ensures { Answers result (first_refusal (all_image_rows body.now at)) }
{
    let drivers = driver_count(body) as u32;
    let images = image_count(body) as u32;
    for k in drivers..drivers + images {
        let from = bound(body, k);
        let to = bound(body, k + 1);
        let image = &body[from..to];
        check_image(image, image.len() as u32, at + from as u32)?;
    }
    Ok(())
}

/// Where item `k` begins, and where the last one ends.
pub fn bound(body: &[u8], k: u32) -> usize
    requires list { list_end body.now ≤ length body.now }
    requires there { k ≤ item_count body.now }
    ensures { result ≡ bound body.now k }
{
    start_of(body, body.len(), k)
}

/// The bytes of item `k` of a body: drivers first, then images.
pub fn item(body: &[u8], k: u32) -> &[u8]
    requires list { list_end body.now ≤ length body.now }
    requires bounds { AreBounds body.now (length body.now) }
    requires there { k < item_count body.now }
    requires few { k < 2 ^ 17 }
    ensures { result.now ≡ item body.now k }
{
    &body[bound(body, k)..bound(body, k + 1)]
}
