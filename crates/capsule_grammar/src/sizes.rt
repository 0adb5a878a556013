//! The sizes of spellings. A size that passes 2^64 - 1 is told as that.

ghost use Rattle.std.specs.Prelude.{◌≡◌, ◌+◌, ◌-◌, ◌<◌, ◌^◌, [], length, min, slice_index_or};
ghost use Rattle.std.specs.Prelude.{IsTrue};
ghost use Rattle.capsule_grammar.specs.Fits.{fits, fmp_fits, image_fits, parts_fit};
ghost use Rattle.capsule_grammar.specs.Sizes.{IsSizeOf};
ghost use Rattle.capsule_grammar.specs.Spelling.{body_bytes, fmp_bytes, header_of, image_bytes};
ghost use Rattle.capsule_grammar.specs.Spelling.{item_bytes};

use crate::parts::OFFSET_BYTES;
use crate::{Body, Capsule, FmpBody, Image};
use fmp_headers::{CAPSULE_HEADER_BYTES, FMP_HEADER_BYTES};

/// The bytes of an image item.
fn image_size(image: &Image) -> u64
    requires { IsTrue (image_fits image.now) }
    ensures { IsSizeOf result (image_bytes image.now) }
{
    (image.header.byte_length() as u64)
        .saturating_add(image.image.len() as u64)
        .saturating_add(image.vendor.len() as u64)
        .saturating_add(image.pad.len() as u64)
}

/// How many items there are, drivers among them.
pub fn item_count(body: &FmpBody) -> usize
    requires { IsTrue (fmp_fits body.now) }
    ensures value { result ≡ length (item_bytes body.now) }
    ensures bound { result < 131072 }
{
    body.drivers.len() + body.images.len()
}

/// The bytes of item `k`.
pub fn item_size(body: &FmpBody, k: usize) -> u64
    requires fits { IsTrue (fmp_fits body.now) }
    requires there { k < length (item_bytes body.now) }
    ensures { IsSizeOf result (slice_index_or (item_bytes body.now) k []) }
{
    let drivers = body.drivers.as_slice();
    let images = body.images.as_slice();
    if k < drivers.len() {
        drivers[k].len() as u64
    } else {
        image_size(&images[k - drivers.len()])
    }
}

/// The bytes of the body of an FMP capsule.
fn fmp_size(body: &FmpBody) -> u64
    requires { IsTrue (fmp_fits body.now) }
    ensures { IsSizeOf result (fmp_bytes body.now) }
{
    let items = item_count(body);
    let list_end = FMP_HEADER_BYTES as u64 + OFFSET_BYTES as u64 * items as u64;
    let mut size = list_end.saturating_add(body.lead.len() as u64);
    for k in 0..items {
        size = size.saturating_add(item_size(body, k));
    }
    size
}

/// The bytes of a body.
fn body_size(body: &Body) -> u64
    requires { IsTrue (parts_fit body.now) }
    ensures { IsSizeOf result (body_bytes body.now) }
{
    match body {
        Body::Other(blob) => blob.len() as u64,
        Body::Fmp(fmp) => fmp_size(fmp),
    }
}

/// The CapsuleImageSize of the capsule: the bytes of header, ext and body.
#[tactic(auto, using(crate::proofs::SizeLemmas::parts_are_fit))]
pub fn capsule_size(capsule: &Capsule) -> u64
    requires { IsTrue (fits capsule.now) }
    ensures { result ≡ min (header_of capsule.now).image_size (2 ^ 64 - 1) }
{
    (CAPSULE_HEADER_BYTES as u64)
        .saturating_add(capsule.ext.len() as u64)
        .saturating_add(body_size(&capsule.body))
}
