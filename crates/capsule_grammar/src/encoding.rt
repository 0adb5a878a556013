//! Capsules that are written.

ghost use Rattle.std.specs.Prelude.{◌≡◌, ◌+◌, ◌*◌, ◌≤◌, ◌<◌, ◌++◌, [], true, false, length};
ghost use Rattle.std.specs.Prelude.{slice_index_or, IsTrue, IfOk, OnOk, IsErrOf};
ghost use Rattle.std.specs.List.{concat, flat_map};
ghost use Rattle.cu_base.specs.Fields.{bytes_of};
ghost use Rattle.cu_base.specs.declared.limits.TheConstants.{MAX_CAPSULE_BYTES};
ghost use Rattle.capsule_grammar.specs.Fits.{fits, fmp_fits, image_fits, is_sized, parts_fit};
ghost use Rattle.capsule_grammar.specs.Spelling.{body_bytes, fmp_bytes, header_of, image_bytes};
ghost use Rattle.capsule_grammar.specs.Spelling.{item_bytes, offset_list, spelling};
ghost use Rattle.fmp_headers.specs.CapsuleHeader.{capsule_header_bytes};

use crate::parts::OFFSET_BYTES;
use crate::sizes::{capsule_size, item_count, item_size};
use crate::{Body, Capsule, EncodeFault, FmpBody, Image};
use cu_base::{Blob, MAX_CAPSULE_BYTES, NoMemory, put_u64};
use fmp_headers::{CAPSULE_HEADER_BYTES, CapsuleHeader, FMP_HEADER_BYTES, FmpHeader};
use std::alloc::Global;

/// The bytes of the capsule. It is TooLarge exactly where they are more than 67,108,864.
pub fn encode(alloc: Global, capsule: &Capsule) -> Result<Blob, EncodeFault>
    requires { IsTrue (fits capsule.now) }
    ensures ok { IfOk result (λ bytes. bytes ≡ spelling capsule.now) }
    ensures bound { OnOk result (is_sized capsule.now ≡ true) }
    ensures refused { IsErrOf result EncodeFault.TooLarge → is_sized capsule.now ≡ false }
{
    let size = capsule_size(capsule);
    if size > MAX_CAPSULE_BYTES as u64 {
        return Err(EncodeFault::TooLarge);
    }
    Ok(write(alloc, capsule, size as u32)?)
}

/// The bytes of a capsule of this size.
#[tactic(auto, using(crate::proofs::SizeLemmas::parts_are_fit))]
fn write(alloc: Global, capsule: &Capsule, size: u32) -> Result<Blob, NoMemory>
    requires fits { IsTrue (fits capsule.now) }
    requires sized { size ≡ (header_of capsule.now).image_size }
    requires limit { size ≤ MAX_CAPSULE_BYTES }
    ensures { IfOk result (λ bytes. bytes ≡ spelling capsule.now) }
{
    let mut out = Blob::new(alloc);
    out.reserve(size as usize)?;
    put_header(&mut out, capsule, size)?;
    out.push_slice(capsule.ext.as_slice())?;
    put_body(&mut out, &capsule.body)?;
    Ok(out)
}

/// Appends the capsule header of a capsule of this size.
fn put_header(out: &mut Blob, capsule: &Capsule, size: u32) -> Result<(), NoMemory>
    requires sized { size ≡ (header_of capsule.now).image_size }
    requires limit { size ≤ MAX_CAPSULE_BYTES }
    ensures { OnOk result (out.new ≡ out.old ++ capsule_header_bytes (header_of capsule.now)) }
{
    CapsuleHeader {
        guid: capsule.guid,
        header_size: CAPSULE_HEADER_BYTES + capsule.ext.len() as u32,
        flags: capsule.flags,
        image_size: size,
    }
    .write_into(out)
}

/// Appends a body.
fn put_body(out: &mut Blob, body: &Body) -> Result<(), NoMemory>
    requires fits { IsTrue (parts_fit body.now) }
    requires sized { length (body_bytes body.now) ≤ MAX_CAPSULE_BYTES }
    ensures { OnOk result (out.new ≡ out.old ++ body_bytes body.now) }
{
    match body {
        Body::Other(blob) => out.push_slice(blob.as_slice()),
        Body::Fmp(fmp) => put_fmp(out, fmp),
    }
}

/// Appends FMP header, offset list, lead and items.
fn put_fmp(out: &mut Blob, body: &FmpBody) -> Result<(), NoMemory>
    requires fits { IsTrue (fmp_fits body.now) }
    requires sized { length (fmp_bytes body.now) ≤ MAX_CAPSULE_BYTES }
    ensures { OnOk result (out.new ≡ out.old ++ fmp_bytes body.now) }
{
    FmpHeader {
        drivers: body.drivers.len() as u16,
        items: body.images.len() as u16,
    }
    .write_into(out)?;
    put_offsets(out, body)?;
    out.push_slice(body.lead.as_slice())?;
    put_items(out, body)
}

/// Appends the offset list.
fn put_offsets(out: &mut Blob, body: &FmpBody) -> Result<(), NoMemory>
    requires fits { IsTrue (fmp_fits body.now) }
    requires sized { length (fmp_bytes body.now) ≤ MAX_CAPSULE_BYTES }
    ensures { OnOk result (out.new ≡ out.old ++ offset_list body.now) }
{
    let items = item_count(body);
    let mut here = FMP_HEADER_BYTES as u64
        + OFFSET_BYTES as u64 * items as u64
        + body.lead.len() as u64;
    for k in 0..items {
        put_u64(out, here)?;
        here += item_size(body, k);
    }
    Ok(())
}

/// Appends the items.
fn put_items(out: &mut Blob, body: &FmpBody) -> Result<(), NoMemory>
    requires { IsTrue (fmp_fits body.now) }
    ensures { OnOk result (out.new ≡ out.old ++ concat (item_bytes body.now)) }
{
    for k in 0..item_count(body) {
        put_item(out, body, k)?;
    }
    Ok(())
}

/// Appends item `k`.
fn put_item(out: &mut Blob, body: &FmpBody, k: usize) -> Result<(), NoMemory>
    requires fits { IsTrue (fmp_fits body.now) }
    requires there { k < length (item_bytes body.now) }
    ensures { OnOk result (out.new ≡ out.old ++ slice_index_or (item_bytes body.now) k []) }
{
    let drivers = body.drivers.as_slice();
    let images = body.images.as_slice();
    if k < drivers.len() {
        out.push_slice(drivers[k].as_slice())
    } else {
        put_image(out, &images[k - drivers.len()])
    }
}

/// Appends header, update image, vendor code and pad of an image item.
fn put_image(out: &mut Blob, image: &Image) -> Result<(), NoMemory>
    requires { IsTrue (image_fits image.now) }
    ensures { OnOk result (out.new ≡ out.old ++ image_bytes image.now) }
{
    image.header.write_into(out)?;
    out.push_slice(image.image.as_slice())?;
    out.push_slice(image.vendor.as_slice())?;
    out.push_slice(image.pad.as_slice())?;
    Ok(())
}
