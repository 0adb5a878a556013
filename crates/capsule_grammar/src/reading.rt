//! The capsule that stands at the front of accepted bytes, in blobs of its own.

ghost use Rattle.std.specs.Prelude.{◌≡◌, ◌+◌, ◌≤◌, ◌<◌, IfOk, map, length, true};
ghost use Rattle.std.specs.List.{range_with_len};
ghost use Rattle.cu_base.specs.Fields.{field};
ghost use Rattle.capsule_grammar.specs.Accepted.{IsImageItem, IsFmpBody, IsFront};
ghost use Rattle.capsule_grammar.specs.Reading.{image_of, fmp_of, body_read, capsule_of};
ghost use Rattle.capsule_grammar.specs.Refusals.{is_fmp_guid, body_of, driver_count, image_count};
ghost use Rattle.capsule_grammar.specs.Refusals.{item};

use crate::accepted::{body, capsule_header, image_view};
use crate::checking::{bound, item};
use crate::header::is_fmp_guid;
use crate::parts::{driver_count, image_count, list_end};
use crate::{Body, Capsule, FmpBody, Image, Images};
use cu_base::{Blob, Blobs, NoMemory};
use fmp_headers::CAPSULE_HEADER_BYTES;
use std::alloc::Global;

/// The capsule at the front.
pub fn read(alloc: Global, bytes: &[u8]) -> Result<Capsule, NoMemory>
    requires front { IsFront bytes.now }
    requires fmp { is_fmp_guid (field bytes.now 0 16) ≡ true → IsFmpBody (body_of bytes.now) }
    ensures { IfOk result (λ c. c ≡ capsule_of bytes.now) }
{
    let header = capsule_header(bytes);
    let ext = &bytes[CAPSULE_HEADER_BYTES as usize..header.header_size as usize];
    Ok(Capsule {
        guid: header.guid,
        flags: header.flags,
        ext: Blob::from_slice(alloc, ext)?,
        body: read_body(alloc, bytes)?,
    })
}

/// The body by the GUID: that of an FMP capsule in its parts, any other as it is.
fn read_body(alloc: Global, bytes: &[u8]) -> Result<Body, NoMemory>
    requires front { IsFront bytes.now }
    requires fmp { is_fmp_guid (field bytes.now 0 16) ≡ true → IsFmpBody (body_of bytes.now) }
    ensures { IfOk result (λ b. b ≡ body_read bytes.now) }
{
    let body = body(bytes);
    if is_fmp_guid(&capsule_header(bytes).guid) {
        Ok(Body::Fmp(read_fmp(alloc, body)?))
    } else {
        Ok(Body::Other(Blob::from_slice(alloc, body)?))
    }
}

/// The parts of the body of an FMP capsule.
fn read_fmp(alloc: Global, body: &[u8]) -> Result<FmpBody, NoMemory>
    requires { IsFmpBody body.now }
    ensures { IfOk result (λ v. v ≡ fmp_of body.now) }
{
    Ok(FmpBody {
        lead: Blob::from_slice(alloc, lead(body))?,
        drivers: read_drivers(alloc, body)?,
        images: read_images(alloc, body)?,
    })
}

/// What stands between the offset list of a body and its first item.
pub fn lead(body: &[u8]) -> &[u8]
    requires { IsFmpBody body.now }
    ensures { result.now ≡ (fmp_of body.now).lead }
{
    &body[list_end(body) as usize..bound(body, 0)]
}

/// The drivers, which are the first items.
fn read_drivers(alloc: Global, body: &[u8]) -> Result<Blobs, NoMemory>
    requires { IsFmpBody body.now }
    ensures { IfOk result (λ list. list.items ≡ (fmp_of body.now).drivers) }
{
    let drivers = driver_count(body) as u32;
    let mut list = Blobs::new(alloc);
    list.reserve(drivers as usize)?;
    for k in 0..drivers {
        list.push(Blob::from_slice(alloc, item(body, k))?)?;
    }
    Ok(list)
}

/// The images, which are the items behind the drivers.
fn read_images(alloc: Global, body: &[u8]) -> Result<Images, NoMemory>
    requires { IsFmpBody body.now }
    ensures { IfOk result (λ list. list.items ≡ (fmp_of body.now).images) }
{
    let drivers = driver_count(body) as u32;
    let images = image_count(body) as u32;
    let mut list = Images::new(alloc);
    list.reserve(images as usize)?;
    for k in 0..images {
        list.push(read_image(alloc, item(body, drivers + k))?)?;
    }
    Ok(list)
}

/// Header, update image, vendor code and pad of an image item.
fn read_image(alloc: Global, item: &[u8]) -> Result<Image, NoMemory>
    requires { IsImageItem item.now }
    ensures { IfOk result (λ i. i ≡ image_of item.now) }
{
    let view = image_view(item);
    Ok(Image {
        header: view.header,
        image: Blob::from_slice(alloc, view.image)?,
        vendor: Blob::from_slice(alloc, view.vendor)?,
        pad: Blob::from_slice(alloc, view.pad)?,
    })
}
