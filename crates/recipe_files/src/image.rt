//! The update image of an item: its parts, one behind another.

ghost use Rattle.std.specs.Prelude.{◌≡◌, ◌≤◌, ◌<◌, ◌^◌, ◌+◌, ◌++◌, OnOk, IfOk, length};
ghost use Rattle.capsule_grammar.specs.Spelling.{image_bytes};
ghost use Rattle.image_parts.specs.Authentication.{authentication_bytes};
ghost use Rattle.image_parts.specs.Parts.{auth_bytes, dep_bytes};
ghost use Rattle.image_parts.specs.PayloadHeader.{payload_head_bytes};
ghost use Rattle.image_parts.specs.Values.{auth_seen};
ghost use Rattle.recipe_files.specs.Builds.{auth_of, head_of, image_of};
ghost use Rattle.recipe_files.specs.Builds.{support_of, update_image};
ghost use Rattle.recipe_files.specs.Room.{found};

use crate::RecipeItem;
use crate::index::find;
use crate::room::HEAD_BYTES;
use capsule_grammar::Image;
use cu_base::{Blob, MAX_CAPSULE_BYTES, NoMemory, put_u16, put_u32, put_u64};
use fmp_headers::ImageHeader;
use image_parts::{AuthParts, PayloadHead};
use std::alloc::Global;
use std::collections::HashMap;

/// The bytes that dwLength counts before CertData (UEFI 2.10, 23.1).
const CERTIFICATE_BYTES: u32 = 24;

/// wRevision.
const REVISION: u16 = 0x0200;

/// WIN_CERT_TYPE_EFI_GUID, wCertificateType.
const CERTIFICATE_TYPE: u16 = 0x0EF1;

/// Signature of a payload header (EDK II, FmpPayloadHeaderLibV1).
const SIGNATURE: &[u8] = b"MSS1";

/// ImageCapsuleSupport (UEFI 2.10, 23.3.2).
pub(crate) fn support_of(item: &RecipeItem) -> u64
    ensures { result ≡ support_of item.now }
{
    u64::from(item.auth) + if item.dep.is_some() { 2 } else { 0 }
}

/// Appends authentication data.
fn put_certificate(out: &mut Blob, auth: &AuthParts<'_>) -> Result<(), NoMemory>
    requires { CERTIFICATE_BYTES + length auth.now.cert.now < 2 ^ 32 }
    ensures { OnOk result (out.new ≡ out.old ++ authentication_bytes (auth_seen auth.now)) }
{
    put_u64(out, auth.monotonic)?;
    put_u32(out, CERTIFICATE_BYTES + auth.cert.len() as u32)?;
    put_u16(out, REVISION)?;
    put_u16(out, CERTIFICATE_TYPE)?;
    out.push_slice(&auth.cert_type.bytes)?;
    out.push_slice(auth.cert)?;
    Ok(())
}

/// Appends the authentication data of an item, if it has any.
#[tactic(auto, using(crate::proofs::BuildLemmas::cert_is_within))]
pub(crate) fn put_auth(out: &mut Blob, item: &RecipeItem) -> Result<(), NoMemory>
    requires { length (auth_bytes (auth_of item.now)) ≤ MAX_CAPSULE_BYTES }
    ensures { OnOk result (out.new ≡ out.old ++ auth_bytes (auth_of item.now)) }
{
    if !item.auth {
        return Ok(());
    }
    let _type: &[u8] = &item.cert_type.bytes;
    put_certificate(
        out,
        &AuthParts {
            monotonic: item.monotonic,
            cert_type: item.cert_type,
            cert: item.cert.as_slice(),
        },
    )
}

/// Appends a section, if there is one.
pub(crate) fn put_section(out: &mut Blob, dep: &Option<Blob>) -> Result<(), NoMemory>
    ensures { OnOk result (out.new ≡ out.old ++ dep_bytes dep.now) }
{
    match dep {
        Some(bytes) => out.push_slice(bytes.as_slice()),
        None => Ok(()),
    }
}

/// Appends the fields of a payload header.
pub(crate) fn put_head(out: &mut Blob, head: &PayloadHead) -> Result<(), NoMemory>
    ensures { OnOk result (out.new ≡ out.old ++ payload_head_bytes head.now) }
{
    out.push_slice(SIGNATURE)?;
    put_u32(out, head.header_size)?;
    put_u32(out, head.version)?;
    put_u32(out, head.lowest)?;
    Ok(())
}

/// The payload header of an item.
pub(crate) fn head_of(item: &RecipeItem) -> PayloadHead
    ensures { result ≡ head_of item.now }
{
    PayloadHead {
        header_size: HEAD_BYTES,
        version: item.fw_version,
        lowest: item.lowest,
    }
}

/// The update image of an item.
#[tactic(auto, using(crate::proofs::BuildLemmas::auth_is_within))]
fn build_update<'a>(
    alloc: Global,
    index: &HashMap<&'a str, &'a [u8]>,
    item: &RecipeItem,
) -> Result<Blob, NoMemory>
    requires { length (update_image (found index.now) item.now) ≤ MAX_CAPSULE_BYTES }
    ensures { IfOk result (λ image. image ≡ update_image (found index.now) item.now) }
{
    let payload = find(index, item.payload.as_str());
    let mut image = Blob::new(alloc);
    put_auth(&mut image, item)?;
    put_section(&mut image, &item.dep)?;
    put_head(&mut image, &head_of(item))?;
    image.reserve(payload.len())?;
    image.push_slice(payload)?;
    Ok(image)
}

/// The image item of an item.
#[tactic(auto, using(crate::proofs::BuildLemmas::image_is_within, crate::proofs::BuildLemmas::vendor_is_within))]
pub(crate) fn build_image<'a>(
    alloc: Global,
    index: &HashMap<&'a str, &'a [u8]>,
    item: &RecipeItem,
) -> Result<Image, NoMemory>
    requires { length (image_bytes (image_of (found index.now) item.now)) ≤ MAX_CAPSULE_BYTES }
    ensures { IfOk result (λ image. image ≡ image_of (found index.now) item.now) }
{
    let image = build_update(alloc, index, item)?;
    let vendor = Blob::from_slice(alloc, item.vendor.as_slice())?;
    Ok(Image {
        header: ImageHeader {
            version: item.header,
            type_id: item.type_id,
            index: item.index,
            reserved: [0; 3],
            image_size: image.len() as u32,
            vendor_size: vendor.len() as u32,
            instance: item.instance,
            support: support_of(item),
        },
        image,
        vendor,
        pad: Blob::new(alloc),
    })
}
