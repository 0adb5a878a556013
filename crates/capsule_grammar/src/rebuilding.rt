//! The capsule at the front of bytes, written again without its lead and its pads: as one blob, where
//! no body is copied but into it, or in pieces, where none is copied at all.

ghost use Rattle.std.specs.Prelude.{◌≡◌, ◌↔◌, true, take, ◌+◌, ◌<◌, ◌≤◌, ◌++◌, ◌^◌, None, length};
ghost use Rattle.std.specs.Prelude.{IfOk, IfErr, OnOk};
ghost use Rattle.std.specs.List.{concat, flat_map};
ghost use Rattle.cu_base.specs.Refusals.{AnswersBy};
ghost use Rattle.cu_base.specs.Fields.{bytes_of};
ghost use Rattle.fmp_headers.specs.CapsuleHeader.{header_size, image_size};
ghost use Rattle.capsule_grammar.specs.Accepted.{IsFront, IsFmpBody, IsImageItem};
ghost use Rattle.capsule_grammar.specs.Faults.{told_by};
ghost use Rattle.capsule_grammar.specs.Pieces.{joined};
ghost use Rattle.capsule_grammar.specs.Reading.{capsule_of, fmp_of};
ghost use Rattle.capsule_grammar.specs.Rebuilt.{emptied, emptied_fmp, emptied_on, kept, kept_items};
ghost use Rattle.capsule_grammar.specs.Rebuilt.{kept_list};
ghost use Rattle.capsule_grammar.specs.Refusals.{refusal, body_of, item_count, list_end};
ghost use Rattle.capsule_grammar.specs.Refusals.{image_parts_size};
ghost use Rattle.capsule_grammar.specs.declared.value.Body.TheVariants.{Fmp};
ghost use Rattle.capsule_grammar.specs.Spelling.{spelling, fmp_bytes, offsets};

use crate::accepted::{body, capsule_header, image_header};
use crate::checking::item;
use crate::header::is_fmp_guid;
use crate::parts::{driver_count, image_count, item_count, list_end};
use crate::{DecodeFault, Piece, check};
use cu_base::{Blob, Items, NoMemory, put_u64};
use fmp_headers::{CAPSULE_HEADER_BYTES, CapsuleHeader, FmpHeader, image_header_size};
use std::alloc::Global;

/// The bytes of the capsule at the front with its lead and every pad empty. All else, `ext` too, is
/// kept.
pub fn rebuild(alloc: Global, bytes: &[u8]) -> Result<Blob, DecodeFault>
    ensures ok { IfOk result (λ out. out ≡ spelling (emptied (capsule_of bytes.now))) }
    ensures refused { AnswersBy told_by result (refusal bytes.now) }
{
    let size = check(bytes)?;
    if is_fmp_guid(&capsule_header(bytes).guid) {
        Ok(rebuild_fmp(alloc, bytes)?)
    } else {
        Ok(Blob::from_slice(alloc, &bytes[..size])?)
    }
}

/// The same bytes as those of [`rebuild`], in pieces that are written one after the other. No item is
/// copied: each is a slice of `bytes`.
pub fn rebuild_pieces<'a>(alloc: Global, bytes: &'a [u8]) -> Result<Items<Piece<'a>>, DecodeFault>
    ensures ok { IfOk result (λ pieces. joined pieces.items
        ≡ spelling (emptied (capsule_of bytes.now))) }
    ensures refused { AnswersBy told_by result (refusal bytes.now) }
{
    let mut pieces = Items::new(alloc);
    put_rebuilt(alloc, bytes, &mut pieces)?;
    Ok(pieces)
}

/// Whether the capsule at the front has neither a lead nor a pad, so that a rebuild leaves its
/// bytes as they are.
pub fn is_rebuilt(bytes: &[u8]) -> bool
    requires { refusal bytes.now ≡ None }
    ensures { result ≡ true ↔
        spelling (emptied (capsule_of bytes.now)) ≡ take (image_size bytes.now) bytes.now }
{
    if !is_fmp_guid(&capsule_header(bytes).guid) {
        return true;
    }
    let body = body(bytes);
    kept_size(body) as usize == body.len()
}

/// The CapsuleImageSize of an FMP capsule with its lead and every pad empty.
fn rebuilt_size(bytes: &[u8]) -> u32
    requires front { IsFront bytes.now }
    requires fmp { IsFmpBody (body_of bytes.now) }
    ensures { result ≡ header_size bytes.now
        + length (fmp_bytes (emptied_fmp (fmp_of (body_of bytes.now)))) }
{
    capsule_header(bytes).header_size + kept_size(body(bytes))
}

/// An FMP capsule with its lead and every pad empty.
fn rebuild_fmp(alloc: Global, bytes: &[u8]) -> Result<Blob, NoMemory>
    requires front { IsFront bytes.now }
    requires fmp { IsFmpBody (body_of bytes.now) }
    ensures { IfOk result (λ out. out ≡ spelling (emptied_on bytes.now)) }
{
    let size = rebuilt_size(bytes);
    let mut out = Blob::new(alloc);
    out.reserve(size as usize)?;
    put_heads(&mut out, bytes, size)?;
    put_kept_items(&mut out, body(bytes))?;
    Ok(out)
}

/// Appends all that stands before the items that are kept: capsule header, ext, FMP header and
/// offset list, for a CapsuleImageSize of `size`.
fn put_heads(out: &mut Blob, bytes: &[u8], size: u32) -> Result<(), NoMemory>
    requires front { IsFront bytes.now }
    requires fmp { IsFmpBody (body_of bytes.now) }
    requires sized { size ≡ header_size bytes.now
        + length (fmp_bytes (emptied_fmp (fmp_of (body_of bytes.now)))) }
    ensures { OnOk result (out.new ++ concat (kept_items (body_of bytes.now))
        ≡ out.old ++ spelling (emptied_on bytes.now)) }
{
    let header = capsule_header(bytes);
    CapsuleHeader {
        guid: header.guid,
        header_size: header.header_size,
        flags: header.flags,
        image_size: size,
    }
    .write_into(out)?;
    out.push_slice(&bytes[CAPSULE_HEADER_BYTES as usize..header.header_size as usize])?;
    put_kept_list(out, body(bytes))?;
    Ok(())
}

/// What is kept of item `k`: a driver, or header, update image and vendor code of an image.
fn kept(body: &[u8], k: u32) -> &[u8]
    requires body { IsFmpBody body.now }
    requires there { k < item_count body.now }
    requires few { k < 2 ^ 17 }
    ensures { result.now ≡ kept body.now k }
{
    let item = item(body, k);
    if k < driver_count(body) as u32 {
        item
    } else {
        &item[..parts_size(item)]
    }
}

/// The bytes of header, update image and vendor code of an image item.
fn parts_size(image: &[u8]) -> usize
    requires { IsImageItem image.now }
    ensures { result ≡ image_parts_size image.now }
{
    let header = image_header(image);
    image_header_size(header.version) as usize
        + header.image_size as usize
        + header.vendor_size as usize
}

/// The bytes of the body that is left.
fn kept_size(body: &[u8]) -> u32
    requires body { IsFmpBody body.now }
    requires small { length body.now < 2 ^ 31 }
    ensures value { result ≡ list_end body.now + length (concat (kept_items body.now)) }
    ensures bound { result ≤ length body.now }
{
    let mut size = list_end(body);
    for k in 0..item_count(body) {
        size += kept(body, k).len() as u32;
    }
    size
}

/// Appends FMP header and offset list of the body that is left.
fn put_kept_list(out: &mut Blob, body: &[u8]) -> Result<(), NoMemory>
    requires { IsFmpBody body.now }
    ensures { OnOk result (out.new ++ concat (kept_items body.now)
        ≡ out.old ++ fmp_bytes (emptied_fmp (fmp_of body.now))) }
{
    FmpHeader {
        drivers: driver_count(body),
        items: image_count(body),
    }
    .write_into(out)?;
    put_kept_offsets(out, body)?;
    Ok(())
}

/// Appends the offset list of the items that are kept, which begin behind it.
fn put_kept_offsets(out: &mut Blob, body: &[u8]) -> Result<(), NoMemory>
    requires { IsFmpBody body.now }
    ensures { OnOk result (out.new ≡ out.old ++ kept_list body.now) }
{
    let mut here = list_end(body) as u64;
    for k in 0..item_count(body) {
        put_u64(out, here)?;
        here += kept(body, k).len() as u64;
    }
    Ok(())
}

/// Appends what is kept of each item.
fn put_kept_items(out: &mut Blob, body: &[u8]) -> Result<(), NoMemory>
    requires { IsFmpBody body.now }
    ensures { OnOk result (out.new ≡ out.old ++ concat (kept_items body.now)) }
{
    for k in 0..item_count(body) {
        out.push_slice(kept(body, k))?;
    }
    Ok(())
}

/// Appends a capsule with its lead and every pad empty, in pieces.
fn put_rebuilt<'a>(
    alloc: Global,
    bytes: &'a [u8],
    pieces: &mut Items<Piece<'a>>,
) -> Result<(), DecodeFault>
    ensures ok { OnOk result (joined pieces.new.items
        ≡ joined pieces.old.items ++ spelling (emptied (capsule_of bytes.now))) }
    ensures refused { AnswersBy told_by result (refusal bytes.now) }
{
    let size = check(bytes)?;
    if is_fmp_guid(&capsule_header(bytes).guid) {
        put_fmp_pieces(alloc, bytes, pieces)?;
        Ok(())
    } else {
        pieces.push(Piece::Lent(&bytes[..size]))?;
        Ok(())
    }
}

/// Appends an FMP capsule with its lead and every pad empty, in pieces: all that stands before the
/// items in one of its own, and each item where it stands.
fn put_fmp_pieces<'a>(
    alloc: Global,
    bytes: &'a [u8],
    pieces: &mut Items<Piece<'a>>,
) -> Result<(), NoMemory>
    requires front { IsFront bytes.now }
    requires fmp { IsFmpBody (body_of bytes.now) }
    ensures { OnOk result (joined pieces.new.items
        ≡ joined pieces.old.items ++ spelling (emptied_on bytes.now)) }
{
    let mut heads = Blob::new(alloc);
    put_heads(&mut heads, bytes, rebuilt_size(bytes))?;
    pieces.push(Piece::Own(heads))?;
    put_kept_pieces(pieces, body(bytes))?;
    Ok(())
}

/// Appends what is kept of each item, where it stands.
fn put_kept_pieces<'a>(pieces: &mut Items<Piece<'a>>, body: &'a [u8]) -> Result<(), NoMemory>
    requires { IsFmpBody body.now }
    ensures { OnOk result (joined pieces.new.items
        ≡ joined pieces.old.items ++ concat (kept_items body.now)) }
{
    pieces.reserve(item_count(body) as usize)?;
    for k in 0..item_count(body) {
        pieces.push(Piece::Lent(kept(body, k)))?;
    }
    Ok(())
}
