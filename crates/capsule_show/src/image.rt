//! The lines of an image.

ghost use Rattle.std.specs.Prelude.{◌≡◌, ◌==◌, ◌++◌, ◌∷◌, [], decimal, OnOk};
ghost use Rattle.std.specs.List.{list_all};
ghost use Rattle.capsule_grammar.specs.Accepted.{IsImageItem};
ghost use Rattle.capsule_grammar.specs.Reading.{image_of};
ghost use Rattle.capsule_grammar.specs.Values.{image_seen};
ghost use Rattle.capsule_show.specs.Appended.{AppendsLines};
ghost use Rattle.capsule_show.specs.Images.{AreLinesOf};
ghost use Rattle.capsule_show.specs.Lines.{digest_line, header_words, item_line, pad_word};
ghost use Rattle.capsule_show.specs.Lines.{size_words, spaced};

use crate::parts::push_found;
use crate::words::{end_line, push_guid, push_hex, push_named, push_number, push_text, push_word};
use capsule_grammar::ImageView;
use capsule_grammar::accepted::image_view;
use cu_base::{Blob, NoMemory};
use fmp_headers::ImageHeader;
use lane_scan::first_unlike;
use sha2::{Digest, Sha256};
use std::alloc::Global;

/// Appends the lines of the image of this number, which this item is.
pub fn push_image(out: &mut Blob, alloc: Global, number: u32, item: &[u8]) -> Result<(), NoMemory>
    requires { IsImageItem item.now }
    ensures { OnOk result (AppendsLines (AreLinesOf number (image_of item.now)) out.old out.new) }
{
    let view = image_view(item);
    push_item(out, alloc, number, &view)?;
    push_found(out, alloc, view.image, view.header.support)?;
    push_digest(out, alloc, view.image)
}

fn push_item(
    out: &mut Blob,
    alloc: Global,
    number: u32,
    view: &ImageView<'_>,
) -> Result<(), NoMemory>
    ensures { OnOk result (out.new ≡ out.old ++ item_line number (image_seen view.now)) }
{
    push_text(out, "item")?;
    push_number(out, u64::from(number))?;
    push_header(out, alloc, &view.header)?;
    push_sizes(out, view)?;
    end_line(out)
}

fn push_header(out: &mut Blob, alloc: Global, header: &ImageHeader) -> Result<(), NoMemory>
    ensures { OnOk result (out.new ≡ out.old ++ spaced (header_words header.now)) }
{
    push_named(out, "header", u64::from(header.version))?;
    push_word(out, "type")?;
    push_guid(out, alloc, &header.type_id)?;
    push_named(out, "index", u64::from(header.index))?;
    push_named(out, "instance", header.instance)?;
    push_named(out, "support", header.support)
}

fn push_sizes(out: &mut Blob, view: &ImageView<'_>) -> Result<(), NoMemory>
    ensures { OnOk result (out.new ≡ out.old ++ spaced (size_words (image_seen view.now))) }
{
    push_named(out, "image", view.image.len() as u64)?;
    push_named(out, "vendor", view.vendor.len() as u64)?;
    push_named(out, "pad", view.pad.len() as u64)?;
    push_word(out, pad_word(view.pad))
}

fn pad_word(pad: &[u8]) -> &'static str
    ensures { result.now ≡ pad_word pad.now }
{
    if is_zero(pad) { "zero" } else { "data" }
}

#[tactic(auto, using(crate::proofs::Growing::all_pass))]
fn is_zero(pad: &[u8]) -> bool
    ensures { result ≡ list_all (λ b. b == 0) pad.now }
{
    first_unlike(pad, 0) == pad.len()
}

fn push_digest(out: &mut Blob, alloc: Global, image: &[u8]) -> Result<(), NoMemory>
    ensures { OnOk result (out.new ≡ out.old ++ digest_line image.now) }
{
    push_text(out, "  digest")?;
    let digest = Sha256::digest(image);
    push_hex(out, alloc, digest.as_slice())?;
    end_line(out)
}
