//! A reader goes from item to item, and through the parts of one.

ghost use Rattle.std.specs.Prelude.{◌≡◌, ◌+◌, ◌-◌, ◌^◌, ◌<◌, ◌≤◌, min, List, ℕ, [], drop};
ghost use Rattle.std.specs.Prelude.{length, None};
ghost use Rattle.std.specs.Prelude.{nat_lt, get_or, if◌then◌else◌};
ghost use Rattle.cu_base.specs.Refusals.{first_refusal};
ghost use Rattle.capsule_grammar.specs.Fronts.{Begins};
ghost use Rattle.capsule_grammar.specs.Refusals.{body_of, image_rows, item};
ghost use Rattle.capsule_feed.specs.Structures.{image_parts};
ghost use Rattle.capsule_feed.specs.Cursors.{AtImage, AtItem, AtParts, Goes, HasHead};
ghost use Rattle.capsule_feed.specs.Cursors.{HoldsOfSome};
ghost use Rattle.capsule_feed.specs.Cursors.{InImageStart, ItemsAre, image_place, place_of};
ghost use Rattle.capsule_feed.specs.Cursors.{pad_parts};
ghost use Rattle.capsule_feed.specs.Cursors.{vendor_parts};
ghost use Rattle.capsule_feed.specs.Told.{image_reach};

use crate::SpanKind;
use crate::capsules::end_capsule;
use crate::cursor::{Cursor, tells};
use crate::offset_list::offset_or;
use capsule_grammar::{Refusal, Why, check_image_start};
use cu_base::u32_at;
use fmp_headers::{IMAGE_HEADER_BYTES, image_header_size, is_image_version};

/// The place of UpdateImageSize in an image header.
const IMAGE_SIZE_AT: usize = 24;

/// The place of UpdateVendorCodeSize in an image header.
const VENDOR_SIZE_AT: usize = 28;

/// The place where item `k` of the capsule in hand begins, and where the last one ends.
pub fn bound_place(c: &Cursor, own: &[u32], k: u32) -> u32
    ensures { (whole : List ℕ) → ItemsAre c.now.header_size c.now.image_size c.now.drivers
        c.now.items own.now (drop c.now.start whole) →
        length whole < 2 ^ 32 → k ≤ c.now.items →
        result ≡ place_of c.now.start (drop c.now.start whole) k }
{
    if k < c.items {
        c.place(c.header_size).saturating_add(offset_or(own, k))
    } else {
        c.place(c.image_size)
    }
}

/// At item `k`, or at the end of the capsule in hand.
pub fn begin_item(c: Cursor, own: &[u32], k: u32) -> Cursor
    ensures { (whole : List ℕ) → AtItem c own.now k whole →
        Goes result own.now [] (place_of c.start (drop c.start whole) k) whole }
{
    if k >= c.items {
        return end_capsule(c);
    }
    let end = bound_place(&c, own, k.saturating_add(1));
    let item = Cursor {
        kind: SpanKind::Driver,
        item: k,
        at: bound_place(&c, own, k),
        stop: end,
        item_end: end,
        ..c
    };
    if k >= c.drivers {
        return begin_image_head(item);
    }
    if item.at == end {
        return end_capsule(c);
    }
    item
}

/// At an image item. One of no bytes is refused at once.
fn begin_image_head(c: Cursor) -> Cursor
    ensures { (own whole : List ℕ) → AtImage c own whole → Goes result own [] c.at whole }
{
    let size = c.item_end.saturating_sub(c.at);
    let head = Cursor {
        kind: SpanKind::ImageHead,
        stop: c.at.saturating_add(size.min(IMAGE_HEADER_BYTES)),
        tested: c.item,
        ..c
    };
    if size > 0 {
        return head;
    }
    let refusal = Refusal {
        at: c.at.saturating_sub(c.start),
        why: Why::Short,
    };
    tells(head, refusal, refusal.at)
}

/// Behind the first 32 bytes of an image item, which tell version and sizes: they are judged.
pub fn after_image_start(c: Cursor, own: &[u32], head: &[u8]) -> Cursor
    requires some { HoldsOfSome (λ whole. InImageStart c own.now whole
        × HasHead c.at c.stop head.now whole) }
    ensures { (whole : List ℕ) → InImageStart c own.now whole → HasHead c.at c.stop head.now whole →
        Goes result own.now [] c.stop whole }
{
    let size = c.item_end.saturating_sub(c.at);
    let at = c.at.saturating_sub(c.start);
    match check_image_start(head, size, at) {
        Ok(()) => known_image(c, own, head),
        Err(refusal) => tells(c, refusal, at.saturating_add(image_reach(head, size))),
    }
}

/// How far the tests of an image item of `size` bytes look, by its first bytes.
fn image_reach(head: &[u8], size: u32) -> u32
    requires { min 32 size ≤ length head.now }
    ensures { (image : List ℕ) → Begins head.now size image → result ≡ image_reach image }
{
    if size < IMAGE_HEADER_BYTES {
        return size;
    }
    let version = u32_at(head, 0);
    if is_image_version(version) {
        size.min(image_header_size(version))
    } else {
        IMAGE_HEADER_BYTES
    }
}

/// The parts of an image item are known.
fn known_image(c: Cursor, own: &[u32], head: &[u8]) -> Cursor
    requires { 32 ≤ length head.now }
    ensures { (whole : List ℕ) → InImageStart c own.now whole → HasHead c.at c.stop head.now whole →
        first_refusal (image_rows (item (body_of (drop c.start whole)) c.item) (c.at - c.start))
        ≡ None → Goes result own.now [] c.stop whole }
{
    let image_at = c.at.saturating_add(image_header_size(u32_at(head, 0)));
    let vendor_at = image_at.saturating_add(u32_at(head, IMAGE_SIZE_AT));
    let known = Cursor {
        stop: image_at,
        tested: c.item.saturating_add(1),
        vendor_at,
        pad_at: vendor_at.saturating_add(u32_at(head, VENDOR_SIZE_AT)),
        ..c
    };
    if c.stop == image_at {
        return begin_image(known, own);
    }
    known
}

/// Behind an image header, where the reader stops: the update image, if it has a byte.
pub fn begin_image(c: Cursor, own: &[u32]) -> Cursor
    ensures { (whole : List ℕ) → c.stop ≡ image_place c.start (drop c.start whole) c.item →
        AtParts c own.now c.stop (λ rest. image_parts c.capsule (body_of rest) c.item) whole →
        Goes result own.now [] c.stop whole }
{
    if c.stop == c.vendor_at {
        return begin_vendor(c, own);
    }
    Cursor {
        kind: SpanKind::Image,
        at: c.stop,
        stop: c.vendor_at,
        ..c
    }
}

/// Behind an update image: vendor code, if it has a byte.
pub fn begin_vendor(c: Cursor, own: &[u32]) -> Cursor
    ensures { (whole : List ℕ) → AtParts c own.now c.vendor_at (vendor_parts c.capsule c.item) whole →
        Goes result own.now [] c.vendor_at whole }
{
    if c.vendor_at == c.pad_at {
        return begin_pad(c, own);
    }
    Cursor {
        kind: SpanKind::Vendor,
        at: c.vendor_at,
        stop: c.pad_at,
        ..c
    }
}

/// Behind vendor code: the pad, if it has a byte.
pub fn begin_pad(c: Cursor, own: &[u32]) -> Cursor
    ensures { (whole : List ℕ) → AtParts c own.now c.pad_at (pad_parts c.capsule c.item) whole →
        Goes result own.now [] c.pad_at whole }
{
    if c.pad_at == c.item_end {
        return begin_item(c, own, c.item.saturating_add(1));
    }
    Cursor {
        kind: SpanKind::Pad,
        at: c.pad_at,
        stop: c.item_end,
        ..c
    }
}
