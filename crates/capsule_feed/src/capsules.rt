//! A reader goes from capsule to capsule, and through the header of one.

ghost use Rattle.std.specs.Prelude.{◌+◌, List, ℕ, []};
ghost use Rattle.capsule_feed.specs.Cursors.{AtBody, AtEnd, AtExt, AtFmpHead, AtOther, Goes};
ghost use Rattle.capsule_feed.specs.Cursors.{HasHead, HoldsOfSome, InHeader, IsBetween};

use crate::SpanKind;
use crate::cursor::{Cursor, Fate, tells};
use crate::fronts::after_fmp_head;
use capsule_grammar::{MAX_CAPSULES, Refusal, Why, check_capsule_header, is_fmp_guid};
use fmp_headers::{CAPSULE_HEADER_BYTES, CapsuleHeader, FMP_HEADER_BYTES};

/// At the start of a capsule, of which at least one byte is there.
pub fn begin_capsule(total: u32, start: u32, capsule: u8) -> Cursor
    ensures { (own whole : List ℕ) → IsBetween total capsule start whole →
        Goes result own [] start whole }
{
    let here = Cursor {
        total,
        fate: Fate::Reads,
        kind: SpanKind::Header,
        capsule,
        item: 0,
        at: start,
        stop: start.saturating_add(total.saturating_sub(start).min(CAPSULE_HEADER_BYTES)),
        tested: 0,
        start,
        header_size: 0,
        image_size: 0,
        is_fmp: false,
        drivers: 0,
        items: 0,
        vendor_at: 0,
        pad_at: 0,
        item_end: 0,
    };
    if (capsule as u32) < MAX_CAPSULES {
        return here;
    }
    let refusal = Refusal {
        at: 0,
        why: Why::TooManyCapsules,
    };
    tells(here, refusal, 0)
}

/// Behind the capsule in hand: the next one begins, or the delivery ends.
pub fn end_capsule(c: Cursor) -> Cursor
    ensures { (own whole : List ℕ) → AtEnd c whole → Goes result own [] (c.start + c.image_size) whole }
{
    let next = c.place(c.image_size);
    if next < c.total {
        return begin_capsule(c.total, next, c.capsule.saturating_add(1));
    }
    Cursor {
        fate: Fate::Ends,
        at: next,
        stop: next,
        ..c
    }
}

/// Behind the fields of a capsule header, which are judged.
pub fn after_header(c: Cursor, head: &[u8]) -> Cursor
    requires some { HoldsOfSome (λ whole. InHeader c whole × HasHead c.at c.stop head.now whole) }
    ensures { (whole : List ℕ) → InHeader c whole → HasHead c.at c.stop head.now whole →
        Goes result [] [] c.stop whole }
{
    let size = c.total.saturating_sub(c.start);
    match check_capsule_header(CapsuleHeader::read(head), size as u64) {
        Err(refusal) => tells(c, refusal, size.min(CAPSULE_HEADER_BYTES)),
        Ok(header) => begin_ext(Cursor {
            header_size: header.header_size,
            image_size: header.image_size,
            is_fmp: is_fmp_guid(&header.guid),
            ..c
        }),
    }
}

/// Behind the fields of a capsule header: what else it has, if anything.
fn begin_ext(c: Cursor) -> Cursor
    requires some { HoldsOfSome (λ whole. AtExt c whole) }
    ensures { (whole : List ℕ) → AtExt c whole → Goes result [] [] (c.start + 28) whole }
{
    if c.header_size == CAPSULE_HEADER_BYTES {
        return begin_body(c);
    }
    Cursor {
        kind: SpanKind::Ext,
        item: 0,
        at: c.place(CAPSULE_HEADER_BYTES),
        stop: c.place(c.header_size),
        ..c
    }
}

/// Behind a capsule header: the body, by the GUID.
pub fn begin_body(c: Cursor) -> Cursor
    requires some { HoldsOfSome (λ whole. AtBody c whole) }
    ensures { (whole : List ℕ) → AtBody c whole →
        Goes result [] [] (c.start + c.header_size) whole }
{
    if c.is_fmp {
        begin_fmp_head(c)
    } else {
        begin_other(c)
    }
}

/// The body of a capsule that is no FMP capsule.
fn begin_other(c: Cursor) -> Cursor
    ensures { (whole : List ℕ) → AtOther c whole →
        Goes result [] [] (c.start + c.header_size) whole }
{
    if c.body_size() == 0 {
        return end_capsule(c);
    }
    Cursor {
        kind: SpanKind::Other,
        item: 0,
        at: c.place(c.header_size),
        stop: c.place(c.image_size),
        ..c
    }
}

/// The FMP header. Where the body has no byte it is refused at once.
fn begin_fmp_head(c: Cursor) -> Cursor
    requires some { HoldsOfSome (λ whole. AtFmpHead c whole) }
    ensures { (whole : List ℕ) → AtFmpHead c whole →
        Goes result [] [] (c.start + c.header_size) whole }
{
    let here = c.place(c.header_size);
    let size = c.body_size().min(FMP_HEADER_BYTES);
    let head = Cursor {
        kind: SpanKind::FmpHead,
        item: 0,
        at: here,
        stop: here.saturating_add(size),
        ..c
    };
    if size == 0 {
        return after_fmp_head(head, &[]);
    }
    head
}
