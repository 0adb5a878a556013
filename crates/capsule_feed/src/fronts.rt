//! A reader goes through FMP header and offset list.

ghost use Rattle.std.specs.Prelude.{◌≡◌, ◌+◌, ◌-◌, ◌*◌, ◌≤◌, ◌^◌, min, List, ℕ, [], drop, OnOk};
ghost use Rattle.std.specs.Prelude.{IfErr};
ghost use Rattle.cu_base.specs.Refusals.{first_refusal};
ghost use Rattle.fmp_headers.specs.CapsuleHeader.{header_size};
ghost use Rattle.capsule_grammar.specs.Refusals.{Answers, body_of, list_end, offset};
ghost use Rattle.capsule_grammar.specs.Refusals.{offset_rows};
ghost use Rattle.capsule_feed.specs.Cursors.{AtLead, AtOffsets, Goes, HasHead, HoldsOfSome};
ghost use Rattle.capsule_feed.specs.Cursors.{InFmpHead, InOffsets, PastOffset};

use crate::SpanKind;
use crate::cursor::{Cursor, tells};
use crate::items::{begin_item, bound_place};
use capsule_grammar::{
    OFFSET_BYTES, Refusal, check_fmp_header, check_one_offset, driver_count, item_count,
};
use fmp_headers::FMP_HEADER_BYTES;

/// Behind the FMP header, which is judged with the size of the offset list.
pub fn after_fmp_head(c: Cursor, head: &[u8]) -> Cursor
    requires some { HoldsOfSome (λ whole. InFmpHead c whole × HasHead c.at c.stop head.now whole) }
    ensures { (whole : List ℕ) → InFmpHead c whole → HasHead c.at c.stop head.now whole →
        Goes result [] [] c.stop whole }
{
    let size = c.body_size();
    match check_fmp_header(head, size, c.header_size) {
        Ok(()) => begin_offsets(Cursor {
            drivers: driver_count(head) as u32,
            items: item_count(head),
            ..c
        }),
        Err(refusal) => {
            if refusal.at == c.header_size {
                return tells(c, refusal, c.header_size + size.min(FMP_HEADER_BYTES));
            }
            let list = Cursor {
                kind: SpanKind::Offsets,
                at: c.stop,
                ..c
            };
            tells(list, refusal, c.image_size)
        }
    }
}

/// At the offset list.
fn begin_offsets(c: Cursor) -> Cursor
    ensures { (whole : List ℕ) → AtOffsets c whole →
        Goes result [] [] (c.start + c.header_size + 8) whole }
{
    let here = c.place(c.header_size).saturating_add(FMP_HEADER_BYTES);
    let list = Cursor {
        kind: SpanKind::Offsets,
        item: 0,
        at: here,
        stop: here.saturating_add(OFFSET_BYTES),
        tested: 0,
        ..c
    };
    if c.items == 0 {
        return begin_lead(list, &[]);
    }
    list
}

/// Where the offset list of the capsule in hand ends in its body.
fn list_end(c: &Cursor) -> u32
    ensures { result ≡ min (min (c.now.items * 8) (2 ^ 32 - 1) + 8) (2 ^ 32 - 1) }
{
    c.items
        .saturating_mul(OFFSET_BYTES)
        .saturating_add(FMP_HEADER_BYTES)
}

/// Whether the next offset is refused.
pub fn check_next_offset(c: &Cursor, own: &[u32], here: u64) -> Result<(), Refusal>
    requires some { HoldsOfSome (InOffsets c.now own.now) }
    ensures ok { OnOk result (here ≤ c.now.image_size - c.now.header_size) }
    ensures refused { (whole : List ℕ) → InOffsets c.now own.now whole →
        offset (body_of (drop c.now.start whole)) c.now.tested ≡ here →
        Answers result (first_refusal (offset_rows (body_of (drop c.now.start whole))
        (header_size (drop c.now.start whole)) c.now.tested)) }
{
    let before = match own.last() {
        Some(offset) => *offset as u64,
        None => 0,
    };
    check_one_offset(
        c.tested,
        here,
        before,
        list_end(c),
        c.body_size(),
        c.header_size,
    )
}

/// Behind an offset that is not refused and was taken.
pub fn after_offset(c: Cursor, own: &[u32]) -> Cursor
    ensures { (whole : List ℕ) → PastOffset c own.now whole → Goes result own.now [] c.stop whole }
{
    let next = c.tested.saturating_add(1);
    if next == c.items {
        return begin_lead(c, own);
    }
    Cursor {
        tested: next,
        stop: c.stop.saturating_add(OFFSET_BYTES),
        ..c
    }
}

/// Behind the offset list: what stands before the first item, if anything.
fn begin_lead(c: Cursor, own: &[u32]) -> Cursor
    ensures { (whole : List ℕ) → AtLead c own.now whole → Goes result own.now []
        (c.start + header_size (drop c.start whole) + list_end (body_of (drop c.start whole))) whole }
{
    let here = c.place(c.header_size).saturating_add(list_end(&c));
    let lead = Cursor {
        kind: SpanKind::Lead,
        item: 0,
        at: here,
        stop: bound_place(&c, own, 0),
        tested: c.drivers,
        ..c
    };
    if lead.stop == here {
        return begin_item(lead, own, 0);
    }
    lead
}
