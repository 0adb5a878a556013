//! What a reader does where it stops.

ghost use Rattle.std.specs.Prelude.{◌≡◌, ◌+◌, ◌-◌, ◌++◌, ◌≤◌, List, ℕ, [], drop, take, length};
ghost use Rattle.std.specs.Prelude.{IfOk};
ghost use Rattle.capsule_feed.specs.Cursors.{Goes, HasHead, HoldsOfSome, InOffsets};
ghost use Rattle.capsule_feed.specs.Cursors.{InStructure, IsHead};
ghost use Rattle.capsule_feed.specs.Cursors.{IsStopped};
ghost use Rattle.capsule_feed.specs.Cursors.{own_behind};

use crate::SpanKind;
use crate::capsules::{after_header, begin_body, end_capsule};
use crate::cursor::{Cursor, tells};
use crate::fronts::{after_fmp_head, after_offset, check_next_offset};
use crate::head::Head;
use crate::items::{after_image_start, begin_image, begin_item, begin_pad, begin_vendor};
use crate::offset_list::OffsetList;
use cu_base::{NoMemory, u64_at};

/// The reader behind the place where it stops, but for an offset.
fn turned(c: Cursor, own: &[u32], head: &[u8]) -> Cursor
    requires some { HoldsOfSome (IsStopped c.kind c own.now head.now) }
    ensures { (whole : List ℕ) → IsStopped c.kind c own.now head.now whole →
        Goes result (own_behind c.kind own.now) [] c.stop whole }
{
    match c.kind {
        SpanKind::Header => after_header(c, head),
        SpanKind::Ext => begin_body(c),
        SpanKind::Other => end_capsule(c),
        SpanKind::FmpHead => after_fmp_head(c, head),
        SpanKind::Offsets => after_offset(c, own),
        SpanKind::Lead => begin_item(c, own, 0),
        SpanKind::Driver => begin_item(c, own, c.item.saturating_add(1)),
        SpanKind::ImageHead => {
            if c.tested == c.item {
                after_image_start(c, own, head)
            } else {
                begin_image(c, own)
            }
        }
        SpanKind::Image => begin_vendor(c, own),
        SpanKind::Vendor => begin_pad(c, own),
        SpanKind::Pad => begin_item(c, own, c.item.saturating_add(1)),
    }
}

/// The reader behind the place where it stops. An offset that is not refused is kept, behind the
/// first `from` offsets, which are of earlier capsules.
pub fn turn(c: Cursor, list: &mut OffsetList, from: usize, head: &Head) -> Result<Cursor, NoMemory>
    requires within { from ≤ length list.old }
    requires some { HoldsOfSome (λ whole. InStructure c.kind c (drop from list.old) whole
        × IsHead c.kind c head.now c.stop whole × c.stop ≤ length whole) }
    ensures ok { IfOk result (λ next. (whole : List ℕ) → InStructure c.kind c (drop from list.old) whole
        → IsHead c.kind c head.now c.stop whole → c.stop ≤ length whole
        → Goes next (own_behind c.kind (drop from list.new)) [] c.stop whole) }
    ensures front { take (length list.old) list.new ≡ list.old }
{
    match c.kind {
        SpanKind::Offsets => turn_offset(c, list, from, head.as_slice()),
        _ => Ok(turned(c, own(list, from), head.as_slice())),
    }
}

/// The same in the offset list.
fn turn_offset(
    c: Cursor,
    list: &mut OffsetList,
    from: usize,
    head: &[u8],
) -> Result<Cursor, NoMemory>
    requires within { from ≤ length list.old }
    requires some { HoldsOfSome (λ whole. InOffsets c (drop from list.old) whole
        × HasHead (c.stop - 8) c.stop head.now whole × c.stop ≤ length whole) }
    ensures ok { IfOk result (λ next. (whole : List ℕ) → InOffsets c (drop from list.old) whole
        → HasHead (c.stop - 8) c.stop head.now whole → c.stop ≤ length whole
        → Goes next (drop from list.new) [] c.stop whole) }
    ensures front { take (length list.old) list.new ≡ list.old }
{
    let here = u64_at(head, 0);
    match check_next_offset(&c, own(list, from), here) {
        Ok(()) => {
            list.push(here as u32)?;
            Ok(after_offset(c, own(list, from)))
        }
        Err(refusal) => Ok(tells(c, refusal, c.stop.saturating_sub(c.start))),
    }
}

/// The offsets of the capsule in hand.
fn own(list: &OffsetList, from: usize) -> &[u32]
    ensures { result.now ≡ drop from list.now }
{
    let all = list.as_slice();
    &all[from.min(all.len())..]
}
