//! A reader takes the bytes of a piece.

ghost use Rattle.std.specs.Prelude.{◌≡◌, ◌+◌, ◌^◌, ◌<◌, ◌≤◌, List, ℕ, [], drop, take, length};
ghost use Rattle.std.specs.Prelude.{max, IfOk, OnOk};
ghost use Rattle.capsule_feed.specs.declared.span.Span.{Span};
ghost use Rattle.capsule_feed.specs.Cursors.{Goes, HasRead, HoldsOfSome, InStructure, IsAtStop};
ghost use Rattle.capsule_feed.specs.Cursors.{IsGiven};
ghost use Rattle.capsule_feed.specs.Cursors.{IsHead, IsNext, IsNextFrom, StandAt};

use crate::cursor::{Cursor, Fate};
use crate::giving::give;
use crate::head::Head;
use crate::offset_list::OffsetList;
use crate::turning::turn;
use crate::{Events, SpanKind};
use cu_base::NoMemory;

/// Where a reader stands, what it gathered of the structure in hand, up to which place bytes came,
/// and how many of the offsets that are kept are of earlier capsules.
#[derive(Drop)]
pub struct Reader {
    pub cursor: Cursor,
    pub head: Head,
    pub came: u32,
    pub from: usize,
}

/// Whether a test is due, or the structure in hand ends.
fn is_stopped(c: &Cursor, came: u32) -> bool
    ensures { IsAtStop c.now.fate c.now.stop came result }
{
    match c.fate {
        Fate::Reads => came == c.stop,
        Fate::Tells(_) => false,
        Fate::Ends => false,
    }
}

/// How many of so many offsets are of earlier capsules behind a structure of the first kind, and in
/// one of the second.
fn next_from(last: SpanKind, next: SpanKind, from: usize, length: usize) -> usize
    ensures { IsNextFrom last next from length result }
{
    match next {
        SpanKind::Header => length,
        _ => match last {
            SpanKind::Header | SpanKind::Ext | SpanKind::Other | SpanKind::FmpHead => length,
            _ => from,
        },
    }
}

/// Goes on behind the place where the reader stops, and tells up to which place events are given.
fn pass(
    reader: &mut Reader,
    list: &mut OffsetList,
    events: &mut Events,
    given: u32,
) -> Result<u32, NoMemory>
    requires within { reader.old.from ≤ length list.old }
    requires some { HoldsOfSome (λ whole. InStructure reader.old.cursor.kind reader.old.cursor
        (drop reader.old.from list.old) whole
        × IsHead reader.old.cursor.kind reader.old.cursor reader.old.head reader.old.cursor.stop whole
        × reader.old.cursor.stop ≤ length whole) }
    ensures ok { IfOk result (λ g. (whole : List ℕ) (first x : ℕ) (head : List ℕ) (old : List Span)
        → IsGiven reader.old.cursor (drop reader.old.from list.old) head x given first old
        events.old.items whole → x ≤ reader.old.cursor.stop
        → InStructure reader.old.cursor.kind reader.old.cursor (drop reader.old.from list.old) whole
        → IsHead reader.old.cursor.kind reader.old.cursor reader.old.head reader.old.cursor.stop whole
        → IsGiven reader.new.cursor (drop reader.new.from list.new) reader.new.head
        reader.old.cursor.stop g first old events.new.items whole) }
    ensures from { IfOk result (λ g. reader.new.from ≤ length list.new) }
    ensures front { take (length list.old) list.new ≡ list.old }
    ensures came { reader.new.came ≡ reader.old.came }
{
    let last = reader.cursor;
    let next = turn(last, list, reader.from, &reader.head)?;
    give(events, &last, given, next.at)?;
    reader.from = next_from(last.kind, next.kind, reader.from, list.len());
    reader.cursor = next;
    reader.head = Head::new();
    Ok(given.max(next.at))
}

/// Takes bytes of the structure in hand, up to where the reader stops at most, and tells up to which
/// place events are given.
fn advance(
    reader: &mut Reader,
    list: &mut OffsetList,
    events: &mut Events,
    bytes: &[u8],
    given: u32,
) -> Result<u32, NoMemory>
    requires within { reader.old.from ≤ length list.old }
    requires fits { reader.old.came + length bytes.now ≤ reader.old.cursor.stop }
    requires small { reader.old.cursor.stop < 2 ^ 32 }
    requires some { HoldsOfSome (λ whole. StandAt reader.old.came bytes.now whole
        × Goes reader.old.cursor (drop reader.old.from list.old) reader.old.head reader.old.came whole) }
    ensures ok { IfOk result (λ g. (whole : List ℕ) (first : ℕ) (old : List Span)
        → StandAt reader.old.came bytes.now whole
        → IsGiven reader.old.cursor (drop reader.old.from list.old) reader.old.head reader.old.came
        given first old events.old.items whole
        → IsGiven reader.new.cursor (drop reader.new.from list.new) reader.new.head
        reader.new.came g first old events.new.items whole) }
    ensures from { IfOk result (λ g. reader.new.from ≤ length list.new) }
    ensures front { take (length list.old) list.new ≡ list.old }
    ensures came { reader.new.came ≡ reader.old.came + length bytes.now }
{
    reader.head = reader.head.with(bytes);
    reader.came += bytes.len() as u32;
    if is_stopped(&reader.cursor, reader.came) {
        return pass(reader, list, events, given);
    }
    Ok(given)
}

/// Reads on in the next bytes, and gives the events of them.
pub fn read(
    reader: &mut Reader,
    list: &mut OffsetList,
    piece: &[u8],
    events: &mut Events,
) -> Result<(), NoMemory>
    requires within { reader.old.from ≤ length list.old }
    requires some { HoldsOfSome (IsNext reader.old.cursor (drop reader.old.from list.old)
        reader.old.head reader.old.came piece.now) }
    ensures ok { OnOk result ((whole : List ℕ) → IsNext reader.old.cursor
        (drop reader.old.from list.old) reader.old.head reader.old.came piece.now whole
        → HasRead reader.new.cursor (drop reader.new.from list.new) reader.new.head reader.old.came
        reader.new.came (length piece.now) events.old.items events.new.items whole) }
    ensures front { take (length list.old) list.new ≡ list.old }
{
    let mut given = reader.came;
    let mut rest = piece;
    while reader.came < reader.cursor.stop && !rest.is_empty() {
        let taken = ((reader.cursor.stop - reader.came) as usize).min(rest.len());
        given = advance(reader, list, events, &rest[..taken], given)?;
        rest = &rest[taken..];
    }
    give(events, &reader.cursor, given, reader.came)?;
    Ok(())
}
