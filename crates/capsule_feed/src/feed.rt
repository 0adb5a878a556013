//! A feed of a delivery that comes in pieces.

ghost use Rattle.std.specs.Prelude.{◌≡◌, ◌⊎◌, ◌+◌, ◌++◌, ◌≤◌, List, ℕ, [], drop, take, length};
ghost use Rattle.std.specs.Prelude.{None};
ghost use Rattle.std.specs.Prelude.{OnOk, OnErr};
ghost use Rattle.cu_base.specs.Bytes.{IsBytes};
ghost use Rattle.capsule_feed.specs.Cursors.{Goes, HasRead, HoldsOfSome, IsNext};
ghost use Rattle.capsule_feed.specs.Feeds.{HasTold, IfMemory, IfRefused, IfTold, IsAnswered};
ghost use Rattle.capsule_feed.specs.Feeds.{IsAnswerOf};
ghost use Rattle.capsule_feed.specs.Feeds.{IsShort, IsWholeOf, StandsFor, kept_by, kept_in};
ghost use Rattle.capsule_feed.specs.Structures.{within};
ghost use Rattle.capsule_feed.specs.Told.{spans_of, told_of};

use crate::capsules::begin_capsule;
use crate::cursor::{Cursor, Fate};
use crate::giving::give_all;
use crate::head::Head;
use crate::offset_list::OffsetList;
use crate::reading::{Reader, read};
use crate::{Events, SpanKind};
use capsule_grammar::{DecodeFault, Refusal, Why};
use cu_base::NoMemory;
use std::alloc::Global;
use std::marker::Model;

/// A reader of a delivery of which it keeps only what later tests look at.
#[derive(Drop)]
pub struct Feed {
    alloc: Global,
    total: u32,
    came: u32,
    cursor: Cursor,
    head: Head,
    offsets: OffsetList,
}

impl Model for Feed {
    ghost use Rattle.capsule_feed.specs.Feeds.{FeedValue, StandsForSome};

    ghost Value = { FeedValue };

    ghost view = { λ f. record {
      total = f.total;
      came = f.came;
      cursor = f.cursor;
      head = f.head;
      offsets = f.offsets;
    } };

    ghost invariant = { λ f. StandsForSome (record {
      total = f.total;
      came = f.came;
      cursor = f.cursor;
      head = f.head;
      offsets = f.offsets;
    }) };
}

impl Feed {
    /// A reader of a delivery of `total` bytes. It takes no memory.
    pub fn new(alloc: Global, total: u32) -> Feed
        ensures total { result.total ≡ total }
        ensures came { result.came ≡ 0 }
        ensures stands { StandsFor result [] }
        ensures bound { IsShort result }
    {
        Feed {
            alloc,
            total,
            came: 0,
            cursor: first_cursor(total),
            head: Head::new(),
            offsets: OffsetList::new(alloc),
        }
    }

    /// Takes the next bytes, and gives the spans of them up to the place where the refusal of the
    /// delivery is told. From that place on the refusal is answered. After Memory the feed and the
    /// events are unchanged.
    pub fn feed(&mut self, piece: &[u8], events: &mut Events) -> Result<(), DecodeFault>
        requires fits { self.old.came + length piece.now ≤ self.old.total }
        ensures stands { IfTold result ((stream : List ℕ) → StandsFor self.old stream →
            StandsFor self.new (stream ++ piece.now)) }
        ensures told { IfTold result ((stream whole : List ℕ) → StandsFor self.old stream →
            IsWholeOf self.old.total (stream ++ piece.now) whole →
            IsAnswered result (length stream + length piece.now) whole) }
        ensures events { IfTold result ((stream whole : List ℕ) → StandsFor self.old stream →
            IsWholeOf self.old.total (stream ++ piece.now) whole →
            events.new.items ≡ events.old.items
            ++ within (length stream) (length stream + length piece.now) (spans_of whole)) }
        ensures total { self.new.total ≡ self.old.total }
        ensures came { IfTold result (self.new.came ≡ self.old.came + length piece.now) }
        ensures ended { IfRefused result
            (HasTold self.new.cursor.fate self.new.cursor.stop self.new.came) }
        ensures bound { IsShort self.new }
        ensures err { IfMemory result ((self.new ≡ self.old)
            × (events.new.items ≡ events.old.items)) }
    {
        if self.take(piece, events).is_err() {
            return Err(DecodeFault::Memory);
        }
        told(&self.cursor, self.came)
    }

    /// The answer of the delivery, of which all bytes came or a refusal was answered.
    pub fn end(&self) -> Result<(), DecodeFault>
        requires whole { (self.now.came ≡ self.now.total)
            ⊎ HasTold self.now.cursor.fate self.now.cursor.stop self.now.came }
        ensures ok { OnOk result ((stream whole : List ℕ) → StandsFor self.now stream →
            IsWholeOf self.now.total stream whole →
            (length stream ≡ self.now.total) × (told_of whole ≡ None)) }
        ensures told { (stream whole : List ℕ) → StandsFor self.now stream →
            IsWholeOf self.now.total stream whole → IsAnswered result (length stream) whole }
    {
        told(&self.cursor, self.came)
    }

    /// Takes the next bytes, without an answer.
    fn take(&mut self, piece: &[u8], events: &mut Events) -> Result<(), NoMemory>
        requires fits { self.old.came + length piece.now ≤ self.old.total }
        ensures stands { OnOk result ((stream : List ℕ) → StandsFor self.old stream →
            StandsFor self.new (stream ++ piece.now)) }
        ensures events { OnOk result ((stream whole : List ℕ) → StandsFor self.old stream →
            IsWholeOf self.old.total (stream ++ piece.now) whole →
            events.new.items ≡ events.old.items
            ++ within (length stream) (length stream + length piece.now) (spans_of whole)) }
        ensures total { self.new.total ≡ self.old.total }
        ensures came { OnOk result (self.new.came ≡ self.old.came + length piece.now) }
        ensures bound { IsShort self.new }
        ensures err { OnErr result ((self.new ≡ self.old)
            × (events.new.items ≡ events.old.items)) }
    {
        let kept = self.offsets.len();
        let mut reader = Reader {
            cursor: self.cursor,
            head: self.head.copied(),
            came: self.came.min(self.cursor.stop),
            from: 0,
        };
        if read_all(self.alloc, &mut reader, &mut self.offsets, piece, events).is_err() {
            self.offsets.truncate(kept);
            return Err(NoMemory);
        }
        self.offsets.forget(reader.from);
        self.offsets.truncate(kept_offsets(&reader.cursor));
        self.came += piece.len() as u32;
        self.cursor = reader.cursor;
        self.head = reader.head;
        Ok(())
    }
}

/// Reads on in the next bytes, and gives the events of them, or none of them.
fn read_all(
    alloc: Global,
    reader: &mut Reader,
    list: &mut OffsetList,
    piece: &[u8],
    events: &mut Events,
) -> Result<(), NoMemory>
    requires within { reader.old.from ≤ length list.old }
    requires some { HoldsOfSome (IsNext reader.old.cursor (drop reader.old.from list.old)
        reader.old.head reader.old.came piece.now) }
    ensures ok { OnOk result ((whole : List ℕ) → IsNext reader.old.cursor
        (drop reader.old.from list.old) reader.old.head reader.old.came piece.now whole
        → HasRead reader.new.cursor (drop reader.new.from list.new) reader.new.head reader.old.came
        reader.new.came (length piece.now) events.old.items events.new.items whole) }
    ensures front { take (length list.old) list.new ≡ list.old }
    ensures err { OnErr result (events.new.items ≡ events.old.items) }
{
    let mut fresh = Events::new(alloc);
    read(reader, list, piece, &mut fresh)?;
    give_all(events, fresh.as_slice())
}

/// The refusal that is told, where its place was reached.
fn told(c: &Cursor, came: u32) -> Result<(), DecodeFault>
    ensures { IsAnswerOf c.now.fate c.now.stop came result }
{
    match c.fate {
        Fate::Reads => Ok(()),
        Fate::Ends => Ok(()),
        Fate::Tells(refusal) => {
            if c.stop <= came {
                return Err(DecodeFault::Refused(refusal));
            }
            Ok(())
        }
    }
}

/// How many offsets a reader keeps: those of the capsule in hand, where they are asked for.
fn kept_offsets(c: &Cursor) -> usize
    ensures value { result ≡ kept_by c.now.fate c.now.kind c.now.tested c.now.items }
    ensures bound { result ≤ c.now.items }
{
    match c.fate {
        Fate::Reads => kept_in(c.kind, c.tested, c.items) as usize,
        Fate::Tells(_) => 0,
        Fate::Ends => 0,
    }
}

/// The same in a structure of this kind.
fn kept_in(kind: SpanKind, tested: u32, items: u32) -> u32
    ensures value { result ≡ kept_in kind tested items }
    ensures bound { result ≤ items }
{
    match kind {
        SpanKind::Header => 0,
        SpanKind::Ext => 0,
        SpanKind::Other => 0,
        SpanKind::FmpHead => 0,
        SpanKind::Offsets => tested.min(items),
        SpanKind::Lead => items,
        SpanKind::Driver => items,
        SpanKind::ImageHead => items,
        SpanKind::Image => items,
        SpanKind::Vendor => items,
        SpanKind::Pad => items,
    }
}

/// Where a reader begins. A delivery of no bytes is refused at once.
fn first_cursor(total: u32) -> Cursor
    ensures { (own whole : List ℕ) → IsBytes whole → length whole ≡ total →
        Goes result own [] 0 whole }
{
    let first = begin_capsule(total, 0, 0);
    if total > 0 {
        return first;
    }
    let refusal = Refusal {
        at: 0,
        why: Why::Short,
    };
    Cursor {
        fate: Fate::Tells(refusal),
        at: 0,
        stop: 0,
        ..first
    }
}
