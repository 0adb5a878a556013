//! Where a reader of a delivery stands.

ghost use Rattle.std.specs.Prelude.{◌≡◌, ◌+◌, ◌-◌, ◌^◌, min};
ghost use Rattle.capsule_feed.specs.declared.cursor.Fate.TheVariants.{Tells};

use crate::SpanKind;
use capsule_grammar::Refusal;

/// How a reader goes on: it reads up to where it stops, or tells a refusal there, or all capsules
/// ended.
#[derive(Clone, Copy, Debug, PartialEq, Eq)]
pub enum Fate {
    Reads,
    Tells(Refusal),
    Ends,
}

/// Where a reader of `total` bytes stands: in the structure of this kind, capsule and item that
/// begins `at` a place of the delivery. It reads on to the place `stop`, where a test is due or the
/// structure ends. Of the capsule in hand it knows where it begins, both sizes and counts of its
/// headers, and how many of its offsets, and later of its items, need no test any more; and of the
/// item in hand where its parts end.
#[derive(Clone, Copy, Debug, PartialEq, Eq)]
pub struct Cursor {
    pub total: u32,
    pub fate: Fate,
    pub kind: SpanKind,
    pub capsule: u8,
    pub item: u32,
    pub at: u32,
    pub stop: u32,
    pub tested: u32,
    pub start: u32,
    pub header_size: u32,
    pub image_size: u32,
    pub is_fmp: bool,
    pub drivers: u32,
    pub items: u32,
    pub vendor_at: u32,
    pub pad_at: u32,
    pub item_end: u32,
}

impl Cursor {
    /// The size of the body of the capsule in hand.
    pub fn body_size(&self) -> u32
        ensures { result ≡ self.now.image_size - self.now.header_size }
    {
        self.image_size.saturating_sub(self.header_size)
    }

    /// The place in the delivery of a place of the capsule in hand.
    pub fn place(&self, at: u32) -> u32
        ensures { result ≡ min (self.now.start + at) (2 ^ 32 - 1) }
    {
        self.start.saturating_add(at)
    }
}

/// The same, where a refusal of the capsule in hand is told at the place `reach` of it.
pub fn tells(c: Cursor, refusal: Refusal, reach: u32) -> Cursor
    ensures { result ≡ record c {
      fate = Tells (record {
        at = min (c.start + refusal.at) (2 ^ 32 - 1);
        why = refusal.why;
      });
      stop = min (c.start + reach) (2 ^ 32 - 1);
    } }
{
    let told = Refusal {
        at: c.place(refusal.at),
        why: refusal.why,
    };
    Cursor {
        fate: Fate::Tells(told),
        stop: c.place(reach),
        ..c
    }
}
