//! Events are given.

ghost use Rattle.std.specs.Prelude.{◌≡◌, ◌+◌, ◌≤◌, ◌++◌, ℕ, OnOk, OnErr};
ghost use Rattle.capsule_feed.specs.Cursors.{span_of};
ghost use Rattle.capsule_feed.specs.Structures.{cut_to};

use crate::cursor::Cursor;
use crate::{Events, Span};
use cu_base::NoMemory;

/// Gives what of the structure in hand lies between two places, where a byte does.
pub fn give(events: &mut Events, c: &Cursor, from: u32, to: u32) -> Result<(), NoMemory>
    ensures ok { OnOk result ((size : ℕ) → to ≤ c.now.at + size → events.new.items ≡ events.old.items
        ++ cut_to from to (span_of c.now.kind c.now.capsule c.now.item c.now.at size)) }
{
    let at = c.at.max(from);
    if at >= to {
        return Ok(());
    }
    let span = Span {
        kind: c.kind,
        capsule: c.capsule,
        item: c.item,
        at,
        length: to - at,
    };
    events.push(span)?;
    Ok(())
}

/// Appends events, or none of them.
pub fn give_all(events: &mut Events, more: &[Span]) -> Result<(), NoMemory>
    ensures ok { OnOk result (events.new.items ≡ events.old.items ++ more.now) }
    ensures err { OnErr result (events.new.items ≡ events.old.items) }
{
    events.reserve(more.len())?;
    for span in more {
        events.push(*span)?;
    }
    Ok(())
}
