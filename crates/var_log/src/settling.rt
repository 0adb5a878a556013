//! What changes leave of the variables, as sets in the order of their keys.

ghost use Rattle.std.specs.Prelude.{◌≡◌, map, IfOk, Some};
ghost use Rattle.var_log.specs.Opens.{AreLeftBy};
ghost use Rattle.var_log.specs.Seen.{as_change, change_with, last_changes};

use crate::seen::{Held, Key, Seen};
use crate::{Batch, Change};
use cu_base::{Blob, Guid, NoMemory, Text};
use std::alloc::Global;
use std::collections::BTreeMap;

// The last change of each variable.
fn last_of_each<'a>(
    alloc: Global,
    changes: &[Seen<'a>],
) -> Result<BTreeMap<Key<'a>, Option<Held<'a>>>, NoMemory>
    ensures value { IfOk result (λ m. m.entries ≡ last_changes changes.now) }
{
    let mut map = BTreeMap::new(alloc);
    for seen in changes {
        if map.insert(seen.key, seen.left).is_err() {
            return Err(NoMemory);
        }
    }
    Ok(map)
}

// The set that gives a variable this.
fn set_of(alloc: Global, key: &Key<'_>, held: &Held<'_>) -> Result<Change, NoMemory>
    ensures value { IfOk result (λ c. c ≡ change_with key.now (Some held.now)) }
{
    Ok(Change::Set {
        name: Text::from_str(alloc, key.name)?,
        guid: Guid { bytes: key.guid },
        attributes: held.attributes,
        value: Blob::from_slice(alloc, held.data)?,
    })
}

/// The variables that changes leave, as sets in the order of their keys.
pub(crate) fn settle(alloc: Global, changes: &[Seen<'_>]) -> Result<Batch, NoMemory>
    ensures value { IfOk result (λ b. AreLeftBy (map as_change changes.now) b.items) }
{
    let last = last_of_each(alloc, changes)?;
    let mut live = Batch::new(alloc);
    for (key, left) in &last {
        if let Some(held) = left {
            live.push(set_of(alloc, key, held)?)?;
        }
    }
    Ok(live)
}
