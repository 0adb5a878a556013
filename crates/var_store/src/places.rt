//! The map of a store. A variable that has a place is exchanged without memory; one that is deleted
//! keeps its place.

ghost use Rattle.std.specs.Prelude.{◌≡◌, ◌++◌, ◌||◌, [], ℕ, List, true, All, IsTrue};
ghost use Rattle.std.specs.Prelude.{IfOk, OnOk, OnErr, is_some, option_copied, option_and_then};
ghost use Rattle.std.specs.Prelude.{length};
ghost use Rattle.cu_base.specs.declared.guid.Guid.{Guid as GuidValue};
ghost use Rattle.var_log.specs.Changes.{after, changed, guid_of, has_key, is_of, keeps_limits};
ghost use Rattle.var_log.specs.Changes.{left_by, name_of, no_variables};
ghost use Rattle.std.specs.BTreeMap.{IsOrdered};
ghost use Rattle.std.specs.Map.{lookup, set_value};
ghost use Rattle.var_store.specs.Places.{AreLive, AreNames, HasSamePlaces, HavePlaces, KeepsPlaces};
ghost use Rattle.var_store.specs.Keys.{asks, key_order};

use crate::key::{GUID_BYTES, key_of};
use crate::names::{VarName, VarNames};
use cu_base::{Blob, Guid, NoMemory, Text};
use std::alloc::Global;
use std::collections::BTreeMap;
use std::marker::Model;
use var_log::{Batch, Change, MAX_NAME};

/// The last change of each variable that has a place, in the order of the bytes of GUID and name.
#[derive(Drop)]
pub(crate) struct Places {
    map: BTreeMap<Vec<u8>, Change>,
}

impl Model for Places {
    ghost use Rattle.std.specs.Prelude.{List};
    ghost use Rattle.std.specs.Map.{values_of};
    ghost use Rattle.var_log.specs.declared.change.Change.{Change};
    ghost use Rattle.var_store.specs.Places.{AreKept};
    ghost use Rattle.var_store.specs.Keys.{bytes_of_key};

    ghost Value = { List Change };

    ghost view = { λ p. values_of p.map.entries };

    ghost invariant = { λ p. AreKept bytes_of_key p.map.entries };
}

impl Places {
    /// No places. It takes no memory.
    pub(crate) fn new(alloc: Global) -> Places
        ensures { result ≡ [] }
    {
        Places {
            map: BTreeMap::new(alloc),
        }
    }

    /// The last change of a variable, None exactly where it has no place.
    pub(crate) fn last(&self, guid: &Guid, name: &str) -> Option<&Change>
        ensures value { option_and_then left_by (option_copied result)
            ≡ after no_variables self.now guid.now.bytes name.now }
        ensures place { is_some result ≡ has_key guid.now name.now self.now }
    {
        let map = &self.map;
        let name = name.as_bytes();
        if name.len() > MAX_NAME {
            return None;
        }
        let key = key_of(guid, name);
        map.get(&key[..GUID_BYTES + name.len()])
    }

    /// Makes a change, of a variable that may have no place before.
    pub(crate) fn put(&mut self, alloc: Global, change: Change) -> Result<(), NoMemory>
        requires limits { keeps_limits change ≡ true }
        ensures ok { OnOk result (after no_variables self.new
            ≡ changed (after no_variables self.old) change) }
        ensures places { OnOk result ((guid : GuidValue) (name : List ℕ)
            → has_key guid name self.new ≡ (is_of guid.bytes name change
            || has_key guid name self.old)) }
        ensures err { OnErr result (self.new ≡ self.old) }
    {
        let key = owned_key(alloc, &change)?;
        match self.map.insert(key, change) {
            Ok(_) => Ok(()),
            Err(_) => Err(NoMemory),
        }
    }

    /// Makes a change of a variable that has a place. It takes no memory.
    pub(crate) fn exchange(&mut self, change: Change)
        requires limits { keeps_limits change ≡ true }
        requires place { has_key (guid_of change) (name_of change) self.old ≡ true }
        ensures value { after no_variables self.new ≡ changed (after no_variables self.old) change }
        ensures places { HasSamePlaces self.old self.new }
    {
        let name = change.name().as_str().as_bytes();
        let key = key_of(change.guid(), name);
        let len = GUID_BYTES + name.len();
        set_last(&mut self.map, &key[..len], change);
    }

    /// Gives the variable of a change a place, where it has none.
    fn make_place(&mut self, alloc: Global, change: &Change) -> Result<(), NoMemory>
        requires limits { keeps_limits change.now ≡ true }
        ensures ok { OnOk result (IsTrue (has_key (guid_of change.now) (name_of change.now)
            self.new)) }
        ensures kept { KeepsPlaces self.old self.new }
        ensures variables { after no_variables self.new ≡ after no_variables self.old }
    {
        if self.last(change.guid(), change.name().as_str()).is_some() {
            return Ok(());
        }
        let gone = Change::Delete {
            name: Text::from_str(alloc, change.name().as_str())?,
            guid: *change.guid(),
        };
        self.put(alloc, gone)?;
        Ok(())
    }

    /// Gives the variable of each change a place. After want of memory some may have one.
    pub(crate) fn make_places(&mut self, alloc: Global, changes: &[Change]) -> Result<(), NoMemory>
        requires limits { All (λ c. IsTrue (keeps_limits c)) changes.now }
        ensures ok { OnOk result (HavePlaces changes.now self.new) }
        ensures kept { KeepsPlaces self.old self.new }
        ensures variables { after no_variables self.new ≡ after no_variables self.old }
    {
        for change in changes {
            self.make_place(alloc, change)?;
        }
        Ok(())
    }

    /// Makes changes of variables that have places, in order. It takes no memory.
    pub(crate) fn exchange_all(&mut self, changes: Vec<Change>)
        requires limits { All (λ c. IsTrue (keeps_limits c)) changes.items }
        requires places { HavePlaces changes.items self.old }
        ensures value { after no_variables self.new ≡ after (after no_variables self.old)
            changes.items }
        ensures places { HasSamePlaces self.old self.new }
    {
        for change in changes {
            self.exchange(change);
        }
    }

    /// The variables that are there, each as one set.
    pub(crate) fn live(&self, alloc: Global) -> Result<Batch, NoMemory>
        ensures value { IfOk result (λ b. AreLive self.now b.items) }
    {
        let mut live = Batch::new(alloc);
        for (_, change) in &self.map {
            if let Change::Set { .. } = change {
                live.push(copy_of(alloc, change)?)?;
            }
        }
        Ok(live)
    }

    /// The GUIDs and names of the variables that are there.
    pub(crate) fn names(&self, alloc: Global) -> Result<VarNames, NoMemory>
        ensures value { IfOk result (λ names. AreNames (after no_variables self.now) names.items) }
    {
        let mut names = VarNames::new(alloc);
        for (_, change) in &self.map {
            if let Change::Set { name, guid, .. } = change {
                names.push(VarName {
                    guid: *guid,
                    name: Text::from_str(alloc, name.as_str())?,
                })?;
            }
        }
        Ok(names)
    }
}

// Sets the last change of a key that is there. It takes no memory.
fn set_last(map: &mut BTreeMap<Vec<u8>, Change>, key: &[u8], change: Change)
    requires there { is_some (lookup (asks key.now) map.old.entries) ≡ true }
    ensures entries { map.new.entries ≡ set_value (asks key.now) map.old.entries change }
    ensures ordered { IsOrdered key_order map.new }
{
    if let Some(last) = map.get_mut(key) {
        *last = change;
    }
}

// The key of a change's variable.
fn owned_key(alloc: Global, change: &Change) -> Result<Vec<u8>, NoMemory>
    requires limits { keeps_limits change.now ≡ true }
    ensures value { IfOk result (λ k. k.items ≡ (guid_of change.now).bytes ++ name_of change.now) }
    ensures sized { OnOk result (length (guid_of change.now).bytes ≡ 16) }
{
    let name = change.name().as_str().as_bytes();
    let key = key_of(change.guid(), name);
    match Vec::from_slice(alloc, &key[..GUID_BYTES + name.len()]) {
        Ok(key) => Ok(key),
        Err(_) => Err(NoMemory),
    }
}

/// The same change.
pub(crate) fn copy_of(alloc: Global, change: &Change) -> Result<Change, NoMemory>
    ensures value { IfOk result (λ c. c ≡ change.now) }
{
    match change {
        Change::Set {
            name,
            guid,
            attributes,
            value,
        } => Ok(Change::Set {
            name: Text::from_str(alloc, name.as_str())?,
            guid: *guid,
            attributes: *attributes,
            value: Blob::from_slice(alloc, value.as_slice())?,
        }),
        Change::Delete { name, guid } => Ok(Change::Delete {
            name: Text::from_str(alloc, name.as_str())?,
            guid: *guid,
        }),
    }
}
