ghost use Rattle.std.specs.Prelude.{◌≡◌, ◌+◌, ◌-◌, ◌^◌, ◌≤◌, ◌<◌, true, false, IfOk, OnOk, option_map};
ghost use Rattle.std.specs.Prelude.{All, IsTrue};
ghost use Rattle.bench_model.specs.Bench.{ChangesRegion};
ghost use Rattle.cu_base.specs.Causes.{HasCauseOf};
ghost use Rattle.var_log.specs.Changes.{after, keeps_limits, no_variables};
ghost use Rattle.var_log.specs.Counts.{raised, with_room};
ghost use Rattle.var_log.specs.Logs.{ChangesBanks, HasBanks, HasBatch, HasBatchOrNot};
ghost use Rattle.var_log.specs.Logs.{IsFresh, KeepsVariables, free_of};
ghost use Rattle.var_log.specs.Opens.{KeepsStores, opening_moves};
ghost use Rattle.var_store.specs.Answers.{AnswersRoom, CommitLeaves, IsOpeningAnswer, OpensAs};
ghost use Rattle.var_store.specs.Answers.{RoomLeft, StaysUnlessFlash, is_stale, told};
ghost use Rattle.var_store.specs.Places.{AreNames, HasSamePlaces, HavePlaces};
ghost use Rattle.var_store.specs.Stores.{Stands, variable_of, variables_of};

use crate::places::{Places, copy_of};
use crate::{Prepared, StoreFault, Value, VarNames};
use bench_model::Flash;
use cu_base::{Guid, NoMemory};
use std::alloc::Global;
use std::marker::Model;
use var_log::{Change, LogFault, VarLog};

/// A store that was opened. Contracts see its log, and the last change of each variable that has a
/// place in its map.
#[derive(Drop)]
pub struct VarStore {
    pub(crate) log: VarLog,
    pub(crate) places: Places,
}

impl Model for VarStore {
    ghost use Rattle.var_store.specs.Stores.{HeldStore, held};

    ghost Value = { HeldStore };

    ghost view = { λ s. held s.log s.places };
}

impl VarStore {
    /// Opens the store of a flash, as `VarLog::open` does its log.
    pub fn open<F: Flash>(alloc: Global, flash: &mut F) -> Result<VarStore, StoreFault>
        requires banks { HasBanks (F.state flash.old) }
        ensures value { (F.state flash.old).contents.told ≡ true
            → OpensAs (F.state flash.old).contents.bytes result }
        ensures images { KeepsStores (F.state flash.old) (F.state flash.new) }
        ensures stands { IfOk result (λ s. Stands s (F.state flash.new)) }
        ensures fresh { IfOk result (λ s. IsFresh s.log) }
        ensures only { IsOpeningAnswer result }
        ensures frame { ChangesBanks (F.state flash.old) (F.state flash.new) }
        ensures moves { (F.state flash.old).contents.told ≡ true
            → OnOk result ((F.state flash.new).counts.moves
            ≡ raised (F.state flash.old).counts.moves
            (opening_moves (F.state flash.old).contents.bytes)) }
        ensures bound { (F.state flash.new).counts.moves ≤ (F.state flash.old).counts.moves + 8 }
        ensures looks { (F.state flash.new).counts.looks ≤ (F.state flash.old).counts.looks + 18 }
        ensures cause { HasCauseOf (StoreFault.Log LogFault.Flash)
            (F.state flash.old).counts.flash_faults (F.state flash.new).counts.flash_faults result }
    {
        let (log, live) = match VarLog::open(alloc, flash) {
            Ok(opened) => opened,
            Err(fault) => return Err(told(fault)),
        };
        match places_of(alloc, live.as_slice()) {
            Ok(places) => Ok(VarStore { log, places }),
            Err(_) => Err(StoreFault::Memory),
        }
    }

    /// The variable of this name and GUID, None exactly where it is not there.
    pub fn get(&self, name: &str, guid: &Guid) -> Option<Value<'_>>
        ensures value { option_map variable_of result
            ≡ variables_of self.now guid.now.bytes name.now }
    {
        match self.places.last(guid, name) {
            Some(
                Change::Set {
                    attributes,
                    value,
                    ..
                },
            ) => Some(Value {
                attributes: *attributes,
                bytes: value.as_slice(),
            }),
            _ => None,
        }
    }

    /// The GUIDs and names of all variables, in the order of the GUID's bytes and then the name.
    pub fn names(&self, alloc: Global) -> Result<VarNames, NoMemory>
        ensures value { IfOk result (λ names. AreNames (variables_of self.now) names.items) }
    {
        self.places.names(alloc)
    }

    /// The number of the last batch, or 0.
    pub fn seq(&self) -> u64
        ensures value { result ≡ self.now.log.seq }
    {
        self.log.seq()
    }

    /// The bytes of records that can still be appended.
    pub fn free(&self) -> u32
        ensures value { result ≡ free_of self.now.log }
    {
        self.log.free()
    }

    /// The number of the batch in doubt: that whose commit the flash failed, and None exactly where
    /// it failed none.
    pub fn pending(&self) -> Option<u64>
        ensures value { result ≡ self.now.log.pending }
    {
        self.log.pending()
    }

    /// Makes room for records of so many bytes, where there is less by a reclaim of the variables
    /// into the other bank.
    pub fn room_for<F: Flash>(
        &mut self,
        alloc: Global,
        flash: &mut F,
        bytes: u32,
    ) -> Result<(), StoreFault>
        requires banks { HasBanks (F.state flash.old) }
        requires stands { self.old.log.stale ≡ false → Stands self.old (F.state flash.old) }
        ensures value { RoomLeft bytes self.old self.new result }
        ensures images { self.old.log.stale ≡ false
            → KeepsVariables (F.state flash.old) (F.state flash.new) }
        ensures free { OnOk result (bytes ≤ free_of self.new.log) }
        ensures next { OnOk result (self.new.log.seq < 2 ^ 64 - 1) }
        ensures stands { OnOk result (Stands self.new (F.state flash.new)) }
        ensures places { self.new.places ≡ self.old.places }
        ensures refused { AnswersRoom bytes self.old result }
        ensures err { StaysUnlessFlash (F.state flash.old) (F.state flash.new) result }
        ensures frame { ChangesBanks (F.state flash.old) (F.state flash.new) }
        ensures bank { ChangesRegion (1 - self.old.log.bank) (F.state flash.old)
            (F.state flash.new) }
        ensures moves { OnOk result ((F.state flash.new).counts.moves
            ≡ with_room (F.state flash.old).counts.moves bytes (free_of self.old.log)) }
        ensures bound { (F.state flash.new).counts.moves ≤ (F.state flash.old).counts.moves + 6 }
        ensures looks { (F.state flash.new).counts.looks ≡ (F.state flash.old).counts.looks }
        ensures cause { HasCauseOf (StoreFault.Log LogFault.Flash)
            (F.state flash.old).counts.flash_faults (F.state flash.new).counts.flash_faults result }
    {
        let live = match self.places.live(alloc) {
            Ok(live) => live,
            Err(_) => return Err(StoreFault::Memory),
        };
        match self.log.room(alloc, flash, &live, bytes) {
            Ok(()) => Ok(()),
            Err(fault) => Err(told(fault)),
        }
    }

    /// Appends a prepared batch under the next number, and makes its changes. It takes no memory.
    /// After Flash the batch stands or not in each later image, and every later call that uses the
    /// flash answers Stale.
    pub fn commit<F: Flash>(&mut self, flash: &mut F, prepared: Prepared) -> Result<(), StoreFault>
        requires banks { HasBanks (F.state flash.old) }
        requires stands { self.old.log.stale ≡ false → Stands self.old (F.state flash.old) }
        requires fits { self.old.log.stale ≡ false → prepared.size ≤ free_of self.old.log }
        requires next { self.old.log.seq < 2 ^ 64 - 1 }
        requires places { HavePlaces prepared.changes self.old.places }
        ensures value { CommitLeaves prepared self.old self.new result }
        ensures places { HasSamePlaces self.old.places self.new.places }
        ensures images { self.old.log.stale ≡ false
            → HasBatchOrNot prepared.changes (F.state flash.old) (F.state flash.new) }
        ensures durable { OnOk result
            (HasBatch prepared.changes (F.state flash.old) (F.state flash.new)) }
        ensures stands { OnOk result (Stands self.new (F.state flash.new)) }
        ensures refused { is_stale result ≡ self.old.log.stale }
        ensures err { self.old.log.stale ≡ true → F.state flash.new ≡ F.state flash.old }
        ensures frame { ChangesBanks (F.state flash.old) (F.state flash.new) }
        ensures bank { ChangesRegion self.old.log.bank (F.state flash.old) (F.state flash.new) }
        ensures moves { OnOk result ((F.state flash.new).counts.moves
            ≡ raised (F.state flash.old).counts.moves 4) }
        ensures bound { (F.state flash.new).counts.moves ≤ (F.state flash.old).counts.moves + 4 }
        ensures looks { (F.state flash.new).counts.looks ≡ (F.state flash.old).counts.looks }
        ensures cause { HasCauseOf (StoreFault.Log LogFault.Flash)
            (F.state flash.old).counts.flash_faults (F.state flash.new).counts.flash_faults result }
    {
        let Prepared {
            mut record,
            changes,
        } = prepared;
        match self.log.append(flash, &mut record) {
            Ok(()) => {
                self.places.exchange_all(changes);
                Ok(())
            }
            Err(fault) => Err(told(fault)),
        }
    }
}

// A fault of the log as one of the store.
fn told(fault: LogFault) -> StoreFault
    ensures value { result ≡ told fault }
{
    match fault {
        LogFault::Memory => StoreFault::Memory,
        _ => StoreFault::Log(fault),
    }
}

// The places of these variables.
fn places_of(alloc: Global, live: &[Change]) -> Result<Places, NoMemory>
    requires limits { All (λ c. IsTrue (keeps_limits c)) live.now }
    ensures value { IfOk result (λ p. after no_variables p ≡ after no_variables live.now) }
{
    let mut places = Places::new(alloc);
    for change in live {
        places.put(alloc, copy_of(alloc, change)?)?;
    }
    Ok(places)
}
