//! Deliveries by memory.

ghost use Rattle.std.specs.Prelude.{◌≡◌, ◌+◌, ◌≤◌, ◌<◌, IfOk, OnOk, OnErr, IfSome, true};
ghost use Rattle.cu_base.specs.Causes.{HasCauseOf};
ghost use Rattle.stored_vars.specs.Holds.{last_staged_of};
ghost use Rattle.update_inbox.specs.Answers.{NotesBatch, NotesOpened, NotesOpening};
ghost use Rattle.update_inbox.specs.Batches.{HasStored, HasStoredRead, MayHaveStored};
ghost use Rattle.update_inbox.specs.Batches.{StoresRead};
ghost use Rattle.update_inbox.specs.Staging.{StagingAnswers, batch_of, free_stage, next_delivery};
ghost use Rattle.update_inbox.specs.Staging.{IsTaken, StagingMoves, stage_batch};
ghost use Rattle.var_log.specs.Logs.{ChangesBanks, HasBanks};
ghost use Rattle.var_store.specs.Stores.{variables_of};

use crate::InboxFault;
use crate::checks::check_list;
use crate::fault::inbox_fault_of;
use crate::opening::open_store;
use crate::sets::set_of;
use crate::waiting::staged_at;
use bench_model::Platform;
use cu_base::{NoMemory, bytes_of_u64};
use reference_machine::StagedPair;
use std::alloc::Global;
use stored_vars::{StoredVar, pair_bytes, stored_number};
use var_log::Batch;
use var_store::{Note, VarStore};

/// A delivery that is staged: the number of its variable, its serial and its address.
#[derive(Clone, Copy)]
pub struct Delivery {
    pub number: u8,
    pub pair: StagedPair,
}

/// Stages the capsule behind the scatter list at an address, in one batch, and answers its serial
/// (UpdateCapsule, UEFI 2.10, 8.5.3).
pub fn update_capsule<W: Platform>(
    alloc: Global,
    bench: &mut W,
    address: u64,
    note: &mut Note,
) -> Result<u64, InboxFault>
    requires banks { HasBanks (W.state bench.old) }
    ensures refused { StagingAnswers address (W.state bench.old) result }
    ensures durable { OnOk result (HasStored (stage_batch address) (W.state bench.old)
        (W.state bench.new)) }
    ensures images { OnErr result (MayHaveStored (stage_batch address) note.new.pending
        (W.state bench.old) (W.state bench.new)) }
    ensures read { OnOk result (HasStoredRead (stage_batch address) (W.state bench.old)
        (W.state bench.new)) }
    ensures kept { OnErr result (StoresRead (stage_batch address) note.new (W.state bench.old)
        (W.state bench.new)) }
    ensures taken { IsTaken address (W.state bench.old) note.new.pending }
    ensures opening { NotesOpening (W.state bench.old) note.new.opened }
    ensures noted { NotesOpened result note.new.opened }
    ensures pending { NotesBatch note.new }
    ensures frame { ChangesBanks (W.state bench.old) (W.state bench.new) }
    ensures moves { StagingMoves address (W.state bench.old) (W.state bench.new) result }
    ensures bound { (W.state bench.new).counts.moves ≤ (W.state bench.old).counts.moves + 18 }
    ensures looks { (W.state bench.new).counts.looks ≤ (W.state bench.old).counts.looks + 18 }
    ensures cause { HasCauseOf InboxFault.Flash
        (W.state bench.old).counts.flash_faults (W.state bench.new).counts.flash_faults result }
{
    let mut store = open_store(alloc, bench, note)?;
    check_list(alloc, bench, address)?;
    let Some(delivery) = next_delivery(&store, address) else {
        return Err(InboxFault::Resources);
    };
    let batch = batch_of_delivery(alloc, &delivery)?;
    let written = store.write(alloc, bench, &batch);
    note.pending = store.pending();
    match written {
        Ok(()) => Ok(delivery.pair.serial),
        Err(fault) => Err(inbox_fault_of(fault)),
    }
}

/// The next delivery, None where eight wait or no serial is left.
fn next_delivery(store: &VarStore, address: u64) -> Option<Delivery>
    ensures value { result ≡ next_delivery address (variables_of store.now) }
    ensures bound { IfSome result (λ d. d.number < 8) }
{
    let last = last_serial(store);
    let serial = last.checked_add(1)?;
    let number = free_number(store)?;
    Some(Delivery {
        number,
        pair: StagedPair { serial, address },
    })
}

/// The last serial that was drawn.
fn last_serial(store: &VarStore) -> u64
    ensures { result ≡ last_staged_of (variables_of store.now) }
{
    let variable = StoredVar::Serial;
    match store.get(variable.name(), &variable.guid()) {
        Some(value) => stored_number(value.bytes).unwrap_or(0),
        None => 0,
    }
}

/// The number of the first variable that keeps no delivery.
fn free_number(store: &VarStore) -> Option<u8>
    ensures value { result ≡ free_stage (variables_of store.now) }
    ensures bound { IfSome result (λ k. k < 8) }
{
    for number in 0..8 {
        if staged_at(store, number).is_none() {
            return Some(number);
        }
    }
    None
}

/// The batch that stages a delivery.
fn batch_of_delivery(alloc: Global, delivery: &Delivery) -> Result<Batch, NoMemory>
    requires { delivery.now.number < 8 }
    ensures { IfOk result (λ batch. batch.items ≡ batch_of delivery.now) }
{
    let stage = StoredVar::Stage(delivery.number);
    let mut batch = Batch::new(alloc);
    batch.push(set_of(alloc, stage, &pair_bytes(&delivery.pair))?)?;
    batch.push(set_of(
        alloc,
        StoredVar::Serial,
        &bytes_of_u64(delivery.pair.serial),
    )?)?;
    Ok(batch)
}
