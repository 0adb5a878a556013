//! The request to take the capsule files at the next boot.

ghost use Rattle.std.specs.Prelude.{◌≡◌, ◌+◌, ◌≤◌, [], ◌∷◌, IfOk, OnOk, OnErr, true};
ghost use Rattle.cu_base.specs.Causes.{HasCauseOf};
ghost use Rattle.update_inbox.specs.Answers.{BatchAnswers, MovesOfBatch, NotesBatch};
ghost use Rattle.update_inbox.specs.Answers.{NotesOpened, NotesOpening};
ghost use Rattle.update_inbox.specs.Batches.{HasStored, HasStoredRead, MayHaveStored};
ghost use Rattle.update_inbox.specs.Batches.{StoresRead, signal_batch};
ghost use Rattle.stored_vars.specs.Holds.{indications_of};
ghost use Rattle.var_log.specs.Logs.{ChangesBanks, HasBanks};
ghost use Rattle.var_store.specs.Stores.{variables_of};

use crate::InboxFault;
use crate::fault::inbox_fault_of;
use crate::opening::open_store;
use crate::sets::set_of;
use bench_model::Platform;
use cu_base::{NoMemory, bytes_of_u64};
use std::alloc::Global;
use stored_vars::{OS_INDICATIONS_FILE_CAPSULE_DELIVERY_SUPPORTED, StoredVar, stored_number};
use var_log::Batch;
use var_store::{Note, VarStore};

/// Asks for the capsule files: opens the store and sets bit 0x04 of OsIndications in one batch (UEFI
/// 2.10, 8.5.4 and 8.5.5). It sets the note, also when it refuses, and answers NoBank, Flash or
/// Memory alone.
pub fn signal<W: Platform>(alloc: Global, bench: &mut W, note: &mut Note) -> Result<(), InboxFault>
    requires banks { HasBanks (W.state bench.old) }
    ensures durable { OnOk result (HasStored signal_batch (W.state bench.old) (W.state bench.new)) }
    ensures images { OnErr result (MayHaveStored signal_batch note.new.pending (W.state bench.old)
        (W.state bench.new)) }
    ensures read { OnOk result (HasStoredRead signal_batch (W.state bench.old)
        (W.state bench.new)) }
    ensures kept { OnErr result (StoresRead signal_batch note.new (W.state bench.old)
        (W.state bench.new)) }
    ensures opening { NotesOpening (W.state bench.old) note.new.opened }
    ensures noted { NotesOpened result note.new.opened }
    ensures pending { NotesBatch note.new }
    ensures refused { BatchAnswers signal_batch (W.state bench.old) result }
    ensures moves { OnOk result (MovesOfBatch signal_batch (W.state bench.old)
        (W.state bench.new)) }
    ensures frame { ChangesBanks (W.state bench.old) (W.state bench.new) }
    ensures bound { (W.state bench.new).counts.moves ≤ (W.state bench.old).counts.moves + 18 }
    ensures looks { (W.state bench.new).counts.looks ≤ (W.state bench.old).counts.looks + 18 }
    ensures cause { HasCauseOf InboxFault.Flash
        (W.state bench.old).counts.flash_faults (W.state bench.new).counts.flash_faults result }
{
    let mut store = open_store(alloc, bench, note)?;
    let batch = batch_of_signal(alloc, &store)?;
    let written = store.write(alloc, bench, &batch);
    note.pending = store.pending();
    match written {
        Ok(()) => Ok(()),
        Err(fault) => Err(inbox_fault_of(fault)),
    }
}

/// What the operating system asks for, 0 where it asks for nothing.
fn indications(store: &VarStore) -> u64
    ensures { result ≡ indications_of (variables_of store.now) }
{
    let variable = StoredVar::OsIndications;
    match store.get(variable.name(), &variable.guid()) {
        Some(value) => stored_number(value.bytes).unwrap_or(0),
        None => 0,
    }
}

/// The batch that sets the bit.
fn batch_of_signal(alloc: Global, store: &VarStore) -> Result<Batch, NoMemory>
    ensures { IfOk result (λ batch. batch.items ≡ signal_batch (variables_of store.now)) }
{
    let asked = indications(store) | OS_INDICATIONS_FILE_CAPSULE_DELIVERY_SUPPORTED;
    let mut batch = Batch::new(alloc);
    batch.push(set_of(alloc, StoredVar::OsIndications, &bytes_of_u64(asked))?)?;
    Ok(batch)
}
