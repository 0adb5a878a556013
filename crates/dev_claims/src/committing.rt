//! What the calls on claims have in common: one batch of few variables, or none.

ghost use Rattle.std.specs.Prelude.{◌≡◌, ◌≤◌, ◌+◌, false, None, OnOk, OnErr, length};
ghost use Rattle.cu_base.specs.Causes.{HasCauseOf};
ghost use Rattle.dev_claims.specs.Places.{AreBefore};
ghost use Rattle.dev_claims.specs.Committing.{AnswersCommit, HasCommitted, LeavesStore};
ghost use Rattle.dev_claims.specs.Committing.{StaysUnlessStruck, are_small, is_small, moves_of_commit};
ghost use Rattle.var_log.specs.Logs.{ChangesBanks, HasBanks};
ghost use Rattle.var_store.specs.Stores.{Stands};
ghost use Rattle.var_store.specs.Writes.{MayHaveWritten};

use crate::ClaimFault;
use crate::fault::claim_fault_of;
use bench_model::Flash;
use std::alloc::Global;
use var_log::{Batch, Change, LogFault, MAX_DATA};
use var_store::{StoreFault, VarStore};

/// Commits a batch of at most 8 variables of the platform, and none where it is empty. It refuses
/// with Store of Log(Flash), Log(Full), Log(Stale) or TooBig, and with Memory.
pub(crate) fn commit<W: Flash>(
    alloc: Global,
    store: &mut VarStore,
    flash: &mut W,
    batch: &Batch,
) -> Result<(), ClaimFault>
    requires banks { HasBanks (W.state flash.old) }
    requires stands { store.old.log.stale ≡ false → Stands store.old (W.state flash.old) }
    requires few { length batch.now.items ≤ 8 }
    requires places { AreBefore 5 batch.now.items }
    ensures value { LeavesStore batch.now.items store.old store.new result }
    ensures durable { OnOk result (HasCommitted batch.now.items (W.state flash.old)
        (W.state flash.new)) }
    ensures images { store.old.log.stale ≡ false → store.old.log.pending ≡ None
        → OnErr result (MayHaveWritten batch.now.items store.new.log.pending
        (W.state flash.old) (W.state flash.new)) }
    ensures stands { store.old.log.stale ≡ false
        → OnOk result (Stands store.new (W.state flash.new)) }
    ensures refused { AnswersCommit batch.now.items store.old result }
    ensures err { StaysUnlessStruck (W.state flash.old) (W.state flash.new) result }
    ensures frame { ChangesBanks (W.state flash.old) (W.state flash.new) }
    ensures moves { OnOk result ((W.state flash.new).counts.moves
        ≡ moves_of_commit batch.now.items store.old (W.state flash.old).counts.moves) }
    ensures bound { (W.state flash.new).counts.moves ≤ (W.state flash.old).counts.moves + 10 }
    ensures looks { (W.state flash.new).counts.looks ≡ (W.state flash.old).counts.looks }
    ensures cause { HasCauseOf (ClaimFault.Store (StoreFault.Log LogFault.Flash))
        (W.state flash.old).counts.flash_faults (W.state flash.new).counts.flash_faults result }
{
    if batch.is_empty() {
        return Ok(());
    }
    if !are_small(batch.as_slice()) {
        return Err(ClaimFault::Store(StoreFault::TooBig));
    }
    let written = store.write(alloc, flash, batch);
    match written {
        Ok(()) => Ok(()),
        Err(fault) => Err(claim_fault_of(fault)),
    }
}

/// Whether no change sets more data than the limit.
pub(crate) fn are_small(changes: &[Change]) -> bool
    ensures { result ≡ are_small changes.now }
{
    changes.iter().all(|change| is_small(change))
}

/// Whether a change sets no more data than the limit.
fn is_small(change: &Change) -> bool
    ensures { result ≡ is_small change.now }
{
    match change {
        Change::Set { value, .. } => value.len() <= MAX_DATA,
        Change::Delete { .. } => true,
    }
}
