//! The call that drops the progress of files that are gone.

ghost use Rattle.std.specs.Prelude.{◌≡◌, ◌≤◌, ◌+◌, false, None, OnOk, OnErr};
ghost use Rattle.cu_base.specs.Causes.{HasCauseOf};
ghost use Rattle.dev_claims.specs.Batches.{prune_changes};
ghost use Rattle.dev_claims.specs.Committing.{AnswersCommit, HasCommitted, LeavesStore};
ghost use Rattle.dev_claims.specs.Committing.{StaysUnlessStruck, moves_of_commit};
ghost use Rattle.var_log.specs.Logs.{ChangesBanks, HasBanks};
ghost use Rattle.var_store.specs.Stores.{Stands, variables_of};
ghost use Rattle.var_store.specs.Writes.{MayHaveWritten};

use crate::ClaimFault;
use crate::committing::commit;
use crate::pruning::prune_batch;
use bench_model::Flash;
use std::alloc::Global;
use var_log::LogFault;
use var_store::{StoreFault, VarStore};

/// Drops the progress of all files but those of these serials, in one batch, and in none where all
/// stays. It refuses with Store of Log(Flash), Log(Full), Log(Stale) or TooBig, the last where what
/// stays would pass 16,384 bytes, and with Memory. After Log(Flash) the batch stands or not in each
/// later image, and not where `pending` of the store tells no number.
pub fn prune<W: Flash>(
    alloc: Global,
    store: &mut VarStore,
    flash: &mut W,
    serials: &[u64],
) -> Result<(), ClaimFault>
    requires banks { HasBanks (W.state flash.old) }
    requires stands { store.old.log.stale ≡ false → Stands store.old (W.state flash.old) }
    ensures value { LeavesStore (prune_changes (variables_of store.old) serials.now) store.old
        store.new result }
    ensures durable { OnOk result (HasCommitted (prune_changes (variables_of store.old) serials.now)
        (W.state flash.old) (W.state flash.new)) }
    ensures images { store.old.log.stale ≡ false → store.old.log.pending ≡ None
        → OnErr result (MayHaveWritten (prune_changes (variables_of store.old) serials.now)
        store.new.log.pending (W.state flash.old) (W.state flash.new)) }
    ensures stands { store.old.log.stale ≡ false
        → OnOk result (Stands store.new (W.state flash.new)) }
    ensures refused { AnswersCommit (prune_changes (variables_of store.old) serials.now) store.old
        result }
    ensures err { StaysUnlessStruck (W.state flash.old) (W.state flash.new) result }
    ensures frame { ChangesBanks (W.state flash.old) (W.state flash.new) }
    ensures moves { OnOk result ((W.state flash.new).counts.moves
        ≡ moves_of_commit (prune_changes (variables_of store.old) serials.now) store.old
        (W.state flash.old).counts.moves) }
    ensures bound { (W.state flash.new).counts.moves ≤ (W.state flash.old).counts.moves + 10 }
    ensures looks { (W.state flash.new).counts.looks ≡ (W.state flash.old).counts.looks }
    ensures cause { HasCauseOf (ClaimFault.Store (StoreFault.Log LogFault.Flash))
        (W.state flash.old).counts.flash_faults (W.state flash.new).counts.flash_faults result }
{
    let batch = prune_batch(alloc, store, serials)?;
    commit(alloc, store, flash, &batch)?;
    Ok(())
}
