//! The call that closes a unit which starts no SetImage.

ghost use Rattle.std.specs.Prelude.{◌≡◌, ◌≤◌, ◌+◌, false, None, IfOk, OnOk, OnErr};
ghost use Rattle.cu_base.specs.Causes.{HasCauseOf};
ghost use Rattle.dev_claims.specs.ClosedBy.{MayClose, element_told};
ghost use Rattle.dev_claims.specs.Committing.{AnswersCommit, HasCommitted, LeavesStore};
ghost use Rattle.dev_claims.specs.Committing.{StaysUnlessStruck, moves_of_commit};
ghost use Rattle.dev_claims.specs.Units.{close_changes, next_result};
ghost use Rattle.var_log.specs.Logs.{ChangesBanks, HasBanks};
ghost use Rattle.var_store.specs.Stores.{Stands, variables_of};
ghost use Rattle.var_store.specs.Writes.{MayHaveWritten};

use crate::ClaimFault;
use crate::closing::{UnitIds, close_batch, next_result};
use crate::committing::commit;
use bench_model::{Board, Flash};
use cu_base::EfiTime;
use reference_machine::UnitLine;
use std::alloc::Global;
use var_log::LogFault;
use var_store::{StoreFault, VarStore};

/// Closes a unit that starts no SetImage, in one batch: the state of its device, where it was
/// tried, its result (UEFI 2.10, 8.5.6), and for a file its progress. It tells the number of the result;
/// that of the line is not looked at. It refuses with Store of Log(Flash), Log(Full), Log(Stale) or
/// TooBig, the last where the progress of files would pass 16,384 bytes, and with Memory. After
/// Log(Flash) the batch stands or not in each later image, and not where `pending` of the store
/// tells no number.
pub fn close_unit<W: Flash>(
    alloc: Global,
    board: &Board,
    now: &EfiTime,
    store: &mut VarStore,
    flash: &mut W,
    line: &UnitLine,
    ids: &UnitIds,
) -> Result<u16, ClaimFault>
    requires banks { HasBanks (W.state flash.old) }
    requires stands { store.old.log.stale ≡ false → Stands store.old (W.state flash.old) }
    requires line { MayClose line.now }
    ensures number { IfOk result (λ n. n ≡ next_result board.now (variables_of store.old)) }
    ensures value { LeavesStore (close_changes board.now (variables_of store.old)
        (element_told line.now ids.now now.now)) store.old store.new result }
    ensures durable { OnOk result (HasCommitted (close_changes board.now (variables_of store.old)
        (element_told line.now ids.now now.now)) (W.state flash.old) (W.state flash.new)) }
    ensures images { store.old.log.stale ≡ false → store.old.log.pending ≡ None
        → OnErr result (MayHaveWritten (close_changes board.now (variables_of store.old)
        (element_told line.now ids.now now.now)) store.new.log.pending
        (W.state flash.old) (W.state flash.new)) }
    ensures stands { store.old.log.stale ≡ false
        → OnOk result (Stands store.new (W.state flash.new)) }
    ensures refused { AnswersCommit (close_changes board.now (variables_of store.old)
        (element_told line.now ids.now now.now)) store.old result }
    ensures err { StaysUnlessStruck (W.state flash.old) (W.state flash.new) result }
    ensures frame { ChangesBanks (W.state flash.old) (W.state flash.new) }
    ensures moves { OnOk result ((W.state flash.new).counts.moves
        ≡ moves_of_commit (close_changes board.now (variables_of store.old)
        (element_told line.now ids.now now.now)) store.old (W.state flash.old).counts.moves) }
    ensures bound { (W.state flash.new).counts.moves ≤ (W.state flash.old).counts.moves + 10 }
    ensures looks { (W.state flash.new).counts.looks ≡ (W.state flash.old).counts.looks }
    ensures cause { HasCauseOf (ClaimFault.Store (StoreFault.Log LogFault.Flash))
        (W.state flash.old).counts.flash_faults (W.state flash.new).counts.flash_faults result }
{
    let number = next_result(board, store);
    let batch = close_batch(alloc, board, now, store, line, 0, ids)?;
    commit(alloc, store, flash, &batch)?;
    Ok(number)
}
