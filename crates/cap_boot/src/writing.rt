//! The batches of a boot.

ghost use Rattle.std.specs.Prelude.{◌≡◌, ◌≤◌, IfErr, IfOk, OnOk, Some, is_some, length, true};
ghost use Rattle.bench_model.specs.Boards.{IsBoard};
ghost use Rattle.cap_boot.specs.Commits.{DropsAs, IsStored, LeavesBatch, LeavesDrop};
ghost use Rattle.cap_boot.specs.Commits.{fault_of_claim, fault_of_settlement};
ghost use Rattle.cap_boot.specs.Faults.{HasFlashCause};
ghost use Rattle.cap_boot.specs.Situations.{IsReady};
ghost use Rattle.cap_boot.specs.Stands.{HasRegions};
ghost use Rattle.dev_claims.specs.Batches.{prune_changes};
ghost use Rattle.dev_claims.specs.ClosedBy.{MayClose, element_told};
ghost use Rattle.dev_claims.specs.Ended.{open_line, open_settled};
ghost use Rattle.dev_claims.specs.Units.{close_changes, next_result};
ghost use Rattle.stored_vars.specs.Holds.{open_device_of};
ghost use Rattle.var_log.specs.Logs.{ChangesBanks};
ghost use Rattle.var_log.specs.Records.{body_of, record_size};
ghost use Rattle.var_log.specs.declared.limits.TheConstants.{MAX_CHANGES, MAX_RECORD};
ghost use Rattle.var_store.specs.Stores.{variables_of};

use crate::BootFault;
use crate::opening::fault_of;
use bench_model::{Board, Flash};
use cu_base::EfiTime;
use dev_claims::{ClaimFault, UnitIds, close_unit, prune, settle_open};
use fmp_slot::SlotForm;
use reference_machine::UnitLine;
use std::alloc::Global;
use var_log::Batch;
use var_store::VarStore;

/// Writes a batch into the store.
pub(crate) fn write_batch<F: Flash>(
    alloc: Global,
    flash: &mut F,
    store: &mut VarStore,
    batch: &Batch,
) -> Result<(), BootFault>
    requires ready { IsReady store.old (F.state flash.old) }
    requires count { length batch.now.items ≤ MAX_CHANGES }
    requires size { record_size 2 (length (body_of batch.now.items)) ≤ MAX_RECORD }
    ensures ready { OnOk result (IsReady store.new (F.state flash.new)) }
    ensures ok { OnOk result (IsStored batch.now.items store.old store.new) }
    ensures err { IfErr result (LeavesBatch batch.now.items store.old store.new
        (F.state flash.old) (F.state flash.new)) }
    ensures banks { ChangesBanks (F.state flash.old) (F.state flash.new) }
    ensures cause { HasFlashCause (F.state flash.old) (F.state flash.new) result }
{
    match store.write(alloc, flash, batch) {
        Ok(()) => Ok(()),
        Err(fault) => Err(fault_of(fault)),
    }
}

/// Drops the progress of all files but those of these serials, and tells whether there was any.
pub(crate) fn drop_progress<F: Flash>(
    alloc: Global,
    flash: &mut F,
    store: &mut VarStore,
    serials: &[u64],
) -> Result<bool, BootFault>
    requires ready { IsReady store.old (F.state flash.old) }
    ensures ready { OnOk result (IsReady store.new (F.state flash.new)) }
    ensures ok { IfOk result (λ done. DropsAs (prune_changes (variables_of store.old) serials.now)
        store.old store.new (F.state flash.old) (F.state flash.new) done) }
    ensures err { IfErr result (LeavesDrop (prune_changes (variables_of store.old) serials.now)
        store.old store.new (F.state flash.old) (F.state flash.new)) }
    ensures banks { ChangesBanks (F.state flash.old) (F.state flash.new) }
    ensures cause { HasFlashCause (F.state flash.old) (F.state flash.new) result }
{
    let before = store.seq();
    match prune(alloc, store, flash, serials) {
        Ok(()) => Ok(store.seq() != before),
        Err(fault) => Err(fault_of_claim(fault)),
    }
}

/// Closes a unit that starts no SetImage in the store, and tells the number of its result.
pub(crate) fn close_in_store<F: Flash>(
    alloc: Global,
    board: &Board,
    now: &EfiTime,
    flash: &mut F,
    store: &mut VarStore,
    line: &UnitLine,
    ids: &UnitIds,
) -> Result<u16, BootFault>
    requires ready { IsReady store.old (F.state flash.old) }
    requires line { MayClose line.now }
    ensures ready { OnOk result (IsReady store.new (F.state flash.new)) }
    ensures number { IfOk result (λ n. n ≡ next_result board.now (variables_of store.old)) }
    ensures ok { OnOk result (IsStored (close_changes board.now (variables_of store.old)
        (element_told line.now ids.now now.now)) store.old store.new) }
    ensures err { IfErr result (LeavesBatch (close_changes board.now (variables_of store.old)
        (element_told line.now ids.now now.now)) store.old store.new
        (F.state flash.old) (F.state flash.new)) }
    ensures banks { ChangesBanks (F.state flash.old) (F.state flash.new) }
    ensures cause { HasFlashCause (F.state flash.old) (F.state flash.new) result }
{
    match close_unit(alloc, board, now, store, flash, line, ids) {
        Ok(number) => Ok(number),
        Err(fault) => Err(fault_of_claim(fault)),
    }
}

/// Settles the open claim in the store by what its device holds, and tells the line.
pub(crate) fn settle_in_store<F: Flash, S: SlotForm>(
    alloc: Global,
    board: &Board,
    now: &EfiTime,
    form: &S,
    flash: &mut F,
    store: &mut VarStore,
) -> Result<UnitLine, BootFault>
    requires ready { IsReady store.old (F.state flash.old) }
    requires regions { HasRegions S.size_of board.now (F.state flash.old) }
    requires rule { IsBoard board.now }
    requires open { is_some (open_device_of board.now (variables_of store.old)) ≡ true }
    ensures ready { OnOk result (IsReady store.new (F.state flash.new)) }
    ensures line { (F.state flash.old).contents.told ≡ true → IfOk result (λ line.
        open_line S.slot_of board.now store.old (F.state flash.old) ≡ Some line) }
    ensures ok { (F.state flash.old).contents.told ≡ true → OnOk result (IsStored
        (open_settled S.slot_of board.now now.now store.old (F.state flash.old))
        store.old store.new) }
    ensures err { (F.state flash.old).contents.told ≡ true → IfErr result (LeavesBatch
        (open_settled S.slot_of board.now now.now store.old (F.state flash.old))
        store.old store.new (F.state flash.old) (F.state flash.new)) }
    ensures banks { ChangesBanks (F.state flash.old) (F.state flash.new) }
    ensures cause { HasFlashCause (F.state flash.old) (F.state flash.new) result }
{
    match settle_open(alloc, board, now, form, store, flash) {
        Ok(Some(line)) => Ok(line),
        Ok(None) => unreachable!(),
        Err(fault) => Err(fault_of_settlement(fault)),
    }
}

/// A fault of a settlement as one of a boot.
fn fault_of_settlement(fault: ClaimFault) -> BootFault
    ensures { result ≡ fault_of_settlement fault }
{
    match fault {
        ClaimFault::Store(fault) => fault_of(fault),
        ClaimFault::Flash => BootFault::Flash,
        ClaimFault::Spent { .. } | ClaimFault::Memory => BootFault::Memory,
    }
}

/// A fault of a claim as one of a boot.
fn fault_of_claim(fault: ClaimFault) -> BootFault
    ensures { result ≡ fault_of_claim fault }
{
    match fault {
        ClaimFault::Store(fault) => fault_of(fault),
        _ => BootFault::Memory,
    }
}
