//! The call that settles an open claim by what its device holds.

ghost use Rattle.std.specs.Prelude.{◌≡◌, ◌<◌, ◌≤◌, ◌+◌, ℕ, true, false, None, Some, IfOk, OnOk, OnErr};
ghost use Rattle.std.specs.Prelude.{List, is_some, length};
ghost use Rattle.cu_base.specs.Causes.{HasCauseOf};
ghost use Rattle.dev_claims.specs.Committing.{AnswersCommit, HasCommitted, LeavesStore};
ghost use Rattle.dev_claims.specs.Committing.{StaysUnlessStruck, moves_of_commit};
ghost use Rattle.dev_claims.specs.Ended.{IsAttemptEnd, claim_settled, line_ended, open_line};
ghost use Rattle.dev_claims.specs.Ended.{open_settled};
ghost use Rattle.dev_claims.specs.Settling.{AnswersSettled, HaveSlots, LeavesSettled};
ghost use Rattle.dev_claims.specs.Settling.{StaysUnlessWritten};
ghost use Rattle.bench_model.specs.Regions.{IsImage};
ghost use Rattle.fmp_slot.specs.Held.{IsToldStable, region_in};
ghost use Rattle.reference_machine.specs.declared.unit.Kind.TheVariants.{Heal, Try};
ghost use Rattle.stored_vars.specs.Holds.{open_device_of};
ghost use Rattle.stored_vars.specs.Records.{is_key_name};
ghost use Rattle.var_log.specs.Logs.{ChangesBanks, HasBanks, IsFresh};
ghost use Rattle.var_store.specs.Stores.{Stands, variables_of};
ghost use Rattle.var_store.specs.Writes.{MayHaveWritten};

use crate::ClaimFault;
use crate::claimed::{ids_on, open_claim_of};
use crate::closing::{close_batch, next_result};
use crate::committing::commit;
use crate::ending::{end_shown, status_of};
use bench_model::{Board, Flash};
use cu_base::EfiTime;
use fmp_slot::SlotForm;
use reference_machine::{End, Kind, UnitLine};
use std::alloc::Global;
use stored_vars::Claim;
use var_log::LogFault;
use var_store::{StoreFault, VarStore};

/// Settles the open claim, in one batch, by what the slot of its device holds: the claim ended
/// Sealed where it is sealed with the claim's ticket, Kept where it is sealed with another, and
/// Lost where it is unsealed. None exactly where no claim is open. It refuses with Store of
/// Log(Flash), Log(Full), Log(Stale) or TooBig, the last where the progress of files would pass
/// 16,384 bytes, with Flash where the slot could not be read, and with Memory. After Log(Flash) the
/// batch stands or not in each later image, and not where `pending` of the store tells no number.
pub fn settle_open<W: Flash, S: SlotForm>(
    alloc: Global,
    board: &Board,
    now: &EfiTime,
    form: &S,
    store: &mut VarStore,
    flash: &mut W,
) -> Result<Option<UnitLine>, ClaimFault>
    requires banks { HasBanks (W.state flash.old) }
    requires stands { store.old.log.stale ≡ false → Stands store.old (W.state flash.old) }
    requires slots { HaveSlots S.size_of board.now (W.state flash.old) }
    requires stable { (d : ℕ) → open_device_of board.now (variables_of store.old) ≡ Some d
        → IsToldStable d (W.state flash.old) }
    ensures none { IfOk result (λ line. is_some line
        ≡ is_some (open_device_of board.now (variables_of store.old))) }
    ensures line { (W.state flash.old).contents.told ≡ true → IfOk result (λ line. line
        ≡ open_line S.slot_of board.now store.old (W.state flash.old)) }
    ensures value { (W.state flash.old).contents.told ≡ true
        → LeavesSettled (open_settled S.slot_of board.now now.now store.old (W.state flash.old))
        store.old store.new result }
    ensures durable { (W.state flash.old).contents.told ≡ true → OnOk result (HasCommitted
        (open_settled S.slot_of board.now now.now store.old (W.state flash.old))
        (W.state flash.old) (W.state flash.new)) }
    ensures images { (W.state flash.old).contents.told ≡ true → store.old.log.stale ≡ false
        → store.old.log.pending ≡ None → OnErr result (MayHaveWritten
        (open_settled S.slot_of board.now now.now store.old (W.state flash.old))
        store.new.log.pending (W.state flash.old) (W.state flash.new)) }
    ensures slot { (d : ℕ) → open_device_of board.now (variables_of store.old) ≡ Some d
        → (image : List ℕ) → IsImage (region_in d (W.state flash.new)) image
        → S.slot_of image ≡ S.slot_of (region_in d (W.state flash.old)).bytes }
    ensures fresh { IsFresh store.old.log → OnOk result (IsFresh store.new.log) }
    ensures stands { store.old.log.stale ≡ false
        → OnOk result (Stands store.new (W.state flash.new)) }
    ensures refused { (W.state flash.old).contents.told ≡ true → AnswersSettled
        (open_settled S.slot_of board.now now.now store.old (W.state flash.old)) store.old result }
    ensures err { StaysUnlessWritten (W.state flash.old) (W.state flash.new) result }
    ensures frame { ChangesBanks (W.state flash.old) (W.state flash.new) }
    ensures moves { (W.state flash.old).contents.told ≡ true
        → OnOk result ((W.state flash.new).counts.moves ≡ moves_of_commit
        (open_settled S.slot_of board.now now.now store.old (W.state flash.old)) store.old
        (W.state flash.old).counts.moves) }
    ensures bound { (W.state flash.new).counts.moves ≤ (W.state flash.old).counts.moves + 10 }
    ensures looks { (W.state flash.new).counts.looks ≤ (W.state flash.old).counts.looks + 2 }
    ensures cause { HasCauseOf (ClaimFault.Store (StoreFault.Log LogFault.Flash))
        (W.state flash.old).counts.flash_faults (W.state flash.new).counts.flash_faults result }
    ensures looked { HasCauseOf ClaimFault.Flash (W.state flash.old).counts.flash_faults
        (W.state flash.new).counts.flash_faults result }
{
    let claim = match open_claim_of(alloc, board, store)? {
        Some(claim) => claim,
        None => return Ok(None),
    };
    let slot = match form.look(flash, claim.key.device) {
        Ok(slot) => slot,
        Err(_) => return Err(ClaimFault::Flash),
    };
    let end = end_shown(&claim.key.ticket, &slot);
    let line = settle_claim(alloc, board, now, store, flash, claim, end)?;
    Ok(Some(line))
}

/// Settles a claim by an end, in one batch.
fn settle_claim<W: Flash>(
    alloc: Global,
    board: &Board,
    now: &EfiTime,
    store: &mut VarStore,
    flash: &mut W,
    claim: Claim,
    end: End,
) -> Result<UnitLine, ClaimFault>
    requires banks { HasBanks (W.state flash.old) }
    requires stands { store.old.log.stale ≡ false → Stands store.old (W.state flash.old) }
    requires device { claim.key.device < length board.now.devices }
    requires name { is_key_name claim.key.name ≡ true }
    requires end { IsAttemptEnd end }
    ensures line { IfOk result
        (λ line. line ≡ line_ended board.now (variables_of store.old) Heal claim end) }
    ensures value { LeavesStore (claim_settled board.now (variables_of store.old) now.now claim end)
        store.old store.new result }
    ensures durable { OnOk result (HasCommitted
        (claim_settled board.now (variables_of store.old) now.now claim end)
        (W.state flash.old) (W.state flash.new)) }
    ensures images { store.old.log.stale ≡ false → store.old.log.pending ≡ None
        → OnErr result (MayHaveWritten
        (claim_settled board.now (variables_of store.old) now.now claim end)
        store.new.log.pending (W.state flash.old) (W.state flash.new)) }
    ensures stands { store.old.log.stale ≡ false
        → OnOk result (Stands store.new (W.state flash.new)) }
    ensures refused { AnswersCommit
        (claim_settled board.now (variables_of store.old) now.now claim end) store.old result }
    ensures err { StaysUnlessStruck (W.state flash.old) (W.state flash.new) result }
    ensures frame { ChangesBanks (W.state flash.old) (W.state flash.new) }
    ensures moves { OnOk result ((W.state flash.new).counts.moves ≡ moves_of_commit
        (claim_settled board.now (variables_of store.old) now.now claim end) store.old
        (W.state flash.old).counts.moves) }
    ensures bound { (W.state flash.new).counts.moves ≤ (W.state flash.old).counts.moves + 10 }
    ensures looks { (W.state flash.new).counts.looks ≡ (W.state flash.old).counts.looks }
    ensures cause { HasCauseOf (ClaimFault.Store (StoreFault.Log LogFault.Flash))
        (W.state flash.old).counts.flash_faults (W.state flash.new).counts.flash_faults result }
{
    let ids = ids_on(board, claim.key.device);
    let floor = claim.floor;
    let mut line = line_ended(board, store, claim, end);
    let batch = close_batch(alloc, board, now, store, &line, floor, &ids)?;
    commit(alloc, store, flash, &batch)?;
    line.kind = Kind::Heal;
    Ok(line)
}

/// The line of a claim that ended.
pub(crate) fn line_ended(board: &Board, store: &VarStore, claim: Claim, end: End) -> UnitLine
    requires { IsAttemptEnd end }
    ensures { result ≡ line_ended board.now (variables_of store.now) Try claim end }
{
    UnitLine {
        kind: Kind::Try,
        key: claim.key,
        version: claim.version,
        end: Some(end),
        status: status_of(end),
        result: next_result(board, store),
    }
}
