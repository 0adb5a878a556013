//! An attempt on a device: its claim is committed, and later its settlement, without memory.

ghost use Rattle.std.specs.Prelude.{◌≡◌, ◌≤◌, ◌+◌, ◌<◌, ◌-◌, ◌^◌, true, false, None, Some, IfOk, OnOk};
ghost use Rattle.cu_base.specs.Causes.{HasCauseOf};
ghost use Rattle.dev_claims.specs.Attempts.{AnswersAttempt, AttemptLeaves, HasEnded, MayClaim};
ghost use Rattle.dev_claims.specs.Attempts.{MaySettle, attempt_line, claiming_of, settling_of};
ghost use Rattle.dev_claims.specs.Committing.{StaysUnlessStruck};
ghost use Rattle.dev_claims.specs.Ended.{IsAttemptEnd};
ghost use Rattle.fmp_slot.specs.Held.{region_in};
ghost use Rattle.var_log.specs.Counts.{raised};
ghost use Rattle.var_log.specs.Logs.{ChangesBanks, HasBanks, HasBatch, HasBatchOrNot, free_of};
ghost use Rattle.var_store.specs.Places.{HavePlaces, HasSamePlaces};
ghost use Rattle.var_store.specs.Stores.{PreparedValue, Stands};

use crate::ClaimFault;
use crate::ending::status_of;
use crate::fault::claim_fault_of;
use bench_model::Flash;
use fmp_slot::SlotForm;
use reference_machine::{End, Kind, UnitLine};
use std::marker::Model;
use stored_vars::Claim;
use var_log::LogFault;
use var_store::{Prepared, StoreFault, VarStore};

/// A claim with all that its commit and its settlement need. `prepare_attempt` alone makes one. It
/// keeps the number of the batch at which that call or `claim` left the store.
#[derive(Drop)]
pub struct Attempt {
    pub(crate) claim: Claim,
    pub(crate) number: u16,
    pub(crate) seq: u64,
    pub(crate) claiming: Option<Prepared>,
    pub(crate) sealed: Prepared,
    pub(crate) kept: Prepared,
    pub(crate) lost: Prepared,
}

impl Model for Attempt {
    ghost use Rattle.dev_claims.specs.Attempts.{AttemptValue, attempt};

    ghost Value = { AttemptValue };

    ghost view = { λ a. attempt a.claim a.number a.seq a.claiming a.sealed a.kept a.lost };
}

/// Commits the claim of an attempt. It takes no memory, and answers Log(Flash) or Log(Stale) alone:
/// after Log(Flash) the claim stands or not in each later image.
pub fn claim<W: Flash>(
    store: &mut VarStore,
    flash: &mut W,
    attempt: &mut Attempt,
) -> Result<(), ClaimFault>
    requires banks { HasBanks (W.state flash.old) }
    requires stands { store.old.log.stale ≡ false → Stands store.old (W.state flash.old) }
    requires ready { MayClaim store.old attempt.old }
    ensures attempt { attempt.new
        ≡ record attempt.old { claiming = None; seq = store.new.log.seq } }
    ensures value { (p : PreparedValue) → attempt.old.claiming ≡ Some p
        → AttemptLeaves p store.old store.new result }
    ensures settles { OnOk result (MaySettle store.new attempt.new) }
    ensures durable { OnOk result (HasBatch (claiming_of attempt.old.claiming)
        (W.state flash.old) (W.state flash.new)) }
    ensures images { store.old.log.stale ≡ false → HasBatchOrNot
        (claiming_of attempt.old.claiming) (W.state flash.old) (W.state flash.new) }
    ensures stands { OnOk result (Stands store.new (W.state flash.new)) }
    ensures refused { AnswersAttempt store.old result }
    ensures err { StaysUnlessStruck (W.state flash.old) (W.state flash.new) result }
    ensures frame { ChangesBanks (W.state flash.old) (W.state flash.new) }
    ensures moves { OnOk result ((W.state flash.new).counts.moves
        ≡ raised (W.state flash.old).counts.moves 4) }
    ensures bound { (W.state flash.new).counts.moves ≤ (W.state flash.old).counts.moves + 4 }
    ensures looks { (W.state flash.new).counts.looks ≡ (W.state flash.old).counts.looks }
    ensures cause { HasCauseOf (ClaimFault.Store (StoreFault.Log LogFault.Flash))
        (W.state flash.old).counts.flash_faults (W.state flash.new).counts.flash_faults result }
{
    let prepared = match attempt.claiming.take() {
        Some(prepared) => prepared,
        None => unreachable!(),
    };
    commit_prepared(store, flash, prepared)?;
    attempt.seq = store.seq();
    Ok(())
}

/// Settles an attempt by an end, and tells its line. It takes no memory, and answers Log(Flash) or
/// Log(Stale) alone: after Log(Flash) the settlement stands or not in each later image.
pub fn settle<W: Flash, S: SlotForm>(
    _form: &S,
    store: &mut VarStore,
    flash: &mut W,
    attempt: Attempt,
    end: End,
) -> Result<UnitLine, ClaimFault>
    requires banks { HasBanks (W.state flash.old) }
    requires stands { store.old.log.stale ≡ false → Stands store.old (W.state flash.old) }
    requires ready { MaySettle store.old attempt }
    requires end { IsAttemptEnd end }
    requires slot { (W.state flash.old).contents.told ≡ true → HasEnded S.slot_of attempt.claim
        (region_in attempt.claim.key.device (W.state flash.old)) end }
    ensures line { IfOk result (λ line. line ≡ attempt_line attempt end) }
    ensures value { AttemptLeaves (settling_of attempt end) store.old store.new result }
    ensures durable { OnOk result (HasBatch (settling_of attempt end).changes
        (W.state flash.old) (W.state flash.new)) }
    ensures images { store.old.log.stale ≡ false → HasBatchOrNot (settling_of attempt end).changes
        (W.state flash.old) (W.state flash.new) }
    ensures stands { OnOk result (Stands store.new (W.state flash.new)) }
    ensures refused { AnswersAttempt store.old result }
    ensures err { StaysUnlessStruck (W.state flash.old) (W.state flash.new) result }
    ensures frame { ChangesBanks (W.state flash.old) (W.state flash.new) }
    ensures moves { OnOk result ((W.state flash.new).counts.moves
        ≡ raised (W.state flash.old).counts.moves 4) }
    ensures bound { (W.state flash.new).counts.moves ≤ (W.state flash.old).counts.moves + 4 }
    ensures looks { (W.state flash.new).counts.looks ≡ (W.state flash.old).counts.looks }
    ensures cause { HasCauseOf (ClaimFault.Store (StoreFault.Log LogFault.Flash))
        (W.state flash.old).counts.flash_faults (W.state flash.new).counts.flash_faults result }
{
    let Attempt {
        claim,
        number,
        sealed,
        kept,
        lost,
        ..
    } = attempt;
    let prepared = match end {
        End::Sealed => sealed,
        End::Kept => kept,
        End::Lost => lost,
        End::Refused(_) => unreachable!(),
    };
    commit_prepared(store, flash, prepared)?;
    Ok(UnitLine {
        kind: Kind::Try,
        key: claim.key,
        version: claim.version,
        end: Some(end),
        status: status_of(end),
        result: number,
    })
}

/// Commits a prepared batch.
fn commit_prepared<W: Flash>(
    store: &mut VarStore,
    flash: &mut W,
    prepared: Prepared,
) -> Result<(), ClaimFault>
    requires banks { HasBanks (W.state flash.old) }
    requires stands { store.old.log.stale ≡ false → Stands store.old (W.state flash.old) }
    requires fits { prepared.size ≤ free_of store.old.log }
    requires next { store.old.log.seq < 2 ^ 64 - 1 }
    requires places { HavePlaces prepared.changes store.old.places }
    ensures value { AttemptLeaves prepared store.old store.new result }
    ensures places { HasSamePlaces store.old.places store.new.places }
    ensures durable { OnOk result (HasBatch prepared.changes (W.state flash.old)
        (W.state flash.new)) }
    ensures images { store.old.log.stale ≡ false → HasBatchOrNot prepared.changes
        (W.state flash.old) (W.state flash.new) }
    ensures stands { OnOk result (Stands store.new (W.state flash.new)) }
    ensures refused { AnswersAttempt store.old result }
    ensures err { StaysUnlessStruck (W.state flash.old) (W.state flash.new) result }
    ensures frame { ChangesBanks (W.state flash.old) (W.state flash.new) }
    ensures moves { OnOk result ((W.state flash.new).counts.moves
        ≡ raised (W.state flash.old).counts.moves 4) }
    ensures bound { (W.state flash.new).counts.moves ≤ (W.state flash.old).counts.moves + 4 }
    ensures looks { (W.state flash.new).counts.looks ≡ (W.state flash.old).counts.looks }
    ensures cause { HasCauseOf (ClaimFault.Store (StoreFault.Log LogFault.Flash))
        (W.state flash.old).counts.flash_faults (W.state flash.new).counts.flash_faults result }
{
    match store.commit(flash, prepared) {
        Ok(()) => Ok(()),
        Err(fault) => Err(claim_fault_of(fault)),
    }
}
