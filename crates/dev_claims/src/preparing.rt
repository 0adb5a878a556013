//! The call that makes all that an attempt needs before it is claimed.

ghost use Rattle.std.specs.Prelude.{◌≡◌, ◌<◌, ◌≤◌, ◌+◌, ℕ, true, false, IfErr, IfOk, OnErr, OnOk};
ghost use Rattle.std.specs.Prelude.{length, None};
ghost use Rattle.bench_model.specs.Bench.{HasDevice};
ghost use Rattle.bench_model.specs.declared.limits.TheConstants.{MAX_DEVICES};
ghost use Rattle.cu_base.specs.Causes.{HasCauseOf};
ghost use Rattle.dev_claims.specs.Attempts.{HaveEndPlaces, MayClaim, attempt_at};
ghost use Rattle.dev_claims.specs.Ended.{IsAttemptEnd, claim_settled};
ghost use Rattle.dev_claims.specs.Places.{AreBefore};
ghost use Rattle.dev_claims.specs.Preparing.{AnswersPreparing, PreparingLeaves, StaysUnlessRoomed};
ghost use Rattle.dev_claims.specs.Preparing.{PreparesAll, PreparesWithin, attempt_size};
ghost use Rattle.dev_claims.specs.Preparing.{is_spent, with_spare};
ghost use Rattle.dev_claims.specs.Units.{claim_changes};
ghost use Rattle.reference_machine.specs.declared.unit.End.TheVariants.{Sealed, Kept, Lost};
ghost use Rattle.stored_vars.specs.Holds.{open_device_of};
ghost use Rattle.stored_vars.specs.Records.{is_key_name};
ghost use Rattle.var_log.specs.Counts.{with_room};
ghost use Rattle.var_log.specs.Logs.{ChangesBanks, HasBanks, KeepsVariables, free_of};
ghost use Rattle.var_log.specs.declared.limits.TheConstants.{MAX_RECORD};
ghost use Rattle.var_store.specs.Places.{HavePlaces};
ghost use Rattle.var_store.specs.Stores.{OnlyMakesPlaces, Stands, prepared_of, variables_of};

use crate::ClaimFault;
use crate::attempt::Attempt;
use crate::claimed::ids_on;
use crate::closing::{close_batch, next_result};
use crate::committing::are_small;
use crate::fault::claim_fault_of;
use crate::pruning::set_of;
use crate::reading::{dev_state, progress};
use crate::settling::line_ended;
use bench_model::{Board, Flash};
use cu_base::{Blob, EfiTime, NoMemory, Text};
use reference_machine::{End, UnitKey};
use std::alloc::Global;
use stored_vars::{Claim, DevRec, StoredVar};
use var_log::{Batch, LogFault};
use var_store::{Prepared, StoreFault, VarStore};

/// Prepares an attempt: the batch of its claim and that of each way of settling it, room for the
/// claim and the largest of these, and one begin of its device. It refuses with Spent exactly where
/// the claim is of a file of which more units are spent than its number; then with Store of
/// Log(Full) where the last batch has the number 2^64 - 2; then with Store of TooBig, where the
/// progress of files would pass 16,384 bytes, Log(Stale), Log(Full) or Log(Flash), and with Memory.
/// No refusal changes a variable.
pub fn prepare_attempt<W: Flash>(
    alloc: Global,
    board: &Board,
    now: &EfiTime,
    store: &mut VarStore,
    flash: &mut W,
    claim: &Claim,
) -> Result<Attempt, ClaimFault>
    requires banks { HasBanks (W.state flash.old) }
    requires stands { store.old.log.stale ≡ false → Stands store.old (W.state flash.old) }
    requires device { claim.now.key.device < MAX_DEVICES }
    requires there { HasDevice claim.now.key.device (W.state flash.old) }
    requires name { is_key_name claim.now.key.name ≡ true }
    requires none { open_device_of board.now (variables_of store.old) ≡ None }
    ensures attempt { IfOk result (λ a. a ≡ attempt_at board.now (variables_of store.old) now.now
        claim.now store.new.log.seq) }
    ensures claims { IfOk result (λ a. MayClaim store.new a) }
    ensures ready { OnOk result (1 ≤ (W.state flash.new).spare claim.now.key.device) }
    ensures value { PreparingLeaves store.old store.new result }
    ensures images { store.old.log.stale ≡ false
        → KeepsVariables (W.state flash.old) (W.state flash.new) }
    ensures stands { OnOk result (Stands store.new (W.state flash.new)) }
    ensures refused { AnswersPreparing board.now now.now claim.now store.old result }
    ensures err { StaysUnlessRoomed (W.state flash.old) (W.state flash.new) result }
    ensures frame { ChangesBanks (with_spare (W.state flash.old) (W.state flash.new))
        (W.state flash.new) }
    ensures spare { (d : ℕ) → (W.state flash.old).spare d ≤ (W.state flash.new).spare d }
    ensures moves { OnOk result ((W.state flash.new).counts.moves ≡ with_room
        (W.state flash.old).counts.moves
        (attempt_size board.now (variables_of store.old) now.now claim.now)
        (free_of store.old.log)) }
    ensures bound { (W.state flash.new).counts.moves ≤ (W.state flash.old).counts.moves + 6 }
    ensures looks { (W.state flash.new).counts.looks ≡ (W.state flash.old).counts.looks }
    ensures cause { HasCauseOf (ClaimFault.Store (StoreFault.Log LogFault.Flash))
        (W.state flash.old).counts.flash_faults (W.state flash.new).counts.flash_faults result }
{
    if is_spent(store, claim) {
        let progress = progress(store, claim.key.ticket.serial);
        return Err(ClaimFault::Spent { progress });
    }
    if store.seq() == u64::MAX - 1 {
        return Err(ClaimFault::Store(StoreFault::Log(LogFault::Full)));
    }
    let (attempt, bytes) = prepare_batches(alloc, board, now, store, claim)?;
    make_ready(flash, claim.key.device)?;
    match store.room_for(alloc, flash, bytes) {
        Ok(()) => Ok(attempt),
        Err(fault) => Err(claim_fault_of(fault)),
    }
}

/// Makes the room that one begin of a device needs.
fn make_ready<W: Flash>(flash: &mut W, device: u8) -> Result<(), ClaimFault>
    requires there { HasDevice device (W.state flash.old) }
    ensures ok { OnOk result (1 ≤ (W.state flash.new).spare device) }
    ensures refused { IfErr result (λ fault. fault ≡ ClaimFault.Memory) }
    ensures err { OnErr result (W.state flash.new ≡ W.state flash.old) }
    ensures frame { W.state flash.new
        ≡ record (W.state flash.old) { spare = (W.state flash.new).spare } }
    ensures spare { (d : ℕ) → (W.state flash.old).spare d ≤ (W.state flash.new).spare d }
{
    match flash.ready(device) {
        Ok(()) => Ok(()),
        Err(_) => Err(ClaimFault::Memory),
    }
}

/// Whether the claim is of a file of which more units are spent than its number.
fn is_spent(store: &VarStore, claim: &Claim) -> bool
    ensures { result ≡ is_spent (variables_of store.now) claim.now }
{
    claim.key.ticket.route == 1 && claim.key.unit < progress(store, claim.key.ticket.serial)
}

/// Prepares the batches of an attempt, and tells the bytes that it needs.
fn prepare_batches(
    alloc: Global,
    board: &Board,
    now: &EfiTime,
    store: &mut VarStore,
    claim: &Claim,
) -> Result<(Attempt, u32), ClaimFault>
    requires device { claim.now.key.device < MAX_DEVICES }
    requires name { is_key_name claim.now.key.name ≡ true }
    ensures value { IfOk result (λ made. made.0 ≡ attempt_at board.now (variables_of store.old)
        now.now claim.now store.old.log.seq) }
    ensures bytes { IfOk result (λ made. made.1
        ≡ attempt_size board.now (variables_of store.old) now.now claim.now) }
    ensures places { OnOk result (HavePlaces
        (claim_changes board.now (variables_of store.old) claim.now) store.new.places) }
    ensures ends { IfOk result (λ made. HaveEndPlaces made.0 store.new.places) }
    ensures frame { OnlyMakesPlaces store.old store.new }
    ensures refused { PreparesAll board.now (variables_of store.old) now.now claim.now result }
{
    let batch = claim_batch(alloc, board, store, claim)?;
    let claiming = prepare(alloc, store, &batch)?;
    let (sealed, kept, lost) = prepare_ends(alloc, board, now, store, claim)?;
    let largest = sealed.bytes().max(kept.bytes()).max(lost.bytes());
    let bytes = claiming.bytes() + largest;
    let attempt = Attempt {
        claim: copy_of(alloc, claim)?,
        number: next_result(board, store),
        seq: store.seq(),
        claiming: Some(claiming),
        sealed,
        kept,
        lost,
    };
    Ok((attempt, bytes))
}

/// The batch of a claim: the record of its device with its state and the claim.
fn claim_batch(
    alloc: Global,
    board: &Board,
    store: &VarStore,
    claim: &Claim,
) -> Result<Batch, NoMemory>
    requires device { claim.now.key.device < MAX_DEVICES }
    requires name { is_key_name claim.now.key.name ≡ true }
    ensures value { IfOk result (λ batch. batch.items
        ≡ claim_changes board.now (variables_of store.now) claim.now) }
    ensures places { IfOk result (λ batch. AreBefore 5 batch.items) }
    ensures few { IfOk result (λ batch. length batch.items ≤ 8) }
{
    let mut batch = Batch::new(alloc);
    let record = DevRec {
        state: dev_state(store, board, claim.key.device),
        claim: Some(copy_of(alloc, claim)?),
    };
    let value = Blob::from_slice(alloc, &record.write())?;
    batch.push(set_of(alloc, StoredVar::Device(claim.key.device), value)?)?;
    Ok(batch)
}

/// Prepares the batches that settle a claim: as Sealed, as Kept and as Lost.
fn prepare_ends(
    alloc: Global,
    board: &Board,
    now: &EfiTime,
    store: &mut VarStore,
    claim: &Claim,
) -> Result<(Prepared, Prepared, Prepared), ClaimFault>
    requires device { claim.now.key.device < MAX_DEVICES }
    requires name { is_key_name claim.now.key.name ≡ true }
    ensures sealed { IfOk result (λ ends. ends.0 ≡ prepared_of
        (claim_settled board.now (variables_of store.old) now.now claim.now Sealed)) }
    ensures kept { IfOk result (λ ends. ends.1 ≡ prepared_of
        (claim_settled board.now (variables_of store.old) now.now claim.now Kept)) }
    ensures lost { IfOk result (λ ends. ends.2 ≡ prepared_of
        (claim_settled board.now (variables_of store.old) now.now claim.now Lost)) }
    ensures bound { IfOk result (λ ends. (ends.0.size ≤ MAX_RECORD)
        × (ends.1.size ≤ MAX_RECORD) × (ends.2.size ≤ MAX_RECORD)) }
    ensures for_sealed { OnOk result (HavePlaces
        (claim_settled board.now (variables_of store.old) now.now claim.now Sealed)
        store.new.places) }
    ensures for_kept { OnOk result (HavePlaces
        (claim_settled board.now (variables_of store.old) now.now claim.now Kept)
        store.new.places) }
    ensures for_lost { OnOk result (HavePlaces
        (claim_settled board.now (variables_of store.old) now.now claim.now Lost)
        store.new.places) }
    ensures frame { OnlyMakesPlaces store.old store.new }
    ensures refused { PreparesAll board.now (variables_of store.old) now.now claim.now result }
{
    let sealed = prepare_end(alloc, board, now, store, claim, End::Sealed)?;
    let kept = prepare_end(alloc, board, now, store, claim, End::Kept)?;
    let lost = prepare_end(alloc, board, now, store, claim, End::Lost)?;
    Ok((sealed, kept, lost))
}

/// Prepares the batch that settles a claim by an end.
fn prepare_end(
    alloc: Global,
    board: &Board,
    now: &EfiTime,
    store: &mut VarStore,
    claim: &Claim,
    end: End,
) -> Result<Prepared, ClaimFault>
    requires device { claim.now.key.device < MAX_DEVICES }
    requires name { is_key_name claim.now.key.name ≡ true }
    requires end { IsAttemptEnd end }
    ensures value { IfOk result (λ p. p ≡ prepared_of
        (claim_settled board.now (variables_of store.old) now.now claim.now end)) }
    ensures bound { IfOk result (λ p. p.size ≤ MAX_RECORD) }
    ensures places { OnOk result (HavePlaces
        (claim_settled board.now (variables_of store.old) now.now claim.now end)
        store.new.places) }
    ensures frame { OnlyMakesPlaces store.old store.new }
    ensures refused { PreparesWithin
        (claim_settled board.now (variables_of store.old) now.now claim.now end) result }
{
    let ids = ids_on(board, claim.key.device);
    let line = line_ended(board, store, copy_of(alloc, claim)?, end);
    let batch = close_batch(alloc, board, now, store, &line, claim.floor, &ids)?;
    let prepared = prepare(alloc, store, &batch)?;
    Ok(prepared)
}

/// Prepares a batch of at most 8 variables of the platform.
fn prepare(alloc: Global, store: &mut VarStore, batch: &Batch) -> Result<Prepared, ClaimFault>
    requires few { length batch.now.items ≤ 8 }
    requires places { AreBefore 5 batch.now.items }
    ensures value { IfOk result (λ p. p ≡ prepared_of batch.now.items) }
    ensures bound { IfOk result (λ p. p.size ≤ MAX_RECORD) }
    ensures places { OnOk result (HavePlaces batch.now.items store.new.places) }
    ensures frame { OnlyMakesPlaces store.old store.new }
    ensures refused { PreparesWithin batch.now.items result }
{
    if !are_small(batch.as_slice()) {
        return Err(ClaimFault::Store(StoreFault::TooBig));
    }
    match store.prepare_set(alloc, batch) {
        Ok(prepared) => Ok(prepared),
        Err(fault) => Err(claim_fault_of(fault)),
    }
}

/// The same claim.
fn copy_of(alloc: Global, claim: &Claim) -> Result<Claim, NoMemory>
    ensures { IfOk result (λ copy. copy ≡ claim.now) }
{
    Ok(Claim {
        key: UnitKey {
            ticket: claim.key.ticket,
            unit: claim.key.unit,
            device: claim.key.device,
            name: Text::from_str(alloc, claim.key.name.as_str())?,
        },
        version: claim.version,
        floor: claim.floor,
        length: claim.length,
    })
}
