//! The steps of a boot that are one batch of the store, or one change of the folder.

ghost use Rattle.std.specs.Prelude.{◌≡◌, ◌++◌, ℕ, OnOk};
ghost use Rattle.bench_model.specs.Bench.{HasFile};
ghost use Rattle.bench_model.specs.Files.{without_serial};
ghost use Rattle.cap_boot.specs.Faults.{HasFlashCause};
ghost use Rattle.cap_boot.specs.Given.{setting};
ghost use Rattle.cap_boot.specs.Going.{Goes, IsAny, IsFolder, nothing};
ghost use Rattle.cap_boot.specs.Keeps.{IsHealed, KeepsFiles, KeepsFolder, KeepsNothing};
ghost use Rattle.cap_boot.specs.Keeps.{KeepsOthers};
ghost use Rattle.cap_boot.specs.Situations.{IsReady, situation};
ghost use Rattle.cap_boot.specs.Stands.{HasRegions, KeepsRegions, Setting};
ghost use Rattle.cap_boot.specs.Tasks.{ListsFiles, clear_tasks, heal_tasks, removal_tasks};
ghost use Rattle.cap_boot.specs.Tasks.{unstage_tasks};
ghost use Rattle.reference_machine.specs.Boots.{prune_tasks};
ghost use Rattle.var_store.specs.Stores.{HeldStore};

use crate::BootFault;
use crate::step_batches::{clear_batch, unstage_batch};
use crate::writing::{drop_progress, settle_in_store, write_batch};
use bench_model::{Board, Platform};
use cu_base::{EfiTime, Failed};
use dev_claims::open_claim;
use fmp_slot::SlotForm;
use reference_machine::{Report, StagedPair};
use std::alloc::Global;
use var_store::VarStore;

/// Closes the open claim by what its device holds, where a claim is open.
pub(crate) fn heal<W: Platform, S: SlotForm>(
    alloc: Global,
    board: &Board,
    now: &EfiTime,
    form: &S,
    bench: &mut W,
    store: &mut VarStore,
    report: &mut Report,
) -> Result<(), BootFault>
    requires ready { IsReady store.old (W.state bench.old) }
    requires regions { HasRegions S.size_of board.now (W.state bench.old) }
    ensures ready { OnOk result (IsReady store.new (W.state bench.new)) }
    ensures frame { KeepsRegions (W.state bench.old) (W.state bench.new) }
    ensures does { Goes (setting board.now now.now S.slot_of) IsAny
        (IsHealed (setting board.now now.now S.slot_of) (W.state bench.old).contents)
        (heal_tasks (setting board.now now.now S.slot_of) (W.state bench.old).contents) nothing
        (situation store.old (W.state bench.old) report.old) result
        (situation store.new (W.state bench.new) report.new) }
    ensures cause { HasFlashCause (W.state bench.old) (W.state bench.new) result }
{
    if open_claim(store, board).is_none() {
        return Ok(());
    }
    report.lines.reserve(1)?;
    let line = settle_in_store(alloc, board, now, form, bench, store)?;
    report.steps = report.steps.saturating_add(1);
    report.lines.push(line)?;
    Ok(())
}

/// Takes a staged delivery out.
#[tactic(auto, using(crate::proofs::Unstagings::unstage_few, crate::proofs::Unstagings::unstage_small))]
pub(crate) fn unstage<W: Platform>(
    alloc: Global,
    bench: &mut W,
    store: &mut VarStore,
    report: &mut Report,
    pair: StagedPair,
) -> Result<(), BootFault>
    requires ready { IsReady store.old (W.state bench.old) }
    ensures ready { OnOk result (IsReady store.new (W.state bench.new)) }
    ensures frame { KeepsRegions (W.state bench.old) (W.state bench.new) }
    ensures does { (x : Setting) → Goes x IsAny KeepsFolder (unstage_tasks pair) nothing
        (situation store.old (W.state bench.old) report.old) result
        (situation store.new (W.state bench.new) report.new) }
    ensures cause { HasFlashCause (W.state bench.old) (W.state bench.new) result }
{
    report.unstaged.reserve(1)?;
    let batch = unstage_batch(alloc, store, pair.serial)?;
    write_batch(alloc, bench, store, &batch)?;
    report.steps = report.steps.saturating_add(1);
    report.unstaged.push(pair.serial)?;
    Ok(())
}

/// Drops the progress of all files but those of these serials, which are those of the folder.
pub(crate) fn prune_progress<W: Platform>(
    alloc: Global,
    bench: &mut W,
    store: &mut VarStore,
    report: &mut Report,
    serials: &[u64],
) -> Result<(), BootFault>
    requires ready { IsReady store.old (W.state bench.old) }
    requires serials { ListsFiles serials.now (W.state bench.old) }
    ensures ready { OnOk result (IsReady store.new (W.state bench.new)) }
    ensures frame { KeepsRegions (W.state bench.old) (W.state bench.new) }
    ensures folder { (W.state bench.new).contents.rest.folder
        ≡ (W.state bench.old).contents.rest.folder }
    ensures does { (x : Setting) → Goes x IsAny KeepsFiles prune_tasks nothing
        (situation store.old (W.state bench.old) report.old) result
        (situation store.new (W.state bench.new) report.new) }
    ensures cause { HasFlashCause (W.state bench.old) (W.state bench.new) result }
{
    if drop_progress(alloc, bench, store, serials)? {
        report.steps = report.steps.saturating_add(1);
    }
    Ok(())
}

/// Takes a file out of the folder.
pub(crate) fn remove<W: Platform>(
    bench: &mut W,
    report: &mut Report,
    serial: u64,
) -> Result<(), BootFault>
    requires there { HasFile serial (W.state bench.old) }
    ensures ready { (store : HeldStore) → IsReady store (W.state bench.old) →
        OnOk result (IsReady store (W.state bench.new)) }
    ensures frame { KeepsRegions (W.state bench.old) (W.state bench.new) }
    ensures folder { OnOk result ((W.state bench.new).contents.rest.folder
        ≡ without_serial (W.state bench.old).contents.rest.folder serial) }
    ensures does { (x : Setting) (store : HeldStore) → Goes x IsFolder (KeepsOthers serial)
        (removal_tasks serial) nothing (situation store (W.state bench.old) report.old) result
        (situation store (W.state bench.new) report.new) }
    ensures cause { HasFlashCause (W.state bench.old) (W.state bench.new) result }
{
    report.removed.reserve(1)?;
    match bench.remove(serial) {
        Ok(()) => {}
        Err(Failed) => return Err(BootFault::Volume),
    }
    report.steps = report.steps.saturating_add(1);
    report.removed.push(serial)?;
    Ok(())
}

/// Stores that the platform has taken the files that it was asked for.
pub(crate) fn clear<W: Platform>(
    alloc: Global,
    bench: &mut W,
    store: &mut VarStore,
    report: &mut Report,
) -> Result<(), BootFault>
    requires ready { IsReady store.old (W.state bench.old) }
    ensures ready { OnOk result (IsReady store.new (W.state bench.new)) }
    ensures frame { KeepsRegions (W.state bench.old) (W.state bench.new) }
    ensures does { (x : Setting) → Goes x IsAny KeepsNothing clear_tasks nothing
        (situation store.old (W.state bench.old) report.old) result
        (situation store.new (W.state bench.new) report.new) }
    ensures cause { HasFlashCause (W.state bench.old) (W.state bench.new) result }
{
    let batch = clear_batch(alloc, store)?;
    write_batch(alloc, bench, store, &batch)?;
    report.steps = report.steps.saturating_add(1);
    Ok(())
}
