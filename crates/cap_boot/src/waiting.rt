//! The deliveries that wait in memory.

ghost use Rattle.std.specs.Prelude.{OnOk};
ghost use Rattle.bench_model.specs.Boards.{IsBoard};
ghost use Rattle.cap_boot.specs.Faults.{HasFlashCause};
ghost use Rattle.cap_boot.specs.Given.{setting};
ghost use Rattle.cap_boot.specs.Going.{Goes, IsAny, nothing};
ghost use Rattle.cap_boot.specs.Keeps.{KeepsFolder};
ghost use Rattle.cap_boot.specs.Situations.{IsReady, situation};
ghost use Rattle.cap_boot.specs.Stands.{HasRegions, KeepsRegions};
ghost use Rattle.cap_boot.specs.Tasks.{pair_tasks_of, pairs_tasks};
ghost use Rattle.delivery_formats.specs.TrueFormats.{true_formats};
ghost use Rattle.reference_machine.specs.Boots.{staged_tasks};

use crate::BootFault;
use crate::single_steps::unstage;
use crate::units::do_memory_units;
use bench_model::{Board, Platform};
use cu_base::EfiTime;
use fmp_slot::SlotForm;
use reference_machine::{Report, StagedPair};
use std::alloc::Global;
use update_inbox::staged;
use var_store::VarStore;

/// Takes a staged delivery out and does its units.
fn take_pair<W: Platform, S: SlotForm>(
    alloc: Global,
    board: &Board,
    now: &EfiTime,
    form: &S,
    bench: &mut W,
    store: &mut VarStore,
    report: &mut Report,
    pair: StagedPair,
) -> Result<(), BootFault>
    requires ready { IsReady store.old (W.state bench.old) }
    requires regions { HasRegions S.size_of board.now (W.state bench.old) }
    requires rule { IsBoard board.now }
    ensures ready { OnOk result (IsReady store.new (W.state bench.new)) }
    ensures frame { KeepsRegions (W.state bench.old) (W.state bench.new) }
    ensures does { Goes (setting board.now now.now S.slot_of) IsAny KeepsFolder
        (pair_tasks_of true_formats pair) nothing
        (situation store.old (W.state bench.old) report.old) result
        (situation store.new (W.state bench.new) report.new) }
    ensures cause { HasFlashCause (W.state bench.old) (W.state bench.new) result }
{
    unstage(alloc, bench, store, report, pair)?;
    do_memory_units(alloc, board, now, form, bench, store, report, pair)?;
    Ok(())
}

/// Takes staged deliveries out, one after another, and does their units.
fn take_pairs<W: Platform, S: SlotForm>(
    alloc: Global,
    board: &Board,
    now: &EfiTime,
    form: &S,
    bench: &mut W,
    store: &mut VarStore,
    report: &mut Report,
    pairs: &[StagedPair],
) -> Result<(), BootFault>
    requires ready { IsReady store.old (W.state bench.old) }
    requires regions { HasRegions S.size_of board.now (W.state bench.old) }
    requires rule { IsBoard board.now }
    ensures ready { OnOk result (IsReady store.new (W.state bench.new)) }
    ensures frame { KeepsRegions (W.state bench.old) (W.state bench.new) }
    ensures does { Goes (setting board.now now.now S.slot_of) IsAny KeepsFolder
        (pairs_tasks true_formats pairs.now) nothing
        (situation store.old (W.state bench.old) report.old) result
        (situation store.new (W.state bench.new) report.new) }
    ensures cause { HasFlashCause (W.state bench.old) (W.state bench.new) result }
{
    for pair in pairs {
        take_pair(alloc, board, now, form, bench, store, report, *pair)?;
    }
    Ok(())
}

/// Does the deliveries that wait in memory, by rising serial.
pub(crate) fn take_staged<W: Platform, S: SlotForm>(
    alloc: Global,
    board: &Board,
    now: &EfiTime,
    form: &S,
    bench: &mut W,
    store: &mut VarStore,
    report: &mut Report,
) -> Result<(), BootFault>
    requires ready { IsReady store.old (W.state bench.old) }
    requires regions { HasRegions S.size_of board.now (W.state bench.old) }
    requires rule { IsBoard board.now }
    ensures ready { OnOk result (IsReady store.new (W.state bench.new)) }
    ensures frame { KeepsRegions (W.state bench.old) (W.state bench.new) }
    ensures does { Goes (setting board.now now.now S.slot_of) IsAny KeepsFolder
        (staged_tasks true_formats) nothing
        (situation store.old (W.state bench.old) report.old) result
        (situation store.new (W.state bench.new) report.new) }
    ensures cause { HasFlashCause (W.state bench.old) (W.state bench.new) result }
{
    let pairs = staged(alloc, store)?;
    take_pairs(
        alloc,
        board,
        now,
        form,
        bench,
        store,
        report,
        pairs.as_slice(),
    )?;
    Ok(())
}
