//! A boot.

ghost use Rattle.std.specs.Prelude.{◌≡◌, OnOk};
ghost use Rattle.bench_model.specs.Boards.{IsBoard};
ghost use Rattle.cap_boot.specs.Booting.{Boots};
ghost use Rattle.cap_boot.specs.Faults.{HasFlashCause};
ghost use Rattle.cap_boot.specs.Given.{setting};
ghost use Rattle.cap_boot.specs.Going.{Goes, IsNone, nothing};
ghost use Rattle.cap_boot.specs.Keeps.{KeepsNothing};
ghost use Rattle.cap_boot.specs.Situations.{IsOpen, IsReady, situation};
ghost use Rattle.cap_boot.specs.Stands.{HasRegions, KeepsRegions};
ghost use Rattle.cap_boot.specs.Tasks.{all_tasks};
ghost use Rattle.reference_machine.specs.Report.{nothing_done, report_value};
ghost use Rattle.stored_vars.specs.Holds.{is_asked};
ghost use Rattle.var_store.specs.Stores.{variables_of};

use crate::BootFault;
use crate::folder::take_folder;
use crate::opening::{open_store, sync_devices};
use crate::single_steps::heal;
use crate::waiting::take_staged;
use bench_model::{Board, Platform};
use cu_base::EfiTime;
use fmp_slot::SlotForm;
use reference_machine::Report;
use std::alloc::Global;
use stored_vars::{StoredVar, stored_number};
use var_store::VarStore;

/// A boot: the store is opened and the devices are synced; an open claim is closed; the staged
/// deliveries are done, and the files of the folder where they are asked for.
///
/// It fills the report, which must be empty, also where it is stopped: by Flash where the flash
/// failed, by Volume where the volume failed, by NoBank where there is no store or it takes no
/// further batch, and by Memory.
pub fn boot<W: Platform, S: SlotForm>(
    alloc: Global,
    board: &Board,
    now: &EfiTime,
    form: &S,
    bench: &mut W,
    report: &mut Report,
) -> Result<(), BootFault>
    requires regions { HasRegions S.size_of board.now (W.state bench.old) }
    requires empty { report_value report.old ≡ nothing_done }
    ensures images { Boots (setting board.now now.now S.slot_of) (W.state bench.old) result
        (report_value report.new) (W.state bench.new) }
    ensures frame { KeepsRegions (W.state bench.old) (W.state bench.new) }
    ensures cause { HasFlashCause (W.state bench.old) (W.state bench.new) result }
{
    let mut store = open_store(alloc, bench)?;
    report.opened = Some(store.seq());
    let result = do_all(alloc, board, now, form, bench, &mut store, report);
    report.pending = store.pending();
    result
}

/// Syncs the devices and does all work of a boot.
fn do_all<W: Platform, S: SlotForm>(
    alloc: Global,
    board: &Board,
    now: &EfiTime,
    form: &S,
    bench: &mut W,
    store: &mut VarStore,
    report: &mut Report,
) -> Result<(), BootFault>
    requires opened { IsOpen store.old (W.state bench.old) }
    requires regions { HasRegions S.size_of board.now (W.state bench.old) }
    ensures ready { OnOk result (IsReady store.new (W.state bench.new)) }
    ensures does { Goes (setting board.now now.now S.slot_of) IsNone KeepsNothing
        (all_tasks (setting board.now now.now S.slot_of) (W.state bench.old).contents) nothing
        (situation store.old (W.state bench.old) report.old) result
        (situation store.new (W.state bench.new) report.new) }
    ensures frame { KeepsRegions (W.state bench.old) (W.state bench.new) }
    ensures cause { HasFlashCause (W.state bench.old) (W.state bench.new) result }
    ensures rule { IsBoard board.now }
{
    sync_devices(board, bench)?;
    do_tasks(alloc, board, now, form, bench, store, report)?;
    Ok(())
}

/// Does all work of a boot.
fn do_tasks<W: Platform, S: SlotForm>(
    alloc: Global,
    board: &Board,
    now: &EfiTime,
    form: &S,
    bench: &mut W,
    store: &mut VarStore,
    report: &mut Report,
) -> Result<(), BootFault>
    requires ready { IsReady store.old (W.state bench.old) }
    requires regions { HasRegions S.size_of board.now (W.state bench.old) }
    requires rule { IsBoard board.now }
    ensures ready { OnOk result (IsReady store.new (W.state bench.new)) }
    ensures does { Goes (setting board.now now.now S.slot_of) IsNone KeepsNothing
        (all_tasks (setting board.now now.now S.slot_of) (W.state bench.old).contents) nothing
        (situation store.old (W.state bench.old) report.old) result
        (situation store.new (W.state bench.new) report.new) }
    ensures frame { KeepsRegions (W.state bench.old) (W.state bench.new) }
    ensures cause { HasFlashCause (W.state bench.old) (W.state bench.new) result }
{
    heal(alloc, board, now, form, bench, store, report)?;
    take_staged(alloc, board, now, form, bench, store, report)?;
    if is_asked(store) {
        take_folder(alloc, board, now, form, bench, store, report)?;
    }
    Ok(())
}

/// Whether the capsule files are asked for: bit 0x04 of OsIndications (UEFI 2.10, 8.5.4).
fn is_asked(store: &VarStore) -> bool
    ensures { result ≡ is_asked (variables_of store.now) }
{
    let variable = StoredVar::OsIndications;
    let asked = match store.get(variable.name(), &variable.guid()) {
        Some(value) => stored_number(value.bytes).unwrap_or(0),
        None => 0,
    };
    asked / 4 % 2 == 1
}
