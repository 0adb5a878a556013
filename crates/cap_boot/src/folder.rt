//! The files of the folder.

ghost use Rattle.std.specs.Prelude.{◌≡◌, AllPairs, IfErr, IfOk, OnOk, true};
ghost use Rattle.bench_model.specs.Boards.{IsBoard};
ghost use Rattle.bench_model.specs.Bench.{ChangesCounts};
ghost use Rattle.bench_model.specs.Files.{HaveOtherSerials, listed, without_serial};
ghost use Rattle.cap_boot.specs.Faults.{HasFlashCause, IsOfListing};
ghost use Rattle.cap_boot.specs.Given.{setting};
ghost use Rattle.cap_boot.specs.Going.{Goes, IsFolder, IsNone, nothing};
ghost use Rattle.cap_boot.specs.Keeps.{KeepsNothing, KeepsOthers};
ghost use Rattle.cap_boot.specs.Situations.{IsReady, situation};
ghost use Rattle.cap_boot.specs.Stands.{HasRegions, KeepsRegions};
ghost use Rattle.cap_boot.specs.Tasks.{HaveFiles, TellsFile, files_tasks, serial_tasks};
ghost use Rattle.cap_boot.specs.Tasks.{serials_of};
ghost use Rattle.delivery_formats.specs.TrueFormats.{true_formats};
ghost use Rattle.reference_machine.specs.Boots.{folder_tasks};
ghost use Rattle.reference_machine.specs.Names.{is_taken_before};
ghost use Rattle.reference_machine.specs.Order.{in_order};
ghost use Rattle.stored_vars.specs.Holds.{is_asked};
ghost use Rattle.var_store.specs.Stores.{variables_of};

use crate::BootFault;
use crate::single_steps::{clear, prune_progress, remove};
use crate::units::do_file_units;
use bench_model::{Board, Listed, Listing, Platform, Volume};
use cu_base::{EfiTime, Items, NoMemory};
use fmp_slot::SlotForm;
use reference_machine::{Report, Serials};
use std::alloc::Global;
use update_inbox::InboxFault;
use var_store::VarStore;

/// The files of the folder in the order in which they are taken: by their upper-cased names.
fn files_in_order<V: Volume>(alloc: Global, volume: &mut V) -> Result<Listing, BootFault>
    ensures value { IfOk result (λ listing. listing.items ≡ listed
        (in_order (λ a b. is_taken_before a.name b.name)
        (V.state volume.old).contents.rest.folder.files)) }
    ensures refused { IfErr result IsOfListing }
    ensures frame { ChangesCounts (V.state volume.old) (V.state volume.new) }
    ensures cause { HasFlashCause (V.state volume.old) (V.state volume.new) result }
{
    match update_inbox::files_in_order(alloc, volume) {
        Ok(listing) => Ok(listing),
        Err(InboxFault::Volume) => Err(BootFault::Volume),
        Err(_) => Err(BootFault::Memory),
    }
}

/// The serials of a listing.
fn serials_of(alloc: Global, files: &[Listed]) -> Result<Serials, NoMemory>
    ensures { IfOk result (λ serials. serials.items ≡ serials_of files.now) }
{
    let mut serials = Items::new(alloc);
    for file in files {
        serials.push(file.serial)?;
    }
    Ok(serials)
}

/// Does the units of a file and takes it out.
fn take_file<W: Platform, S: SlotForm>(
    alloc: Global,
    board: &Board,
    now: &EfiTime,
    form: &S,
    bench: &mut W,
    store: &mut VarStore,
    report: &mut Report,
    file: &Listed,
) -> Result<(), BootFault>
    requires ready { IsReady store.old (W.state bench.old) }
    requires regions { HasRegions S.size_of board.now (W.state bench.old) }
    requires rule { IsBoard board.now }
    requires there { TellsFile file.now (W.state bench.old) }
    ensures ready { OnOk result (IsReady store.new (W.state bench.new)) }
    ensures frame { KeepsRegions (W.state bench.old) (W.state bench.new) }
    ensures folder { OnOk result ((W.state bench.new).contents.rest.folder
        ≡ without_serial (W.state bench.old).contents.rest.folder file.now.serial) }
    ensures does { Goes (setting board.now now.now S.slot_of) IsFolder
        (KeepsOthers file.now.serial) (serial_tasks true_formats file.now.serial) nothing
        (situation store.old (W.state bench.old) report.old) result
        (situation store.new (W.state bench.new) report.new) }
    ensures cause { HasFlashCause (W.state bench.old) (W.state bench.new) result }
{
    do_file_units(alloc, board, now, form, bench, store, report, file)?;
    remove(bench, report, file.serial)?;
    Ok(())
}

/// Takes files, one after another.
fn take_files<W: Platform, S: SlotForm>(
    alloc: Global,
    board: &Board,
    now: &EfiTime,
    form: &S,
    bench: &mut W,
    store: &mut VarStore,
    report: &mut Report,
    files: &[Listed],
) -> Result<(), BootFault>
    requires ready { IsReady store.old (W.state bench.old) }
    requires regions { HasRegions S.size_of board.now (W.state bench.old) }
    requires rule { IsBoard board.now }
    requires apart { AllPairs HaveOtherSerials files.now }
    requires there { HaveFiles files.now (W.state bench.old) }
    ensures ready { OnOk result (IsReady store.new (W.state bench.new)) }
    ensures frame { KeepsRegions (W.state bench.old) (W.state bench.new) }
    ensures does { Goes (setting board.now now.now S.slot_of) IsFolder KeepsNothing
        (files_tasks true_formats files.now) nothing
        (situation store.old (W.state bench.old) report.old) result
        (situation store.new (W.state bench.new) report.new) }
    ensures cause { HasFlashCause (W.state bench.old) (W.state bench.new) result }
{
    for file in files {
        take_file(alloc, board, now, form, bench, store, report, file)?;
    }
    Ok(())
}

/// Does the files of the folder in their order: progress of files that are gone is dropped first,
/// and last it is stored that the files were taken.
pub(crate) fn take_folder<W: Platform, S: SlotForm>(
    alloc: Global,
    board: &Board,
    now: &EfiTime,
    form: &S,
    bench: &mut W,
    store: &mut VarStore,
    report: &mut Report,
) -> Result<(), BootFault>
    requires ready { IsReady store.old (W.state bench.old) }
    requires regions { HasRegions S.size_of board.now (W.state bench.old) }
    requires rule { IsBoard board.now }
    requires asked { is_asked (variables_of store.old) ≡ true }
    ensures ready { OnOk result (IsReady store.new (W.state bench.new)) }
    ensures does { Goes (setting board.now now.now S.slot_of) IsNone KeepsNothing
        (folder_tasks true_formats) nothing
        (situation store.old (W.state bench.old) report.old) result
        (situation store.new (W.state bench.new) report.new) }
    ensures frame { KeepsRegions (W.state bench.old) (W.state bench.new) }
    ensures cause { HasFlashCause (W.state bench.old) (W.state bench.new) result }
{
    let listing = files_in_order(alloc, bench)?;
    let serials = serials_of(alloc, listing.as_slice())?;
    prune_progress(alloc, bench, store, report, serials.as_slice())?;
    take_files(
        alloc,
        board,
        now,
        form,
        bench,
        store,
        report,
        listing.as_slice(),
    )?;
    clear(alloc, bench, store, report)?;
    Ok(())
}
