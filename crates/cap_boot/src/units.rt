//! The units of a delivery.

ghost use Rattle.std.specs.Prelude.{◌≡◌, OnOk};
ghost use Rattle.bench_model.specs.Boards.{IsBoard};
ghost use Rattle.cap_boot.specs.Faults.{HasFlashCause};
ghost use Rattle.cap_boot.specs.Given.{setting};
ghost use Rattle.cap_boot.specs.Going.{Goes, IsAny, IsThenRemoved, nothing};
ghost use Rattle.cap_boot.specs.Keeps.{KeepsFileThere, KeepsFolder};
ghost use Rattle.cap_boot.specs.Situations.{IsReady, situation};
ghost use Rattle.cap_boot.specs.Stands.{HasRegions, KeepsRegions};
ghost use Rattle.cap_boot.specs.Tasks.{TellsFile, file_unit_tasks, memory_tasks};
ghost use Rattle.delivery_formats.specs.TrueFormats.{true_formats};

use crate::BootFault;
use crate::decoding::{capsules_behind, capsules_in};
use crate::doing::do_capsules;
use crate::file_bytes::bytes_in;
use crate::unit_list::Source;
use bench_model::{Board, Listed, Platform};
use cu_base::EfiTime;
use dev_claims::progress;
use fmp_slot::SlotForm;
use reference_machine::{Report, StagedPair};
use std::alloc::Global;
use var_store::VarStore;

/// Does the units of a staged delivery.
pub(crate) fn do_memory_units<W: Platform, S: SlotForm>(
    alloc: Global,
    board: &Board,
    now: &EfiTime,
    form: &S,
    bench: &mut W,
    store: &mut VarStore,
    report: &mut Report,
    pair: StagedPair,
) -> Result<(), BootFault>
    requires ready { IsReady store.old (W.state bench.old) }
    requires regions { HasRegions S.size_of board.now (W.state bench.old) }
    requires rule { IsBoard board.now }
    ensures ready { OnOk result (IsReady store.new (W.state bench.new)) }
    ensures frame { KeepsRegions (W.state bench.old) (W.state bench.new) }
    ensures does { Goes (setting board.now now.now S.slot_of) IsAny KeepsFolder
        (memory_tasks true_formats pair) nothing
        (situation store.old (W.state bench.old) report.old) result
        (situation store.new (W.state bench.new) report.new) }
    ensures cause { HasFlashCause (W.state bench.old) (W.state bench.new) result }
{
    let capsules = capsules_behind(alloc, bench, pair.address)?;
    let source = Source {
        route: 0,
        serial: pair.serial,
        name: "",
    };
    do_capsules(
        alloc,
        board,
        now,
        form,
        bench,
        store,
        report,
        &source,
        capsules.as_ref(),
        0,
    )?;
    Ok(())
}

/// Does the units of a file that are not spent yet.
pub(crate) fn do_file_units<W: Platform, S: SlotForm>(
    alloc: Global,
    board: &Board,
    now: &EfiTime,
    form: &S,
    bench: &mut W,
    store: &mut VarStore,
    report: &mut Report,
    file: &Listed,
) -> Result<(), BootFault>
    requires ready { IsReady store.old (W.state bench.old) }
    requires regions { HasRegions S.size_of board.now (W.state bench.old) }
    requires rule { IsBoard board.now }
    requires there { TellsFile file.now (W.state bench.old) }
    ensures ready { OnOk result (IsReady store.new (W.state bench.new)) }
    ensures frame { KeepsRegions (W.state bench.old) (W.state bench.new) }
    ensures folder { (W.state bench.new).contents.rest.folder
        ≡ (W.state bench.old).contents.rest.folder }
    ensures does { Goes (setting board.now now.now S.slot_of) IsThenRemoved
        (KeepsFileThere file.now.serial) (file_unit_tasks true_formats file.now.serial) nothing
        (situation store.old (W.state bench.old) report.old) result
        (situation store.new (W.state bench.new) report.new) }
    ensures cause { HasFlashCause (W.state bench.old) (W.state bench.new) result }
{
    let from = progress(store, file.serial);
    let bytes = bytes_in(alloc, bench, file)?;
    let capsules = capsules_in(alloc, bytes.as_slice())?;
    let source = Source {
        route: 1,
        serial: file.serial,
        name: file.name.as_str(),
    };
    do_capsules(
        alloc,
        board,
        now,
        form,
        bench,
        store,
        report,
        &source,
        capsules.as_ref(),
        from,
    )?;
    Ok(())
}
