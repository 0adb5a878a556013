//! The steps of a boot on a unit.

ghost use Rattle.std.specs.Prelude.{◌≡◌, ◌<◌, IfOk, OnOk, length};
ghost use Rattle.cap_boot.specs.Closing.{IsClosedBy, unit_work};
ghost use Rattle.cap_boot.specs.Faults.{HasFlashCause};
ghost use Rattle.cap_boot.specs.Going.{Goes, IsAny, nothing};
ghost use Rattle.cap_boot.specs.Keeps.{KeepsUnit};
ghost use Rattle.cap_boot.specs.Situations.{IsReady, situation};
ghost use Rattle.cap_boot.specs.Stands.{KeepsRegions, Setting};
ghost use Rattle.dev_claims.specs.ClosedBy.{MayClose};
ghost use Rattle.reference_machine.specs.Deliveries.{BootUnit};
ghost use Rattle.reference_machine.specs.Results.{status_with};
ghost use Rattle.stored_vars.specs.Holds.{device_of};
ghost use Rattle.stored_vars.specs.Records.{IsState};
ghost use Rattle.var_store.specs.Stores.{variables_of};

use crate::BootFault;
use crate::writing::close_in_store;
use bench_model::{Board, Platform};
use cu_base::EfiTime;
use dev_claims::UnitIds;
use reference_machine::{Report, UnitLine};
use std::alloc::Global;
use var_store::VarStore;

/// Closes the next unit, which starts no SetImage, as a line and the GUIDs and index of its item
/// tell. The number of its result is put into the line.
pub(crate) fn close<W: Platform>(
    alloc: Global,
    board: &Board,
    now: &EfiTime,
    bench: &mut W,
    store: &mut VarStore,
    report: &mut Report,
    mut line: UnitLine,
    ids: &UnitIds,
) -> Result<(), BootFault>
    requires ready { IsReady store.old (W.state bench.old) }
    requires line { MayClose line }
    requires state { line.key.device < length board.now.devices
        → IsState (device_of board.now (variables_of store.old) line.key.device) }
    ensures ready { OnOk result (IsReady store.new (W.state bench.new)) }
    ensures frame { KeepsRegions (W.state bench.old) (W.state bench.new) }
    ensures rest { (W.state bench.new).contents.rest ≡ (W.state bench.old).contents.rest }
    ensures does { (x : Setting) (u : BootUnit) → x.board ≡ board.now → x.now ≡ now.now
        → IsClosedBy x u line ids.now (situation store.old (W.state bench.old) report.old)
        → Goes x IsAny (KeepsUnit u.key) (unit_work u) nothing
        (situation store.old (W.state bench.old) report.old) result
        (situation store.new (W.state bench.new) report.new) }
    ensures cause { HasFlashCause (W.state bench.old) (W.state bench.new) result }
{
    report.lines.reserve(1)?;
    line.result = close_in_store(alloc, board, now, bench, store, &line, ids)?;
    report.steps = report.steps.saturating_add(1);
    report.lines.push(line)?;
    Ok(())
}
