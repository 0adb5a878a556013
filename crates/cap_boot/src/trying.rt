//! An item that is tried on a device.

ghost use Rattle.std.specs.Prelude.{◌≡◌, ◌<◌, OnOk, length, true};
ghost use Rattle.bench_model.specs.Boards.{IsBoard};
ghost use Rattle.cap_boot.specs.Closing.{unit_work};
ghost use Rattle.cap_boot.specs.Faults.{HasFlashCause};
ghost use Rattle.cap_boot.specs.Given.{setting};
ghost use Rattle.cap_boot.specs.Going.{Goes, IsAny, nothing};
ghost use Rattle.cap_boot.specs.Keeps.{KeepsUnit};
ghost use Rattle.cap_boot.specs.Situations.{IsReady, situation};
ghost use Rattle.cap_boot.specs.Stands.{HasRegions, KeepsRegions};
ghost use Rattle.cap_boot.specs.Units.{try_unit};
ghost use Rattle.stored_vars.specs.Records.{is_key_name};

use crate::BootFault;
use crate::to_be_built::to_be_built;
use crate::unit_steps::close;
use crate::verdict::{capsule_status, refusal_of};
use bench_model::{Board, Platform};
use capsule_grammar::Image;
use cu_base::{EfiTime, Guid};
use dev_claims::{UnitIds, dev_state};
use fmp_slot::SlotForm;
use reference_machine::{End, Kind, Report, UnitKey, UnitLine};
use std::alloc::Global;
use var_store::VarStore;

/// Tries an item of a capsule on the device of a key. An image that one of the checks before that of
/// the dependencies refuses is closed with the status of that check. Any other gives up as for want
/// of memory, before anything is done: the check of the dependencies and the attempt are not built.
pub(crate) fn do_try<W: Platform, S: SlotForm>(
    alloc: Global,
    board: &Board,
    now: &EfiTime,
    form: &S,
    bench: &mut W,
    store: &mut VarStore,
    report: &mut Report,
    key: UnitKey,
    capsule: &Guid,
    image: &Image,
) -> Result<(), BootFault>
    requires ready { IsReady store.old (W.state bench.old) }
    requires regions { HasRegions S.size_of board.now (W.state bench.old) }
    requires rule { IsBoard board.now }
    requires device { key.device < length board.now.devices }
    requires name { is_key_name key.name ≡ true }
    ensures ready { OnOk result (IsReady store.new (W.state bench.new)) }
    ensures frame { KeepsRegions (W.state bench.old) (W.state bench.new) }
    ensures folder { (W.state bench.new).contents.rest.folder
        ≡ (W.state bench.old).contents.rest.folder }
    ensures does { Goes (setting board.now now.now S.slot_of) IsAny (KeepsUnit key)
        (unit_work (try_unit key capsule.now image.now)) nothing
        (situation store.old (W.state bench.old) report.old) result
        (situation store.new (W.state bench.new) report.new) }
    ensures cause { HasFlashCause (W.state bench.old) (W.state bench.new) result }
{
    let floor = dev_state(store, board, key.device).floor;
    let bytes = image.image.as_slice();
    let support = image.header.support;
    let refused = match refusal_of(alloc, board, key.device, floor, bytes, support)? {
        Some(refused) => refused,
        None => return to_be_built(),
    };
    let line = UnitLine {
        kind: Kind::Try,
        key,
        version: refused.version,
        end: Some(End::Refused(refused.status)),
        status: capsule_status(refused.status),
        result: 0,
    };
    let ids = UnitIds {
        capsule: *capsule,
        type_id: image.header.type_id,
        index: image.header.index,
    };
    close(alloc, board, now, bench, store, report, line, &ids)?;
    Ok(())
}
