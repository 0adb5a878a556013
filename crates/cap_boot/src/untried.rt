//! Units that start no SetImage.

ghost use Rattle.std.specs.Prelude.{◌≡◌, ℕ, None, OnOk, true};
ghost use Rattle.bench_model.specs.Boards.{IsBoard};
ghost use Rattle.cap_boot.specs.Closing.{unit_work};
ghost use Rattle.cap_boot.specs.Faults.{HasFlashCause};
ghost use Rattle.cap_boot.specs.Going.{Goes, IsAny, nothing};
ghost use Rattle.cap_boot.specs.Keeps.{KeepsUnit};
ghost use Rattle.cap_boot.specs.Situations.{IsReady, situation};
ghost use Rattle.cap_boot.specs.Stands.{KeepsRegions, Setting};
ghost use Rattle.cap_boot.specs.Units.{IsUntried, ids_of, kind_of, listed_unit};
ghost use Rattle.reference_machine.specs.Deliveries.{Delivery};
ghost use Rattle.reference_machine.specs.Results.{status_with};
ghost use Rattle.stored_vars.specs.Records.{is_key_name};

use crate::BootFault;
use crate::unit_list::{DeliveryUnit, Matter, NO_GUID};
use crate::unit_steps::close;
use bench_model::{Board, Platform};
use cu_base::{EfiStatus, EfiTime};
use dev_claims::UnitIds;
use reference_machine::{Kind, Report, UnitKey, UnitLine};
use std::alloc::Global;
use var_store::VarStore;

/// What the result of a unit tells of its item: zeros where it has none.
fn ids_of(unit: &DeliveryUnit<'_>) -> UnitIds
    ensures { result ≡ ids_of unit.now.guid unit.now.matter }
{
    let (type_id, index) = match unit.matter {
        Matter::Bad => (NO_GUID, 0),
        Matter::Skip => (NO_GUID, 0),
        Matter::NoTarget(image) => (image.header.type_id, image.header.index),
        Matter::Try(image, _) => (image.header.type_id, image.header.index),
    };
    UnitIds {
        capsule: unit.guid,
        type_id,
        index,
    }
}

/// The kind of a unit.
fn kind_of(unit: &DeliveryUnit<'_>) -> Kind
    ensures { result ≡ kind_of unit.now.matter }
{
    match unit.matter {
        Matter::Bad => Kind::Bad,
        Matter::Skip => Kind::Skip,
        Matter::NoTarget(_) => Kind::NoTarget,
        Matter::Try(_, _) => Kind::Try,
    }
}

/// The status of a unit that starts no SetImage.
fn status_of(unit: &DeliveryUnit<'_>) -> EfiStatus
    requires { IsUntried unit.now.matter }
    ensures { result ≡ status_with (kind_of unit.now.matter) None }
{
    match unit.matter {
        Matter::Bad => EfiStatus::LOAD_ERROR,
        Matter::Skip => EfiStatus::UNSUPPORTED,
        Matter::NoTarget(_) => EfiStatus::UNSUPPORTED,
        Matter::Try(_, _) => unreachable!(),
    }
}

/// Closes a unit that starts no SetImage.
pub(crate) fn close_untried<W: Platform>(
    alloc: Global,
    board: &Board,
    now: &EfiTime,
    bench: &mut W,
    store: &mut VarStore,
    report: &mut Report,
    key: UnitKey,
    unit: &DeliveryUnit<'_>,
) -> Result<(), BootFault>
    requires ready { IsReady store.old (W.state bench.old) }
    requires rule { IsBoard board.now }
    requires untried { IsUntried unit.now.matter }
    requires name { is_key_name key.name ≡ true }
    requires device { key.device ≡ 255 }
    ensures ready { OnOk result (IsReady store.new (W.state bench.new)) }
    ensures frame { KeepsRegions (W.state bench.old) (W.state bench.new) }
    ensures folder { (W.state bench.new).contents.rest.folder
        ≡ (W.state bench.old).contents.rest.folder }
    ensures does { (x : Setting) (d : Delivery) (n : ℕ) → x.board ≡ board.now → x.now ≡ now.now
        → key ≡ (listed_unit d n unit.now).key
        → Goes x IsAny (KeepsUnit (listed_unit d n unit.now).key)
        (unit_work (listed_unit d n unit.now)) nothing
        (situation store.old (W.state bench.old) report.old) result
        (situation store.new (W.state bench.new) report.new) }
    ensures cause { HasFlashCause (W.state bench.old) (W.state bench.new) result }
{
    let line = UnitLine {
        kind: kind_of(unit),
        key,
        version: 0,
        end: None,
        status: status_of(unit),
        result: 0,
    };
    close(alloc, board, now, bench, store, report, line, &ids_of(unit))?;
    Ok(())
}
