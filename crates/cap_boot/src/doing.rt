//! The units of a delivery, done one after another.

ghost use Rattle.std.specs.Prelude.{◌≡◌, ◌≤◌, ◌<◌, ◌^◌, IfOk, IfSome, OnOk, length, map};
ghost use Rattle.std.specs.Prelude.{option_map, true};
ghost use Rattle.std.specs.List.{AllByRecursion};
ghost use Rattle.bench_model.specs.Boards.{IsBoard};
ghost use Rattle.cap_boot.specs.Closing.{unit_work};
ghost use Rattle.cap_boot.specs.Faults.{HasFlashCause};
ghost use Rattle.cap_boot.specs.Given.{setting};
ghost use Rattle.cap_boot.specs.Going.{Goes, IsAny, nothing};
ghost use Rattle.cap_boot.specs.Keeps.{KeepsUnit};
ghost use Rattle.cap_boot.specs.Situations.{IsReady, situation};
ghost use Rattle.cap_boot.specs.Stands.{HasRegions, KeepsRegions};
ghost use Rattle.cap_boot.specs.Units.{HasTarget, decoded_tasks, delivery_key, delivery_of};
ghost use Rattle.cap_boot.specs.Units.{device_of, listed_tasks, listed_unit};
ghost use Rattle.capsule_grammar.specs.declared.all.TheConstants.{MAX_CAPSULES};
ghost use Rattle.delivery_formats.specs.Seen.{machine_capsule};
ghost use Rattle.stored_vars.specs.Records.{is_key_name};

use crate::BootFault;
use crate::trying::do_try;
use crate::unit_list::{DeliveryUnit, Matter, Source, units_of};
use crate::untried::close_untried;
use bench_model::{Board, Platform};
use capsule_grammar::Capsules;
use cu_base::{EfiTime, NoMemory, Text, Ticket};
use fmp_slot::SlotForm;
use reference_machine::{Report, UnitKey};
use std::alloc::Global;
use var_store::VarStore;

/// The number that stands for no device.
const NO_DEVICE: u8 = 255;

/// The number of the device of a unit, 255 where it has none.
fn device_of(unit: &DeliveryUnit<'_>) -> u8
    ensures { result ≡ device_of unit.now.matter }
{
    match unit.matter {
        Matter::Bad => NO_DEVICE,
        Matter::Skip => NO_DEVICE,
        Matter::NoTarget(_) => NO_DEVICE,
        Matter::Try(_, device) => device,
    }
}

/// The key of the unit of this number of a source.
fn key_of(
    alloc: Global,
    source: &Source<'_>,
    number: u32,
    unit: &DeliveryUnit<'_>,
) -> Result<UnitKey, NoMemory>
    ensures key { IfOk result (λ key. key
        ≡ (listed_unit (delivery_of source.now) number unit.now).key) }
    ensures name { IfOk result (λ key. key.name ≡ source.now.name.now) }
    ensures device { IfOk result (λ key. key.device ≡ device_of unit.now.matter) }
{
    Ok(UnitKey {
        ticket: Ticket {
            route: source.route,
            capsule: unit.capsule,
            item: unit.item,
            serial: source.serial,
        },
        unit: number,
        device: device_of(unit),
        name: Text::from_str(alloc, source.name)?,
    })
}

/// Does the unit of this number of a source: it is tried on its device, or closed where it starts
/// no SetImage.
pub(crate) fn do_unit<W: Platform, S: SlotForm>(
    alloc: Global,
    board: &Board,
    now: &EfiTime,
    form: &S,
    bench: &mut W,
    store: &mut VarStore,
    report: &mut Report,
    source: &Source<'_>,
    number: u32,
    unit: &DeliveryUnit<'_>,
) -> Result<(), BootFault>
    requires ready { IsReady store.old (W.state bench.old) }
    requires regions { HasRegions S.size_of board.now (W.state bench.old) }
    requires rule { IsBoard board.now }
    requires name { is_key_name source.now.name.now ≡ true }
    requires target { HasTarget board.now unit.now.matter }
    ensures ready { OnOk result (IsReady store.new (W.state bench.new)) }
    ensures frame { KeepsRegions (W.state bench.old) (W.state bench.new) }
    ensures folder { (W.state bench.new).contents.rest.folder
        ≡ (W.state bench.old).contents.rest.folder }
    ensures does { Goes (setting board.now now.now S.slot_of) IsAny
        (KeepsUnit (listed_unit (delivery_of source.now) number unit.now).key)
        (unit_work (listed_unit (delivery_of source.now) number unit.now)) nothing
        (situation store.old (W.state bench.old) report.old) result
        (situation store.new (W.state bench.new) report.new) }
    ensures cause { HasFlashCause (W.state bench.old) (W.state bench.new) result }
{
    let key = key_of(alloc, source, number, unit)?;
    match unit.matter {
        Matter::Try(image, _) => {
            do_try(
                alloc, board, now, form, bench, store, report, key, &unit.guid, image,
            )?
        }
        Matter::Bad | Matter::Skip | Matter::NoTarget(_) => {
            close_untried(alloc, board, now, bench, store, report, key, unit)?
        }
    }
    Ok(())
}

/// Does the units of a list of a source, one after another, from a number on.
pub(crate) fn do_units<W: Platform, S: SlotForm>(
    alloc: Global,
    board: &Board,
    now: &EfiTime,
    form: &S,
    bench: &mut W,
    store: &mut VarStore,
    report: &mut Report,
    source: &Source<'_>,
    units: &[DeliveryUnit<'_>],
    from: u32,
) -> Result<(), BootFault>
    requires ready { IsReady store.old (W.state bench.old) }
    requires regions { HasRegions S.size_of board.now (W.state bench.old) }
    requires rule { IsBoard board.now }
    requires name { is_key_name source.now.name.now ≡ true }
    requires few { length units.now < 2 ^ 32 }
    requires targets { AllByRecursion (λ u. HasTarget board.now u.matter) units.now }
    ensures ready { OnOk result (IsReady store.new (W.state bench.new)) }
    ensures frame { KeepsRegions (W.state bench.old) (W.state bench.new) }
    ensures folder { (W.state bench.new).contents.rest.folder
        ≡ (W.state bench.old).contents.rest.folder }
    ensures does { Goes (setting board.now now.now S.slot_of) IsAny
        (KeepsUnit (delivery_key (delivery_of source.now)))
        (listed_tasks (delivery_of source.now) units.now from) nothing
        (situation store.old (W.state bench.old) report.old) result
        (situation store.new (W.state bench.new) report.new) }
    ensures cause { HasFlashCause (W.state bench.old) (W.state bench.new) result }
{
    let mut at = from as usize;
    while at < units.len() {
        do_unit(
            alloc, board, now, form, bench, store, report, source, at as u32, &units[at],
        )?;
        at += 1;
    }
    Ok(())
}

/// Does the units of the capsules of a source from a number on, or the one of a source whose bytes
/// were refused.
pub(crate) fn do_capsules<W: Platform, S: SlotForm>(
    alloc: Global,
    board: &Board,
    now: &EfiTime,
    form: &S,
    bench: &mut W,
    store: &mut VarStore,
    report: &mut Report,
    source: &Source<'_>,
    capsules: Option<&Capsules>,
    from: u32,
) -> Result<(), BootFault>
    requires ready { IsReady store.old (W.state bench.old) }
    requires regions { HasRegions S.size_of board.now (W.state bench.old) }
    requires rule { IsBoard board.now }
    requires name { is_key_name source.now.name.now ≡ true }
    requires few { IfSome capsules (λ c. length c.now.items ≤ MAX_CAPSULES) }
    ensures ready { OnOk result (IsReady store.new (W.state bench.new)) }
    ensures frame { KeepsRegions (W.state bench.old) (W.state bench.new) }
    ensures folder { (W.state bench.new).contents.rest.folder
        ≡ (W.state bench.old).contents.rest.folder }
    ensures does { Goes (setting board.now now.now S.slot_of) IsAny
        (KeepsUnit (delivery_key (delivery_of source.now)))
        (decoded_tasks (delivery_of source.now)
        (option_map (λ c. map machine_capsule c.now.items) capsules.entry) from) nothing
        (situation store.old (W.state bench.old) report.old) result
        (situation store.new (W.state bench.new) report.new) }
    ensures cause { HasFlashCause (W.state bench.old) (W.state bench.new) result }
{
    let units = units_of(alloc, board, capsules)?;
    do_units(
        alloc,
        board,
        now,
        form,
        bench,
        store,
        report,
        source,
        units.as_slice(),
        from,
    )?;
    Ok(())
}
