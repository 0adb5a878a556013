//! The units of a delivery, in order (UEFI 2.10, 8.5.3 and 23.3).

ghost use Rattle.std.specs.Prelude.{◌≡◌, ◌≤◌, ◌<◌, ◌++◌, IfOk, OnOk, Some, length, map};
ghost use Rattle.std.specs.Prelude.{IfSome, flat_map, option_map};
ghost use Rattle.std.specs.List.{AllByRecursion, enumerate_from};
ghost use Rattle.cap_boot.specs.Units.{HasTarget, boot_unit};
ghost use Rattle.capsule_grammar.specs.declared.all.TheConstants.{MAX_CAPSULES};
ghost use Rattle.delivery_formats.specs.Seen.{machine_capsule, machine_head, machine_item};
ghost use Rattle.reference_machine.specs.Deliveries.{Delivery, capsule_units, decoded_units};
ghost use Rattle.reference_machine.specs.Deliveries.{is_passed_over, is_target, item_unit};
ghost use Rattle.reference_machine.specs.Deliveries.{item_units, targets};
ghost use Rattle.reference_machine.specs.declared.unit.Kind.TheVariants as kind;

use bench_model::{Board, Device};
use capsule_grammar::{Body, Capsule, Capsules, Image, is_fmp_guid};
use cu_base::{Guid, Items, NoMemory};
use reference_machine::MAX_CAPSULE_ITEMS;
use std::alloc::Global;

/// What a unit is of.
#[derive(Clone, Copy)]
pub(crate) enum Matter<'a> {
    /// A delivery that holds no capsules which can be read.
    Bad,
    /// A capsule that is passed over.
    Skip,
    /// An item that has no target.
    NoTarget(&'a Image),
    /// An item and the number of the device on which it is tried.
    Try(&'a Image, u8),
}

/// A unit of a delivery.
#[derive(Clone, Copy)]
pub(crate) struct DeliveryUnit<'a> {
    /// The number of the capsule in the delivery.
    pub(crate) capsule: u8,
    /// The number of the item in the capsule, 0 where the unit is of no item.
    pub(crate) item: u8,
    /// The GUID of the capsule, zeros where nothing could be read.
    pub(crate) guid: Guid,
    pub(crate) matter: Matter<'a>,
}

/// What units are of.
#[derive(Clone, Copy)]
pub(crate) struct Source<'a> {
    /// 0 is memory, 1 is disk.
    pub(crate) route: u8,
    pub(crate) serial: u64,
    /// The name of the file, empty for a delivery by memory.
    pub(crate) name: &'a str,
}

/// A list of units.
pub(crate) type Units<'a> = Items<DeliveryUnit<'a>>;

/// The GUID of zeros.
pub(crate) const NO_GUID: Guid = Guid { bytes: [0; 16] };

/// The numbers of devices.
type Numbers = Items<u8>;

/// The units of the capsules of a delivery: one where its bytes were refused.
pub(crate) fn units_of<'a>(
    alloc: Global,
    board: &Board,
    capsules: Option<&'a Capsules>,
) -> Result<Units<'a>, NoMemory>
    requires few { IfSome capsules (λ c. length c.now.items ≤ MAX_CAPSULES) }
    ensures value { (d : Delivery) → IfOk result (λ units. map (boot_unit d) units.items
        ≡ decoded_units board.now d
        (option_map (λ c. map machine_capsule c.now.items) capsules.entry)) }
    ensures targets { IfOk result
        (λ units. AllByRecursion (λ u. HasTarget board.now u.matter) units.items) }
{
    let mut units = Units::new(alloc);
    match capsules {
        Some(capsules) => push_capsules(alloc, board, capsules.as_slice(), &mut units)?,
        None => units.push(DeliveryUnit {
            capsule: 0,
            item: 0,
            guid: NO_GUID,
            matter: Matter::Bad,
        })?,
    }
    Ok(units)
}

/// Appends the units of the capsules of a delivery.
fn push_capsules<'a>(
    alloc: Global,
    board: &Board,
    capsules: &'a [Capsule],
    units: &mut Units<'a>,
) -> Result<(), NoMemory>
    requires few { length capsules.now ≤ MAX_CAPSULES }
    requires targets { AllByRecursion (λ u. HasTarget board.now u.matter) units.old.items }
    ensures ok { (d : Delivery) → OnOk result (map (boot_unit d) units.new.items
        ≡ map (boot_unit d) units.old.items
        ++ decoded_units board.now d (Some (map machine_capsule capsules.now))) }
    ensures targets { OnOk result
        (AllByRecursion (λ u. HasTarget board.now u.matter) units.new.items) }
{
    for number in 0..capsules.len() {
        push_capsule(alloc, board, number as u8, &capsules[number], units)?;
    }
    Ok(())
}

/// Appends the units of a capsule of a delivery.
fn push_capsule<'a>(
    alloc: Global,
    board: &Board,
    number: u8,
    capsule: &'a Capsule,
    units: &mut Units<'a>,
) -> Result<(), NoMemory>
    requires targets { AllByRecursion (λ u. HasTarget board.now u.matter) units.old.items }
    ensures ok { (d : Delivery) → OnOk result (map (boot_unit d) units.new.items
        ≡ map (boot_unit d) units.old.items
        ++ capsule_units board.now d (number, machine_capsule capsule.now)) }
    ensures targets { OnOk result
        (AllByRecursion (λ u. HasTarget board.now u.matter) units.new.items) }
{
    if is_passed_over(capsule) {
        units.push(DeliveryUnit {
            capsule: number,
            item: 0,
            guid: capsule.guid,
            matter: Matter::Skip,
        })?;
    } else {
        push_items(
            alloc,
            board,
            number,
            &capsule.guid,
            images_of(capsule),
            units,
        )?;
    }
    Ok(())
}

/// Whether the platform passes over a capsule: it is of another GUID, with drivers, without items,
/// or with too many.
fn is_passed_over(capsule: &Capsule) -> bool
    ensures { result ≡ is_passed_over (machine_capsule capsule.now) }
{
    !is_fmp_guid(&capsule.guid)
        || driver_count(capsule) != 0
        || images_of(capsule).is_empty()
        || images_of(capsule).len() > MAX_CAPSULE_ITEMS
}

/// The number of the drivers of a capsule.
fn driver_count(capsule: &Capsule) -> usize
    ensures { result ≡ (machine_capsule capsule.now).drivers }
{
    match &capsule.body {
        Body::Other(_) => 0,
        Body::Fmp(body) => body.drivers.len(),
    }
}

/// The image items of a capsule.
fn images_of(capsule: &Capsule) -> &[Image]
    ensures { map machine_item result.now ≡ (machine_capsule capsule.now).items }
{
    match &capsule.body {
        Body::Other(_) => &[],
        Body::Fmp(body) => body.images.as_slice(),
    }
}

/// Appends the units of the items of a capsule.
fn push_items<'a>(
    alloc: Global,
    board: &Board,
    capsule: u8,
    guid: &Guid,
    images: &'a [Image],
    units: &mut Units<'a>,
) -> Result<(), NoMemory>
    requires few { length images.now ≤ 16 }
    requires targets { AllByRecursion (λ u. HasTarget board.now u.matter) units.old.items }
    ensures ok { (d : Delivery) → OnOk result (map (boot_unit d) units.new.items
        ≡ map (boot_unit d) units.old.items ++ flat_map (item_units board.now d capsule guid.now)
        (enumerate_from 0 (map machine_item images.now))) }
    ensures targets { OnOk result
        (AllByRecursion (λ u. HasTarget board.now u.matter) units.new.items) }
{
    for item in 0..images.len() {
        push_item(
            alloc,
            board,
            capsule,
            guid,
            item as u8,
            &images[item],
            units,
        )?;
    }
    Ok(())
}

/// Appends the units of an item: one try for each target, or that there is none.
fn push_item<'a>(
    alloc: Global,
    board: &Board,
    capsule: u8,
    guid: &Guid,
    item: u8,
    image: &'a Image,
    units: &mut Units<'a>,
) -> Result<(), NoMemory>
    requires targets { AllByRecursion (λ u. HasTarget board.now u.matter) units.old.items }
    ensures ok { (d : Delivery) → OnOk result (map (boot_unit d) units.new.items
        ≡ map (boot_unit d) units.old.items
        ++ item_units board.now d capsule guid.now (item, machine_item image.now)) }
    ensures targets { OnOk result
        (AllByRecursion (λ u. HasTarget board.now u.matter) units.new.items) }
{
    let targets = targets_of(alloc, board, image)?;
    if targets.is_empty() {
        units.push(DeliveryUnit {
            capsule,
            item,
            guid: *guid,
            matter: Matter::NoTarget(image),
        })?;
    } else {
        push_tries(board, capsule, guid, item, image, targets.as_slice(), units)?;
    }
    Ok(())
}

/// Appends one try of an item for each target.
fn push_tries<'a>(
    board: &Board,
    capsule: u8,
    guid: &Guid,
    item: u8,
    image: &'a Image,
    targets: &[u8],
    units: &mut Units<'a>,
) -> Result<(), NoMemory>
    requires there { AllByRecursion (λ t. t < length board.now.devices) targets.now }
    requires targets { AllByRecursion (λ u. HasTarget board.now u.matter) units.old.items }
    ensures ok { (d : Delivery) → OnOk result (map (boot_unit d) units.new.items
        ≡ map (boot_unit d) units.old.items
        ++ map (item_unit d capsule guid.now (item, machine_item image.now) kind.Try)
        targets.now) }
    ensures targets { OnOk result
        (AllByRecursion (λ u. HasTarget board.now u.matter) units.new.items) }
{
    for device in targets {
        units.push(DeliveryUnit {
            capsule,
            item,
            guid: *guid,
            matter: Matter::Try(image, *device),
        })?;
    }
    Ok(())
}

/// The numbers of the targets of an item, in board order.
fn targets_of(alloc: Global, board: &Board, image: &Image) -> Result<Numbers, NoMemory>
    ensures value { IfOk result
        (λ list. list.items ≡ targets (machine_head image.now.header) board.now) }
    ensures there { IfOk result
        (λ list. AllByRecursion (λ t. t < length board.now.devices) list.items) }
{
    let devices = board.devices();
    let mut list = Numbers::new(alloc);
    for number in 0..devices.len() {
        if is_target(image, &devices[number]) {
            list.push(number as u8)?;
        }
    }
    Ok(list)
}

/// Whether a device is a target of an item: the same type and index and, unless the item's instance
/// is 0 or its header has version 1, the same instance.
fn is_target(image: &Image, device: &Device) -> bool
    ensures { result ≡ is_target (machine_head image.now.header) device.now }
{
    let header = &image.header;
    header.type_id.bytes == device.type_id.bytes
        && header.index == device.index
        && (header.instance == 0 || header.version == 1 || header.instance == device.instance)
}
