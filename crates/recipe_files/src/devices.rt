ghost use Rattle.std.specs.Prelude.{◌≡◌, ◌≤◌, Some, None, [], ◌∷◌, ◌++◌, MatchResult, map};
ghost use Rattle.toml.specs.View.{view, table_view};
ghost use Rattle.recipe_files.specs.Devices.{Adds, AreRead, IsFactory, device_in, device_of};
ghost use Rattle.recipe_files.specs.Devices.{entries_test, entry_test, factory_test, room_test};
ghost use Rattle.recipe_files.specs.Devices.{table_test};
ghost use Rattle.recipe_files.specs.Faults.{Reads};

use crate::faults::{BadKind, Fault, Stop};
use crate::keys::Key;
use crate::values::{guid_at, name_at, number_at};
use bench_model::{Device, Devices, MAX_CAPACITY, MAX_FW_TYPE, MAX_INSTANCE, MIN_CAPACITY};
use cu_base::Text;
use std::alloc::Global;
use toml::value::Array;
use toml::{Table, Value};

/// The numbers of a device's factory state.
#[derive(Clone, Copy)]
struct Factory {
    fw_type: u32,
    capacity: u32,
    version: u32,
    floor: u32,
    flags: u32,
}

/// Whether so many bytes of capacity are left on the board.
#[tactic(auto, unfolding(crate::specs::Devices::room_test))]
fn check_room(capacity: u64, room: u32) -> Result<(), Fault>
    ensures { MatchResult result
        (λ _. (room_test room capacity ≡ None) × (capacity ≤ room))
        (λ fault. room_test room capacity ≡ Some fault) }
{
    if u64::from(room) < capacity {
        return Err(Fault {
            kind: BadKind::OutOfRange,
            key: Key::Capacity,
        });
    }
    Ok(())
}

/// The factory state in a table, where so many bytes of capacity are left on the board.
#[tactic(auto, using(crate::proofs::FaultLemmas::factory_test_is))]
fn factory_at(table: &Table, room: u32) -> Result<Factory, Fault>
    ensures { MatchResult result
        (λ factory. IsFactory room (table_view table.now) factory)
        (λ fault. factory_test room (table_view table.now) ≡ Some fault) }
{
    let fw_type = number_at(table, Key::FwType, 0, u64::from(MAX_FW_TYPE))?;
    let capacity = number_at(
        table,
        Key::Capacity,
        u64::from(MIN_CAPACITY),
        u64::from(MAX_CAPACITY),
    )?;
    check_room(capacity, room)?;
    let version = number_at(table, Key::Version, 0, u64::from(u32::MAX))?;
    let floor = number_at(table, Key::Floor, 0, u64::from(u32::MAX))?;
    let flags = number_at(table, Key::Flags, 0, u64::from(u32::MAX))?;
    Ok(Factory {
        fw_type: fw_type as u32,
        capacity: capacity as u32,
        version: version as u32,
        floor: floor as u32,
        flags: flags as u32,
    })
}

/// Reads a table and appends its device, where so many bytes of capacity are left on the board.
/// It tells what is left behind it.
#[tactic(auto, using(crate::proofs::FaultLemmas::table_test_is))]
fn add_device(alloc: Global, devices: &mut Devices, table: &Table, room: u32) -> Result<u32, Stop>
    ensures { Reads (table_test room devices.old.items (table_view table.now))
        (Adds devices.old.items (device_in (table_view table.now)) devices.new.items room)
        result }
{
    let name = name_at(table, Key::Name)?;
    if devices.has_name(name) {
        return Err(Stop::Bad(Fault {
            kind: BadKind::Repeated,
            key: Key::Name,
        }));
    }
    let type_id = guid_at(table, Key::TypeId)?;
    let index = number_at(table, Key::Index, 0, u64::from(u8::MAX))? as u8;
    let instance = number_at(table, Key::Instance, 0, MAX_INSTANCE)?;
    if devices.has_triple(&type_id, index, instance) {
        return Err(Stop::Bad(Fault {
            kind: BadKind::Repeated,
            key: Key::Instance,
        }));
    }
    let factory = factory_at(table, room)?;
    devices.push(Device {
        name: Text::from_str(alloc, name)?,
        type_id,
        index,
        instance,
        fw_type: factory.fw_type,
        capacity: factory.capacity,
        version: factory.version,
        floor: factory.floor,
        flags: factory.flags,
    })?;
    Ok(room - factory.capacity)
}

/// Reads an entry of the list and appends its device, where so much capacity is left. It tells what
/// is left behind it.
#[tactic(auto, unfolding(crate::specs::Devices::entry_test, crate::specs::Devices::table_test, crate::specs::Devices::device_of))]
fn add_entry(alloc: Global, devices: &mut Devices, entry: &Value, room: u32) -> Result<u32, Stop>
    ensures { Reads (entry_test room devices.old.items (view entry.now))
        (Adds devices.old.items (device_of (view entry.now)) devices.new.items room)
        result }
{
    match entry.as_table() {
        Some(table) => add_device(alloc, devices, table, room),
        None => Err(Stop::Bad(Fault {
            kind: BadKind::WrongKind,
            key: Key::Device,
        })),
    }
}

/// The devices of a list, whose capacities have at most so many bytes in sum.
#[tactic(auto, using(crate::proofs::FaultLemmas::entries_test_is))]
pub(crate) fn read_devices(alloc: Global, list: &Array, most: u32) -> Result<Devices, Stop>
    ensures { Reads (entries_test most (map view list.now.items))
        (AreRead (map view list.now.items) most)
        result }
{
    let mut devices = Devices::new(alloc);
    let mut room = most;
    for entry in list {
        room = add_entry(alloc, &mut devices, entry, room)?;
    }
    Ok(devices)
}
