ghost use Rattle.std.specs.Prelude.{◌≡◌, ◌∷◌, length, ℕ, List, IfOk};
ghost use Rattle.std.specs.List.{zip, list_any};
ghost use Rattle.std.specs.Str.{bytes_eq};
ghost use Rattle.bench_model.specs.Devices.{DeviceValue};
ghost use Rattle.report_tables.specs.Entries.{Installed, entries_of, entry_of, entry_with};
ghost use Rattle.report_tables.specs.Entries.{attempt_of, told_attempt};

use crate::{Esrt, EsrtEntry};
use bench_model::{Board, Device};
use cu_base::{DevState, Items, NoMemory};
use std::alloc::Global;

/// The EFI System Resource Table of a board whose devices are in these states: one entry for each
/// type id, in order of first appearance on the board. Its version is the least of its devices, its
/// lowest supported version the greatest floor in force, type and flags are those of the first
/// device, and the last attempt that of the first device whose last status is not 0, else that of
/// the first device (UEFI 2.10, 23.4).
pub fn esrt_of(alloc: Global, board: &Board, states: &[DevState]) -> Result<Esrt, NoMemory>
    requires states { length states.now ≡ length board.now.devices }
    ensures value { IfOk result (λ esrt. esrt.entries.items ≡ entries_of board.now states.now) }
{
    let devices = board.devices();
    let mut entries = Items::new(alloc);
    entries.reserve(devices.len())?;
    for k in 0..devices.len() {
        let first = &devices[k];
        if has_type(&devices[..k], first) {
            continue;
        }
        entries.push(entry_of(first, &states[k], &devices[k + 1..], &states[k + 1..]))?;
    }
    Ok(Esrt { entries })
}

/// Whether one of the devices has the type of this one.
fn has_type(devices: &[Device], device: &Device) -> bool
    ensures value { result
        ≡ list_any (λ d. bytes_eq device.now.type_id.bytes d.type_id.bytes) devices.now }
{
    devices.iter().any(|other| is_same_type(device, other))
}

/// Whether two devices have one type.
fn is_same_type(device: &Device, other: &Device) -> bool
    ensures value { result ≡ bytes_eq device.now.type_id.bytes other.now.type_id.bytes }
{
    device.type_id.bytes == other.type_id.bytes
}

/// The entry of a type by its first device and those that stand behind it.
fn entry_of(first: &Device, state: &DevState, rest: &[Device], states: &[DevState]) -> EsrtEntry
    requires states { length states.now ≡ length rest.now }
    ensures value { result ≡ entry_of (first.now, state.now) (zip rest.now states.now) }
{
    let mut entry = EsrtEntry {
        class: first.type_id,
        fw_type: first.fw_type,
        version: state.version,
        lowest: state.floor,
        flags: first.flags,
        last_version: state.last_version,
        last_status: state.last_status,
    };
    for k in 0..rest.len() {
        let device = &rest[k];
        if is_same_type(first, device) {
            entry = join(entry, &states[k]);
        }
    }
    entry
}

/// The entry with one more device of its type.
fn join(entry: EsrtEntry, state: &DevState) -> EsrtEntry
    ensures value { (d : DeviceValue) (others : List Installed) →
        entry_with result others ≡ entry_with entry ((d, state.now) ∷ others) }
{
    let (last_version, last_status) = told_attempt(&entry, state);
    EsrtEntry {
        version: state.version.min(entry.version),
        lowest: state.floor.max(entry.lowest),
        last_version,
        last_status,
        ..entry
    }
}

/// Version and status of the attempt that is told of an entry and one more device.
fn told_attempt(entry: &EsrtEntry, state: &DevState) -> (u32, u32)
    ensures value { (rest : List (ℕ × ℕ)) → told_attempt result rest
        ≡ told_attempt (entry.now.last_version, entry.now.last_status)
        (attempt_of state.now ∷ rest) }
{
    if entry.last_status == 0 && state.last_status != 0 {
        (state.last_version, state.last_status)
    } else {
        (entry.last_version, entry.last_status)
    }
}
