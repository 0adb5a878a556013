ghost use Rattle.std.specs.Prelude.{◌<◌, IsTrue};
ghost use Rattle.bench_model.specs.Names.{is_device_name};

use crate::{Board, Device, Devices, Digests, LayFault, VolumeFault, is_device_name};
use cu_base::{Digest, Guid, Text};
use std::alloc::Global;
use std::process::Abort;

#[test]
fn names_of_devices(rt: HostRuntime) {
    for (name, want) in [
        ("", false),
        ("s", true),
        ("A.z_9-0", true),
        ("abcdefghijklmnop", true),
        ("abcdefghijklmnopq", false),
        ("sys ec", false),
        ("sys/ec", false),
        ("sys:ec", false),
        ("s[y]s", false),
        ("s{y}s", false),
        ("s\u{e9}s", false),
    ] {
        assert_eq!(rt; is_device_name(name), want, "at {name}");
    }
}

fn device(alloc: Global, rt: &impl Abort, name: &str, instance: u64) -> Device
    requires named { IsTrue (is_device_name name.now) }
    requires below { instance < 2 }
{
    Device {
        name: Text::from_str(alloc, name).expect(rt, "memory"),
        type_id: Guid { bytes: [7; 16] },
        index: 1,
        instance,
        fw_type: 2,
        capacity: 65_536,
        version: 7,
        floor: 6,
        flags: 5,
    }
}

#[test]
fn devices_of_a_board(rt: HostRuntime) {
    let alloc = rt.alloc();
    let mut devices = Devices::new(alloc);
    assert!(rt; devices.is_empty());
    assert!(rt; devices.reserve(2).is_ok());
    assert!(rt; is_device_name("sys"));
    let first = device(alloc, &rt, "sys", 0);
    assert!(rt; !devices.has_name(first.name.as_str()));
    assert!(rt; !devices.has_triple(&first.type_id, first.index, first.instance));
    assert!(rt; devices.push(first).is_ok());
    assert!(rt; devices.has_name("sys"));
    assert!(rt; !devices.has_name("ec"));
    let type_id = Guid { bytes: [7; 16] };
    assert!(rt; devices.has_triple(&type_id, 1, 0));
    assert!(rt; !devices.has_triple(&type_id, 1, 1));
    assert!(rt; !devices.has_triple(&type_id, 2, 0));
    assert!(rt; !devices.has_triple(&Guid { bytes: [8; 16] }, 1, 0));
    assert_eq!(rt; devices.len(), 1);
    assert!(rt; devices.at(0).is_some());
    assert!(rt; devices.at(1).is_none());
}

#[test]
fn faults_are_told_in_words(rt: HostRuntime) {
    let alloc = rt.alloc();
    for (fault, want) in [
        (VolumeFault::Failed, "the volume failed"),
        (VolumeFault::Full, "the folder takes no further file"),
        (VolumeFault::Memory, "out of memory"),
    ] {
        let shown = format!(in alloc; "{fault}").expect(&rt, "memory");
        assert_eq!(rt; shown.as_str(), want);
    }
    for (fault, want) in [
        (LayFault::Wraps, "the bytes reach the last address"),
        (LayFault::Full, "the memory takes no further segment"),
        (LayFault::Memory, "out of memory"),
    ] {
        let shown = format!(in alloc; "{fault}").expect(&rt, "memory");
        assert_eq!(rt; shown.as_str(), want);
    }
}
