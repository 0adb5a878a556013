//! The board of one device that tests share.

ghost use Rattle.std.specs.Prelude.{◌≡◌};

use bench_model::{Board, Device, Devices, is_device_name};
use cu_base::{Guid, Items, Text};
use std::alloc::Global;
use std::process::Abort;

/// The type of the device.
pub(crate) const SYS: [u8; 16] = [0xAA, 0xAA, 0xAA, 0xAA, 0, 0, 0, 0, 0, 0, 0, 0, 0, 0, 0, 1];

pub(crate) fn text(alloc: Global, rt: &impl Abort, s: &str) -> Text
    ensures { result ≡ s.now }
{
    Text::from_str(alloc, s).expect(rt, "memory")
}

/// A board of the device `sys` of index 1 and this instance, of version 3 and floor 2.
pub(crate) fn board(alloc: Global, rt: &impl Abort, instance: u64) -> Board {
    let mut devices = Devices::new(alloc);
    let name = text(alloc, rt, "sys");
    assert!(rt; is_device_name(name.as_str()));
    assert!(rt; instance < 0x8000_0000_0000_0000);
    let device = Device {
        name,
        type_id: Guid { bytes: SYS },
        index: 1,
        instance,
        fw_type: 1,
        capacity: 65_536,
        version: 3,
        floor: 2,
        flags: 0,
    };
    assert!(rt; !devices.has_name(device.name.as_str()));
    assert!(rt; !devices.has_triple(&device.type_id, device.index, device.instance));
    assert!(rt; devices.push(device).is_ok());
    assert_eq!(rt; devices.as_slice().len(), 1);
    Board::new(65_536, 2, false, 15, Items::new(alloc), devices)
}
