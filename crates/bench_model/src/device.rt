use cu_base::{Guid, Text};
use std::marker::Model;

/// A device of a board, with its factory state. Contracts see the record of its fields.
#[derive(Drop)]
pub struct Device {
    /// 1 to 16 of ASCII letters, digits, `.`, `_` and `-`.
    pub name: Text,
    /// UpdateImageTypeId of its images, FwClass of its ESRT entry.
    pub type_id: Guid,
    /// UpdateImageIndex of its images.
    pub index: u8,
    /// Its hardware instance, below 2^63.
    pub instance: u64,
    /// FwType of its ESRT entry, 0 to 3.
    pub fw_type: u32,
    /// The most bytes of a payload, 1 to 67,108,864.
    pub capacity: u32,
    /// The version of its factory image.
    pub version: u32,
    /// The lowest supported version of its factory image.
    pub floor: u32,
    /// CapsuleFlags of its ESRT entry.
    pub flags: u32,
}

impl Model for Device {
    ghost use Rattle.bench_model.specs.Devices.{DeviceValue, IsDevice, device};

    ghost Value = { DeviceValue };

    ghost view = { λ d. device d.name d.type_id d.index d.instance
        d.fw_type d.capacity d.version d.floor d.flags };

    ghost invariant = { λ d. IsDevice (device d.name d.type_id d.index d.instance
        d.fw_type d.capacity d.version d.floor d.flags) };
}
