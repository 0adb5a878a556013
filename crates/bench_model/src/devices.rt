ghost use Rattle.std.specs.Prelude.{◌≡◌, ◌==◌, false, ◌+◌, ◌≤◌, ◌<◌, [], ◌∷◌, ◌++◌, length, OnOk};
ghost use Rattle.std.specs.Prelude.{OnErr, IsOk, slice_get, option_copied};

use crate::Device;
use cu_base::{Guid, Items, NoMemory};
use std::alloc::Global;
use std::marker::Model;

/// Devices with distinct names and distinct triples of type, index and instance.
#[derive(Drop)]
pub struct Devices {
    list: Items<Device>,
}

impl Model for Devices {
    ghost use Rattle.bench_model.specs.Devices.{DeviceValue, AreDevices};
    ghost use Rattle.cu_base.specs.Kept.{Kept};

    ghost Value = { Kept DeviceValue };

    ghost view = { λ a. a.list };

    ghost invariant = { λ a. AreDevices a.list.items };
}

impl Devices {
    ghost use Rattle.bench_model.specs.Devices.{AreDevices, has_name, has_triple};

    /// No devices. It takes no memory.
    pub fn new(alloc: Global) -> Devices
        ensures { result.items ≡ [] }
    {
        Devices {
            list: Items::new(alloc),
        }
    }

    /// Whether a device has this name.
    pub fn has_name(&self, name: &str) -> bool
        ensures { result ≡ has_name name.now self.now.items }
    {
        self.list.as_slice().iter().any(|d| d.name.as_str() == name)
    }

    /// Whether a device has this type, index and instance.
    pub fn has_triple(&self, type_id: &Guid, index: u8, instance: u64) -> bool
        ensures { result ≡ has_triple type_id.now index instance self.now.items }
    {
        self.list.as_slice().iter().any(|d| d.type_id.bytes == type_id.bytes
            && d.index == index
            && d.instance == instance)
    }

    /// Appends a device. It is Ok wherever `spare` is at least 1.
    pub fn push(&mut self, device: Device) -> Result<(), NoMemory>
        requires name { has_name device.name self.old.items ≡ false }
        requires triple { has_triple device.type_id device.index device.instance self.old.items
            ≡ false }
        ensures ok { OnOk result (self.new.items ≡ self.old.items ++ device ∷ []) }
        ensures spare { OnOk result (self.old.spare ≤ self.new.spare + 1) }
        ensures enough { 0 < self.old.spare → IsOk result }
        ensures err { OnErr result (self.new ≡ self.old) }
    {
        let _name = &device.name;
        self.list.push(device)?;
        Ok(())
    }

    /// Makes room for `n` further devices.
    pub fn reserve(&mut self, n: usize) -> Result<(), NoMemory>
        ensures frame { self.new.items ≡ self.old.items }
        ensures ok { OnOk result (n ≤ self.new.spare) }
        ensures spare { self.old.spare ≤ self.new.spare }
        ensures enough { n ≤ self.old.spare → IsOk result }
        ensures err { OnErr result (self.new ≡ self.old) }
    {
        self.list.reserve(n)
    }

    /// How many devices there are.
    pub fn len(&self) -> usize
        ensures { result ≡ length self.now.items }
    {
        self.list.len()
    }

    /// Whether there is no device.
    pub fn is_empty(&self) -> bool
        ensures { result ≡ (length self.now.items == 0) }
    {
        self.list.is_empty()
    }

    /// Device `i`, and None exactly where `i` is not below the length.
    pub fn at(&self, i: usize) -> Option<&Device>
        ensures value { option_copied result ≡ slice_get self.now.items i }
        ensures rule { AreDevices self.now.items }
    {
        self.list.at(i)
    }

    /// The devices as a slice.
    pub fn as_slice(&self) -> &[Device]
        ensures value { result.now ≡ self.now.items }
        ensures rule { AreDevices self.now.items }
    {
        self.list.as_slice()
    }
}
