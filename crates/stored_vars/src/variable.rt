//! The variables of the platform by name, GUID and attributes.

ghost use Rattle.std.specs.Prelude.{◌≡◌, ◌<◌, IfOk, IsTrue};
ghost use Rattle.stored_vars.specs.Variables.{attributes_of, guid_of, is_fixed, is_variable};
ghost use Rattle.stored_vars.specs.Variables.{device_name, name_of, stage_name};

use crate::{EFI_CAPSULE_REPORT_GUID, EFI_GLOBAL_VARIABLE, PLATFORM_GUID};
use cu_base::{Guid, NoMemory, Text};
use report_tables::result_name;
use std::alloc::Global;

/// The variable stays when power is off (UEFI 2.10, 8.2).
pub const EFI_VARIABLE_NON_VOLATILE: u32 = 1;

/// The variable is there before the operating system runs (UEFI 2.10, 8.2).
pub const EFI_VARIABLE_BOOTSERVICE_ACCESS: u32 = 2;

/// The variable is there while the operating system runs (UEFI 2.10, 8.2).
pub const EFI_VARIABLE_RUNTIME_ACCESS: u32 = 4;

/// The attributes of the platform's own variables.
const OWN: u32 = EFI_VARIABLE_NON_VOLATILE | EFI_VARIABLE_BOOTSERVICE_ACCESS;

/// The attributes of the variables that the operating system sees.
const SEEN: u32 = EFI_VARIABLE_NON_VOLATILE
    | EFI_VARIABLE_BOOTSERVICE_ACCESS
    | EFI_VARIABLE_RUNTIME_ACCESS;

/// A variable of the platform.
#[derive(Clone, Copy, Debug, PartialEq, Eq)]
pub enum StoredVar {
    /// The record of a device, by its number on the board: `Dev0` to `DevF`.
    Device(u8),
    /// How many units of each file are spent.
    Progress,
    /// The last serial of a delivery by memory.
    Serial,
    /// A delivery that waits in memory: `Stage0` to `Stage7`.
    Stage(u8),
    /// What the operating system asks for (UEFI 2.10, 8.5.4).
    OsIndications,
    /// The name of the last result that there may be (UEFI 2.10, 8.5.6).
    CapsuleMax,
    /// The name of the last result that was written (UEFI 2.10, 8.5.6).
    CapsuleLast,
    /// The result of this number: `Capsule0000` and so on (UEFI 2.10, 8.5.6).
    Outcome(u16),
}

impl StoredVar {
    /// The variable's GUID.
    pub fn guid(&self) -> Guid
        ensures value { result ≡ guid_of self.now }
    {
        match self {
            StoredVar::Device(_) => PLATFORM_GUID,
            StoredVar::Progress => PLATFORM_GUID,
            StoredVar::Serial => PLATFORM_GUID,
            StoredVar::Stage(_) => PLATFORM_GUID,
            StoredVar::OsIndications => EFI_GLOBAL_VARIABLE,
            StoredVar::CapsuleMax => EFI_CAPSULE_REPORT_GUID,
            StoredVar::CapsuleLast => EFI_CAPSULE_REPORT_GUID,
            StoredVar::Outcome(_) => EFI_CAPSULE_REPORT_GUID,
        }
    }

    /// The variable's attributes.
    pub fn attributes(&self) -> u32
        ensures value { result ≡ attributes_of self.now }
    {
        match self {
            StoredVar::Device(_) => OWN,
            StoredVar::Progress => OWN,
            StoredVar::Serial => OWN,
            StoredVar::Stage(_) => OWN,
            StoredVar::OsIndications => SEEN,
            StoredVar::CapsuleMax => SEEN,
            StoredVar::CapsuleLast => SEEN,
            StoredVar::Outcome(_) => SEEN,
        }
    }

    /// The name of a variable that is no result. It takes no memory.
    pub fn name(&self) -> &'static str
        requires within { IsTrue (is_variable self.now) }
        requires fixed { IsTrue (is_fixed self.now) }
        ensures value { result.now ≡ name_of self.now }
    {
        match self {
            StoredVar::Device(device) => device_name(*device),
            StoredVar::Progress => "Progress",
            StoredVar::Serial => "Serial",
            StoredVar::Stage(stage) => stage_name(*stage),
            StoredVar::OsIndications => "OsIndications",
            StoredVar::CapsuleMax => "CapsuleMax",
            StoredVar::CapsuleLast => "CapsuleLast",
            StoredVar::Outcome(_) => unreachable!(),
        }
    }

    /// The variable's name.
    pub fn text(&self, alloc: Global) -> Result<Text, NoMemory>
        requires within { IsTrue (is_variable self.now) }
        ensures value { IfOk result (λ text. text ≡ name_of self.now) }
    {
        match self {
            StoredVar::Outcome(number) => result_name(alloc, *number),
            _ => Text::from_str(alloc, self.name()),
        }
    }
}

/// The name of a device's record.
fn device_name(device: u8) -> &'static str
    requires { device < 16 }
    ensures { result.now ≡ device_name device }
{
    match device {
        0 => "Dev0",
        1 => "Dev1",
        2 => "Dev2",
        3 => "Dev3",
        4 => "Dev4",
        5 => "Dev5",
        6 => "Dev6",
        7 => "Dev7",
        8 => "Dev8",
        9 => "Dev9",
        10 => "DevA",
        11 => "DevB",
        12 => "DevC",
        13 => "DevD",
        14 => "DevE",
        _ => "DevF",
    }
}

/// The name of a staged delivery.
fn stage_name(stage: u8) -> &'static str
    requires { stage < 8 }
    ensures { result.now ≡ stage_name stage }
{
    match stage {
        0 => "Stage0",
        1 => "Stage1",
        2 => "Stage2",
        3 => "Stage3",
        4 => "Stage4",
        5 => "Stage5",
        6 => "Stage6",
        _ => "Stage7",
    }
}
