use cu_base::{EfiStatus, Text, Ticket};

/// What names a unit, one piece of work of a boot.
#[derive(Drop)]
pub struct UnitKey {
    /// The delivery, and capsule and item in it. What a unit does not have is 0.
    pub ticket: Ticket,
    /// The number of the unit in its delivery, from 0.
    pub unit: u32,
    /// The number of the device on the board, 255 where there is none.
    pub device: u8,
    /// The name of the delivery's file, empty for a delivery by memory.
    pub name: Text,
}

/// What a line of a boot tells of.
#[derive(Clone, Copy, Debug, PartialEq, Eq)]
pub enum Kind {
    /// An item was tried on a target.
    Try,
    /// An attempt that an earlier boot left open was settled.
    Heal,
    /// A capsule was passed over.
    Skip,
    /// An item has no target.
    NoTarget,
    /// A delivery holds no capsules that can be read.
    Bad,
}

/// How an attempt ended.
#[derive(Clone, Copy, Debug, PartialEq, Eq)]
pub enum End {
    /// It was not begun; the LastAttemptStatus tells why (UEFI 2.10, 23.4).
    Refused(u32),
    /// The device holds the new image.
    Sealed,
    /// The device holds its former image.
    Kept,
    /// The device holds no image.
    Lost,
}

/// A line of a boot.
#[derive(Drop)]
pub struct UnitLine {
    pub kind: Kind,
    pub key: UnitKey,
    /// The version that was tried, 0 where none is known.
    pub version: u32,
    /// How the attempt ended. None where nothing was tried.
    pub end: Option<End>,
    /// The CapsuleStatus of its result (UEFI 2.10, 8.5.6).
    pub status: EfiStatus,
    /// The number of its result variable.
    pub result: u16,
}
