//! The limits of a board and of its devices.

use cu_base::MAX_CAPSULE_BYTES;

/// The most devices of a board. It has at least one.
pub const MAX_DEVICES: usize = 16;

/// The most digests of a board.
pub const MAX_DIGESTS: usize = 1_024;

/// The most bytes of a device's name. It has at least one.
pub const MAX_DEVICE_NAME: usize = 16;

/// The fewest bytes of a bank.
pub const MIN_BANK: u32 = 65_536;

/// The most bytes of a bank.
pub const MAX_BANK: u32 = 1_048_576;

/// The bytes of a bank that are left when the room of the results is taken.
pub const BANK_BASE: u32 = 4_096;

/// The bytes of a bank that each result takes.
pub const RESULT_ROOM: u32 = 256;

/// The first of the formats in which the log of variables may be laid out.
pub const MIN_STORE: u32 = 1;

/// The last of those formats, in which the log is written.
pub const MAX_STORE: u32 = 2;

/// The fewest bytes of a device's capacity.
pub const MIN_CAPACITY: u32 = 1;

/// The most bytes of a device's capacity.
pub const MAX_CAPACITY: u32 = MAX_CAPSULE_BYTES;

/// The most bytes of all capacities of a board in sum, where each device has one bank.
pub const MAX_CAPACITIES: u32 = 536_870_912;

/// The same where each device has two banks.
pub const MAX_TWO_BANK_CAPACITIES: u32 = 268_435_456;

/// The greatest hardware instance of a device.
pub const MAX_INSTANCE: u64 = 9_223_372_036_854_775_807;

/// The greatest FwType of an ESRT entry: 0 unknown, 1 system firmware, 2 device firmware, 3 UEFI
/// driver (UEFI 2.10, 23.4).
pub const MAX_FW_TYPE: u32 = 3;
