//! The limits of the variables of the platform.

use reference_machine::MAX_STAGED;

/// The most variables of staged deliveries: one for each delivery that waits in memory.
pub const MAX_STAGE_VARIABLES: usize = MAX_STAGED;

/// The bit of OsIndications that asks for the capsule files (UEFI 2.10, 8.5.4).
pub const OS_INDICATIONS_FILE_CAPSULE_DELIVERY_SUPPORTED: u64 = 0x04;
