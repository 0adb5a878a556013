//! The limits of a platform that the reference machine names.

/// The most deliveries that wait in memory.
pub const MAX_STAGED: usize = 8;

/// The most capsules of a delivery.
pub const MAX_DELIVERY_CAPSULES: usize = 8;

/// The most payload items of a capsule that the platform takes.
pub const MAX_CAPSULE_ITEMS: usize = 16;

/// The most units of a delivery: one for each device of a board, which has at most 16, of each item
/// of each capsule.
pub const MAX_DELIVERY_UNITS: usize = 2048;
