//! The limits that several crates share. A limit of one crate stands in that crate.

/// The most bytes of a capsule, of a delivery, of a file and of a named input.
pub const MAX_CAPSULE_BYTES: u32 = 67_108_864;
