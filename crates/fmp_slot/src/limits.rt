//! The limits of a slot.

/// The most bytes of a dependency section that a slot keeps.
pub const MAX_KEPT_SECTION: u32 = 4_096;

/// The bytes of each piece of a payload but the last.
pub const PIECE: usize = 65_536;
