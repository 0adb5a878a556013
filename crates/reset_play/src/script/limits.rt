//! The limits of a script.

/// The most events of a script.
pub const MAX_EVENTS: usize = 4_096;

/// The most bytes that one event lays into memory.
pub const MAX_POKE_BYTES: usize = 4_096;

/// The greatest number of an event that counts calls or moves.
pub const MAX_COUNT: u32 = 1_000_000;

/// The most bytes of the name of an input.
pub const MAX_INPUT_NAME: usize = 64;
