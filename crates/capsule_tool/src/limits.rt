//! The limits of the program.

/// The most bytes of a board, a recipe and a script.
pub const MAX_TEXT_BYTES: u32 = 1_048_576;

/// The most bytes of the inputs that a text names, in sum.
pub const MAX_NAMED_BYTES: u32 = 268_435_456;
