//! The limits of a recipe.

/// The most drivers of a recipe, which EmbeddedDriverCount tells (UEFI 2.10, 23.3.2).
pub const MAX_DRIVERS: usize = 65_535;

/// The most payload items of a recipe, which PayloadItemCount tells (UEFI 2.10, 23.3.2).
pub const MAX_ITEMS: usize = 65_535;

/// The first Version of an image header (UEFI 2.10, 23.3.2).
pub const MIN_HEADER: u32 = 1;

/// The last Version of an image header.
pub const MAX_HEADER: u32 = 3;

/// The greatest MonotonicCount of a recipe.
pub const MAX_MONOTONIC: u64 = 9_223_372_036_854_775_807;

/// The most bytes of the name of an input. It has at least one.
pub const MAX_INPUT_NAME: usize = 64;
