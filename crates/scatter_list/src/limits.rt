//! The limits of a walk.

/// The most descriptors of a scatter list, its end mark and continuations among them.
pub const MAX_DESCRIPTORS: u32 = 65_536;

/// The most steps that a walk counts, whatever the memory is.
pub const MAX_STEPS: u64 = 524_288;

/// The bytes of a descriptor, EFI_CAPSULE_BLOCK_DESCRIPTOR (UEFI 2.10, 8.5.3).
pub const DESCRIPTOR_BYTES: usize = 16;
