//! The limits of what stands beside the regions of a flash: the folder, the memory and the orders.

use cu_base::MAX_CAPSULE_BYTES;

/// The most files of the folder.
pub const MAX_FILES: usize = 64;

/// The most bytes of a file.
pub const MAX_FILE_BYTES: u32 = MAX_CAPSULE_BYTES;

/// The most bytes of all files of the folder in sum.
pub const MAX_FOLDER_BYTES: u32 = 2_147_483_648;

/// The most bytes of a file's name. It has at least one.
pub const MAX_FILE_NAME: usize = 40;

/// The most segments that are laid into memory.
pub const MAX_SEGMENTS: usize = 256;

/// The most bytes of all segments in sum.
pub const MAX_MEMORY_BYTES: u32 = 134_217_728;

/// How many orders need no memory once a board was laid out.
pub const ORDER_ROOM: usize = 4_096;

/// The bytes of a device's slot before its payload.
pub const SLOT_LEAD: u32 = 8_192;
