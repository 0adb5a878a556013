//! Capsules written by hand from the tables of UEFI 2.10, 8.5.3 and 23.3.2.

use cu_base::{Blob, NoMemory};
use std::alloc::Global;

/// CapsuleGuid of FMP capsules, HeaderSize 28, Flags 0, CapsuleImageSize 110; Version 1, no driver,
/// one item at 16; an image header of version 3 with 18 bytes of update image.
pub const ONE_IMAGE: [u8; 110] = [
    0xed, 0xd5, 0xcb, 0x6d, 0x2d, 0xe8, 0x44, 0x4c, 0xbd, 0xa1, 0x71, 0x94, 0x19, 0x9a, 0xd9, 0x2a,
    28, 0, 0, 0, 0, 0, 0, 0, 110, 0, 0, 0, 1, 0, 0, 0, 0, 0, 1, 0, 16, 0, 0, 0, 0, 0, 0, 0, 3, 0,
    0, 0, 1, 2, 3, 4, 5, 6, 7, 8, 9, 10, 11, 12, 13, 14, 15, 16, 1, 0, 0, 0, 18, 0, 0, 0, 0, 0, 0,
    0, 0, 0, 0, 0, 0, 0, 0, 0, 0, 0, 0, 0, 0, 0, 0, 0, 77, 83, 83, 49, 16, 0, 0, 0, 4, 0, 0, 0, 3,
    0, 0, 0, 80, 81,
];

/// The parts one behind the other.
pub fn joined(alloc: Global, parts: &[&[u8]]) -> Result<Blob, NoMemory> {
    let mut all = Blob::new(alloc);
    for part in parts {
        all.push_slice(*part)?;
    }
    Ok(all)
}
