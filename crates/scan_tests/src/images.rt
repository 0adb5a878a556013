//! Parts of images, written by hand.

use cu_base::Blob;
use std::alloc::Global;
use std::test::Fail;

/// MonotonicCount 7 and a certificate of three bytes.
pub const AUTH: [u8; 35] = [
    7, 0, 0, 0, 0, 0, 0, 0, 27, 0, 0, 0, 0, 2, 0xf1, 0x0e, 0x9d, 0xd2, 0xaf, 0x4a, 0xdf, 0x68,
    0xee, 0x49, 0x8a, 0xa9, 0x34, 0x7d, 0x37, 0x56, 0x65, 0xa7, 0xc1, 0xc2, 0xc3,
];

/// PUSH_VERSION 7, PUSH_GUID, GTE, END.
pub const SECTION: [u8; 24] = [
    1, 7, 0, 0, 0, 0, 0xbb, 0xbb, 0xbb, 0xbb, 0, 0, 0, 0, 0, 0, 0, 0, 0, 0, 0, 2, 0x0a, 0x0d,
];

/// FwVersion 4, LowestSupportedVersion 3, and the payload `PQ`.
pub const PLAIN: [u8; 18] = [
    0x4d, 0x53, 0x53, 0x31, 16, 0, 0, 0, 4, 0, 0, 0, 3, 0, 0, 0, 0x50, 0x51,
];

/// The same with four bytes more in the payload header.
pub const WITH_EXTRA: [u8; 22] = [
    0x4d, 0x53, 0x53, 0x31, 20, 0, 0, 0, 4, 0, 0, 0, 3, 0, 0, 0, 0xe1, 0xe2, 0xe3, 0xe4, 0x50, 0x51,
];

/// Pieces one behind another.
pub fn joined(alloc: Global, pieces: &[&[u8]]) -> Result<Blob, Fail> {
    let mut bytes = Blob::new(alloc);
    for piece in pieces {
        bytes.push_slice(piece)?;
    }
    Ok(bytes)
}

/// The image with another byte at a place.
pub fn changed(alloc: Global, image: &[u8], at: usize, byte: u8) -> Result<Blob, Fail> {
    let mut bytes = Blob::new(alloc);
    for (k, old) in image.iter().enumerate() {
        let here = if k == at { byte } else { *old };
        bytes.push_slice(&[here])?;
    }
    Ok(bytes)
}

/// This byte so many times.
pub fn repeated(alloc: Global, byte: u8, count: usize) -> Result<Blob, Fail> {
    let mut bytes = Blob::new(alloc);
    for _ in 0..count {
        bytes.push_slice(&[byte])?;
    }
    Ok(bytes)
}
