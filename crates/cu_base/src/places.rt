//! Fields at places that are there.

ghost use Rattle.std.specs.Prelude.{◌≡◌, ◌+◌, ◌≤◌, length};
ghost use Rattle.cu_base.specs.Fields.{field, number_at};

use crate::{Guid, read_u16, read_u32, read_u64};

/// The little-endian number in the 2 bytes at a place.
pub fn u16_at(bytes: &[u8], at: usize) -> u16
    requires { at + 2 ≤ length bytes.now }
    ensures { result ≡ number_at bytes.now at 2 }
{
    match read_u16(&bytes[at..]) {
        Some(n) => n,
        None => unreachable!(),
    }
}

/// The little-endian number in the 4 bytes at a place.
pub fn u32_at(bytes: &[u8], at: usize) -> u32
    requires { at + 4 ≤ length bytes.now }
    ensures { result ≡ number_at bytes.now at 4 }
{
    match read_u32(&bytes[at..]) {
        Some(n) => n,
        None => unreachable!(),
    }
}

/// The little-endian number in the 8 bytes at a place.
pub fn u64_at(bytes: &[u8], at: usize) -> u64
    requires { at + 8 ≤ length bytes.now }
    ensures { result ≡ number_at bytes.now at 8 }
{
    match read_u64(&bytes[at..]) {
        Some(n) => n,
        None => unreachable!(),
    }
}

/// The GUID in the 16 bytes at a place.
pub fn guid_at(bytes: &[u8], at: usize) -> Guid
    requires { at + 16 ≤ length bytes.now }
    ensures { result.bytes ≡ field bytes.now at 16 }
{
    match Guid::read(&bytes[at..]) {
        Some(guid) => guid,
        None => unreachable!(),
    }
}

/// The 3 bytes at a place.
pub fn three_at(bytes: &[u8], at: usize) -> [u8; 3]
    requires { at + 3 ≤ length bytes.now }
    ensures { result ≡ field bytes.now at 3 }
{
    match bytes[at..].first_chunk::<3>() {
        Some(three) => *three,
        None => unreachable!(),
    }
}
