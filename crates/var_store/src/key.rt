//! A variable's key: the bytes of its GUID and then of its name, so that keys stand in the order of
//! their bytes.

ghost use Rattle.std.specs.Prelude.{◌≡◌, ◌+◌, ◌≤◌, ◌++◌, length, take};

use cu_base::Guid;
use var_log::MAX_NAME;

/// The bytes of a GUID.
pub(crate) const GUID_BYTES: usize = 16;

/// The most bytes of a key.
pub(crate) const MAX_KEY: usize = GUID_BYTES + MAX_NAME;

/// The key of this GUID and name, and zeros behind it.
pub(crate) fn key_of(guid: &Guid, name: &[u8]) -> [u8; MAX_KEY]
    requires short { length name.now ≤ MAX_NAME }
    ensures value { take (16 + length name.now) result ≡ guid.now.bytes ++ name.now }
    ensures sized { length guid.now.bytes ≡ 16 }
{
    let mut key = [0; MAX_KEY];
    put(&mut key, 0, &guid.bytes);
    put(&mut key, GUID_BYTES, name);
    key
}

// Writes the bytes at a place.
fn put(key: &mut [u8], at: usize, bytes: &[u8])
    requires room { at + length bytes.now ≤ length key.old }
    ensures value { take (at + length bytes.now) key.new ≡ take at key.old ++ bytes.now }
{
    let end = at + bytes.len();
    key[at..end].copy_from_slice(bytes);
}
