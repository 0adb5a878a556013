//! Variables of one number, and of two.

ghost use Rattle.std.specs.Prelude.{◌≡◌, ◌+◌, ◌≤◌, ◌++◌, length, take};
ghost use Rattle.stored_vars.specs.Numbers.{number_in, pair_bytes, pair_in};

use crate::put::put;
use cu_base::{bytes_of_u64, u64_at};
use reference_machine::StagedPair;

/// The bytes of a number.
const NUMBER_BYTES: usize = 8;

/// The bytes of a staged delivery.
pub const PAIR_BYTES: usize = 16;

/// The number that these bytes spell, and None exactly where they are not 8. It is written by
/// `bytes_of_u64`.
pub fn stored_number(bytes: &[u8]) -> Option<u64>
    ensures value { result ≡ number_in bytes.now }
{
    if bytes.len() != NUMBER_BYTES {
        return None;
    }
    Some(u64_at(bytes, 0))
}

/// The spelling of a staged delivery.
pub fn pair_bytes(pair: &StagedPair) -> [u8; PAIR_BYTES]
    ensures value { result ≡ pair_bytes pair.now }
{
    let mut bytes = [0; PAIR_BYTES];
    put(&mut bytes, 0, &bytes_of_u64(pair.serial));
    put(&mut bytes, 8, &bytes_of_u64(pair.address));
    bytes
}

/// The staged delivery that these bytes spell, and None exactly where they are not 16.
pub fn stored_pair(bytes: &[u8]) -> Option<StagedPair>
    ensures value { result ≡ pair_in bytes.now }
{
    if bytes.len() != PAIR_BYTES {
        return None;
    }
    Some(StagedPair {
        serial: u64_at(bytes, 0),
        address: u64_at(bytes, 8),
    })
}
