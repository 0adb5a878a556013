ghost use Rattle.std.specs.Prelude.{◌≡◌, ◌≤◌, ◌++◌, length, take, OnOk, OnErr};
ghost use Rattle.std.specs.Option.{SomeIff};
ghost use Rattle.cu_base.specs.Fields.{number, bytes_of};

use crate::{Blob, NoMemory};

/// The little-endian number of the first 2 bytes. None exactly where there are fewer.
pub fn read_u16(bytes: &[u8]) -> Option<u16>
    ensures { SomeIff result (2 ≤ length bytes.now) (number (take 2 bytes.now)) }
{
    Some(u16::from_le_bytes(*bytes.first_chunk::<2>()?))
}

/// The little-endian number of the first 4 bytes. None exactly where there are fewer.
pub fn read_u32(bytes: &[u8]) -> Option<u32>
    ensures { SomeIff result (4 ≤ length bytes.now) (number (take 4 bytes.now)) }
{
    Some(u32::from_le_bytes(*bytes.first_chunk::<4>()?))
}

/// The little-endian number of the first 8 bytes. None exactly where there are fewer.
pub fn read_u64(bytes: &[u8]) -> Option<u64>
    ensures { SomeIff result (8 ≤ length bytes.now) (number (take 8 bytes.now)) }
{
    Some(u64::from_le_bytes(*bytes.first_chunk::<8>()?))
}

/// Appends the 2 bytes of the number, the lowest first.
pub fn put_u16(out: &mut Blob, n: u16) -> Result<(), NoMemory>
    ensures ok { OnOk result (out.new ≡ out.old ++ bytes_of 2 n) }
    ensures err { OnErr result (out.new ≡ out.old) }
{
    out.push_slice(&n.to_le_bytes())
}

/// Appends the 4 bytes of the number, the lowest first.
pub fn put_u32(out: &mut Blob, n: u32) -> Result<(), NoMemory>
    ensures ok { OnOk result (out.new ≡ out.old ++ bytes_of 4 n) }
    ensures err { OnErr result (out.new ≡ out.old) }
{
    out.push_slice(&n.to_le_bytes())
}

/// Appends the 8 bytes of the number, the lowest first.
pub fn put_u64(out: &mut Blob, n: u64) -> Result<(), NoMemory>
    ensures ok { OnOk result (out.new ≡ out.old ++ bytes_of 8 n) }
    ensures err { OnErr result (out.new ≡ out.old) }
{
    out.push_slice(&n.to_le_bytes())
}

/// The 2 bytes of the number, the lowest first.
pub fn bytes_of_u16(n: u16) -> [u8; 2]
    ensures { result ≡ bytes_of 2 n }
{
    n.to_le_bytes()
}

/// The 4 bytes of the number, the lowest first.
pub fn bytes_of_u32(n: u32) -> [u8; 4]
    ensures { result ≡ bytes_of 4 n }
{
    n.to_le_bytes()
}

/// The 8 bytes of the number, the lowest first.
pub fn bytes_of_u64(n: u64) -> [u8; 8]
    ensures { result ≡ bytes_of 8 n }
{
    n.to_le_bytes()
}
