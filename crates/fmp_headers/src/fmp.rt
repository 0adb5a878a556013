ghost use Rattle.std.specs.Prelude.{◌≡◌, ◌++◌, OnOk, OnErr};
ghost use Rattle.fmp_headers.specs.FmpHeader.{fmp_header, fmp_header_bytes};

use crate::HeaderFault;
use crate::layout::put;
use cu_base::{Blob, NoMemory, bytes_of_u16, bytes_of_u32, u16_at, u32_at};

/// The bytes of an FMP capsule header.
pub const FMP_HEADER_BYTES: u32 = 8;

/// The place of Version.
const VERSION_AT: usize = 0;

/// The place of EmbeddedDriverCount.
pub const DRIVER_COUNT_AT: usize = 4;

/// The place of PayloadItemCount.
pub const ITEM_COUNT_AT: usize = 6;

/// The Version that an FMP capsule header has.
pub const FMP_HEADER_VERSION: u32 = 1;

/// The FMP capsule header, EFI_FIRMWARE_MANAGEMENT_CAPSULE_HEADER (UEFI 2.10, 23.3.2): how many
/// embedded drivers and how many payload items the capsule has.
#[derive(Clone, Copy, Debug, PartialEq, Eq)]
pub struct FmpHeader {
    pub drivers: u16,
    pub items: u16,
}

impl FmpHeader {
    /// The FMP capsule header at the front of the bytes. It is refused as Short below 8 bytes, then
    /// as BadFmpVersion where Version is not 1.
    pub fn read(bytes: &[u8]) -> Result<FmpHeader, HeaderFault>
        ensures value { result ≡ fmp_header bytes.now }
    {
        if bytes.len() < FMP_HEADER_BYTES as usize {
            return Err(HeaderFault::Short);
        }
        if u32_at(bytes, VERSION_AT) != FMP_HEADER_VERSION {
            return Err(HeaderFault::BadFmpVersion);
        }
        Ok(FmpHeader {
            drivers: u16_at(bytes, DRIVER_COUNT_AT),
            items: u16_at(bytes, ITEM_COUNT_AT),
        })
    }

    /// Appends the 8 bytes of the header. NoMemory leaves the blob as it was.
    pub fn write_into(&self, out: &mut Blob) -> Result<(), NoMemory>
        ensures ok { OnOk result (out.new ≡ out.old ++ fmp_header_bytes self.now) }
        ensures err { OnErr result (out.new ≡ out.old) }
    {
        out.push_slice(&self.to_bytes())
    }

    /// The 8 bytes of the header: Version 1 and both counts, little-endian.
    fn to_bytes(&self) -> [u8; 8]
        ensures { result ≡ fmp_header_bytes self.now }
    {
        let mut bytes = [0; 8];
        put(&mut bytes, VERSION_AT, &bytes_of_u32(FMP_HEADER_VERSION));
        put(&mut bytes, DRIVER_COUNT_AT, &bytes_of_u16(self.drivers));
        put(&mut bytes, ITEM_COUNT_AT, &bytes_of_u16(self.items));
        bytes
    }
}
