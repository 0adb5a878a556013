ghost use Rattle.std.specs.Prelude.{◌≡◌, ◌++◌, OnOk, OnErr};
ghost use Rattle.fmp_headers.specs.CapsuleHeader.{capsule_header, capsule_header_bytes};

use crate::HeaderFault;
use crate::layout::put;
use cu_base::{Blob, Guid, MAX_CAPSULE_BYTES, NoMemory, bytes_of_u32, guid_at, u32_at};

/// The bytes of the fields of a capsule header. HeaderSize is at least this.
pub const CAPSULE_HEADER_BYTES: u32 = 28;

/// The place of CapsuleGuid.
const CAPSULE_GUID_AT: usize = 0;

/// The place of HeaderSize.
pub const HEADER_SIZE_AT: usize = 16;

/// The place of Flags.
const FLAGS_AT: usize = 20;

/// The place of CapsuleImageSize.
pub const CAPSULE_IMAGE_SIZE_AT: usize = 24;

/// The capsule header, EFI_CAPSULE_HEADER (UEFI 2.10, 8.5.3).
#[derive(Clone, Copy, Debug, PartialEq, Eq)]
pub struct CapsuleHeader {
    pub guid: Guid,
    pub header_size: u32,
    pub flags: u32,
    pub image_size: u32,
}

impl CapsuleHeader {
    /// The capsule header at the front of the bytes. It is refused as Short below 28 bytes, then as
    /// BadHeaderSize where HeaderSize is below 28 or above CapsuleImageSize, then as BadImageSize
    /// where CapsuleImageSize is above the limit of a capsule.
    pub fn read(bytes: &[u8]) -> Result<CapsuleHeader, HeaderFault>
        ensures value { result ≡ capsule_header bytes.now }
    {
        if bytes.len() < CAPSULE_HEADER_BYTES as usize {
            return Err(HeaderFault::Short);
        }
        let header_size = u32_at(bytes, HEADER_SIZE_AT);
        let image_size = u32_at(bytes, CAPSULE_IMAGE_SIZE_AT);
        if header_size < CAPSULE_HEADER_BYTES || image_size < header_size {
            return Err(HeaderFault::BadHeaderSize);
        }
        if image_size > MAX_CAPSULE_BYTES {
            return Err(HeaderFault::BadImageSize);
        }
        Ok(CapsuleHeader {
            guid: guid_at(bytes, CAPSULE_GUID_AT),
            header_size,
            flags: u32_at(bytes, FLAGS_AT),
            image_size,
        })
    }

    /// Appends the 28 bytes of the header. NoMemory leaves the blob as it was.
    pub fn write_into(&self, out: &mut Blob) -> Result<(), NoMemory>
        ensures ok { OnOk result (out.new ≡ out.old ++ capsule_header_bytes self.now) }
        ensures err { OnErr result (out.new ≡ out.old) }
    {
        out.push_slice(&self.to_bytes())
    }

    /// The 28 bytes of the header: CapsuleGuid, HeaderSize, Flags and CapsuleImageSize,
    /// little-endian.
    fn to_bytes(&self) -> [u8; 28]
        ensures { result ≡ capsule_header_bytes self.now }
    {
        let mut bytes = [0; 28];
        put(&mut bytes, CAPSULE_GUID_AT, &self.guid.bytes);
        put(&mut bytes, HEADER_SIZE_AT, &bytes_of_u32(self.header_size));
        put(&mut bytes, FLAGS_AT, &bytes_of_u32(self.flags));
        put(
            &mut bytes,
            CAPSULE_IMAGE_SIZE_AT,
            &bytes_of_u32(self.image_size),
        );
        bytes
    }
}
