ghost use Rattle.std.specs.Prelude.{◌≡◌, ◌≤◌, ◌==◌, ◌++◌, length, take, if◌then◌else◌, IsTrue};
ghost use Rattle.std.specs.Prelude.{OnOk, OnErr};
ghost use Rattle.cu_base.specs.Fields.{number_at};
ghost use Rattle.fmp_headers.specs.ImageHeader.{image_header, image_header_bytes};
ghost use Rattle.fmp_headers.specs.ImageHeader.{image_header_fields, image_header_size};
ghost use Rattle.fmp_headers.specs.ImageHeader.{image_version, instance_at, is_image_version};
ghost use Rattle.fmp_headers.specs.ImageHeader.{keeps_version_rules, support_at};

use crate::HeaderFault;
use crate::layout::put;
use cu_base::{
    Blob, Guid, NoMemory, bytes_of_u32, bytes_of_u64, guid_at, three_at, u32_at, u64_at,
};

/// The bytes of an image header of version 1. Every version has at least these.
pub const IMAGE_HEADER_BYTES: u32 = 32;

/// The most bytes of an image header, those of version 3.
const LONGEST_HEADER_BYTES: usize = 48;

/// The place of Version.
const VERSION_AT: usize = 0;

/// The place of UpdateImageTypeId.
const TYPE_ID_AT: usize = 4;

/// The place of UpdateImageIndex.
const INDEX_AT: usize = 20;

/// The place of the 3 reserved bytes.
const RESERVED_AT: usize = 21;

/// The place of UpdateImageSize.
pub const IMAGE_SIZE_AT: usize = 24;

/// The place of UpdateVendorCodeSize.
const VENDOR_SIZE_AT: usize = 28;

/// The place of UpdateHardwareInstance, from version 2 on.
const INSTANCE_AT: usize = 32;

/// The place of ImageCapsuleSupport, from version 3 on.
const SUPPORT_AT: usize = 40;

/// The header of an image item, EFI_FIRMWARE_MANAGEMENT_CAPSULE_IMAGE_HEADER (UEFI 2.10, 23.3.2).
/// A header of version 1 has no UpdateHardwareInstance, and `instance` is 0. One of version 1 or 2
/// has no ImageCapsuleSupport, and `support` is 1: authentication data and no dependency section.
#[derive(Clone, Copy, Debug, PartialEq, Eq)]
pub struct ImageHeader {
    pub version: u32,
    pub type_id: Guid,
    pub index: u8,
    pub reserved: [u8; 3],
    pub image_size: u32,
    pub vendor_size: u32,
    pub instance: u64,
    pub support: u64,
}

/// Whether an image header may have this Version: 1, 2 or 3.
pub fn is_image_version(version: u32) -> bool
    ensures { result ≡ is_image_version version }
{
    version == 1 || version == 2 || version == 3
}

/// The bytes of an image header of this Version: 32, 40 or 48.
pub fn image_header_size(version: u32) -> u32
    ensures { result ≡ image_header_size version }
{
    match version {
        1 => 32,
        2 => 40,
        _ => 48,
    }
}

impl ImageHeader {
    /// The image header at the front of the bytes. It is refused as Short below 32 bytes, then as
    /// BadImageVersion where Version is not 1, 2 or 3, then as Short below the size of its version.
    pub fn read(bytes: &[u8]) -> Result<ImageHeader, HeaderFault>
        ensures value { result ≡ image_header bytes.now }
    {
        if bytes.len() < IMAGE_HEADER_BYTES as usize {
            return Err(HeaderFault::Short);
        }
        let version = u32_at(bytes, VERSION_AT);
        if !is_image_version(version) {
            return Err(HeaderFault::BadImageVersion);
        }
        if bytes.len() < image_header_size(version) as usize {
            return Err(HeaderFault::Short);
        }
        Ok(fields(bytes, version))
    }

    /// Whether the header keeps the rules of its version: it is 1, 2 or 3, version 1 has instance
    /// 0, and only version 3 has a support other than 1.
    pub fn keeps_version_rules(&self) -> bool
        ensures { result ≡ keeps_version_rules self.now }
    {
        is_image_version(self.version)
            && (self.version != 1 || self.instance == 0)
            && (self.version == 3 || self.support == 1)
    }

    /// How many bytes the header takes.
    pub fn byte_length(&self) -> u32
        requires { IsTrue (keeps_version_rules self.now) }
        ensures { result ≡ length (image_header_bytes self.now) }
    {
        let _type_id: &[u8] = &self.type_id.bytes;
        let _reserved: &[u8] = &self.reserved;
        image_header_size(self.version)
    }

    /// Appends the bytes of the header, as many as its version has. NoMemory leaves the blob as it
    /// was.
    pub fn write_into(&self, out: &mut Blob) -> Result<(), NoMemory>
        requires { IsTrue (keeps_version_rules self.now) }
        ensures ok { OnOk result (out.new ≡ out.old ++ image_header_bytes self.now) }
        ensures err { OnErr result (out.new ≡ out.old) }
    {
        let bytes = self.to_bytes();
        out.push_slice(&bytes[..image_header_size(self.version) as usize])
    }

    /// The bytes of a header of version 3. One of another version is their front.
    fn to_bytes(&self) -> [u8; LONGEST_HEADER_BYTES]
        requires { IsTrue (keeps_version_rules self.now) }
        ensures { take (image_header_size self.now.version) result ≡ image_header_bytes self.now }
    {
        let mut bytes = [0; LONGEST_HEADER_BYTES];
        put(&mut bytes, VERSION_AT, &bytes_of_u32(self.version));
        put(&mut bytes, TYPE_ID_AT, &self.type_id.bytes);
        put(&mut bytes, INDEX_AT, &[self.index]);
        put(&mut bytes, RESERVED_AT, &self.reserved);
        put(&mut bytes, IMAGE_SIZE_AT, &bytes_of_u32(self.image_size));
        put(&mut bytes, VENDOR_SIZE_AT, &bytes_of_u32(self.vendor_size));
        put(&mut bytes, INSTANCE_AT, &bytes_of_u64(self.instance));
        put(&mut bytes, SUPPORT_AT, &bytes_of_u64(self.support));
        bytes
    }
}

/// The fields of a header of this version, whose bytes are there.
fn fields(bytes: &[u8], version: u32) -> ImageHeader
    requires version { version ≡ image_version bytes.now }
    requires known { IsTrue (is_image_version version) }
    requires size { image_header_size version ≤ length bytes.now }
    ensures value { result ≡ image_header_fields bytes.now }
{
    ImageHeader {
        version,
        type_id: guid_at(bytes, TYPE_ID_AT),
        index: bytes[INDEX_AT],
        reserved: three_at(bytes, RESERVED_AT),
        image_size: u32_at(bytes, IMAGE_SIZE_AT),
        vendor_size: u32_at(bytes, VENDOR_SIZE_AT),
        instance: instance_of(bytes, version),
        support: support_of(bytes, version),
    }
}

/// The hardware instance, which a header of version 1 does not have.
fn instance_of(bytes: &[u8], version: u32) -> u64
    requires size { image_header_size version ≤ length bytes.now }
    ensures { result ≡ instance_at version bytes.now }
{
    if version == 1 {
        0
    } else {
        u64_at(bytes, INSTANCE_AT)
    }
}

/// The support bits, which a header of version 1 or 2 does not have.
fn support_of(bytes: &[u8], version: u32) -> u64
    requires known { IsTrue (is_image_version version) }
    requires size { image_header_size version ≤ length bytes.now }
    ensures { result ≡ support_at version bytes.now }
{
    if version == 3 {
        u64_at(bytes, SUPPORT_AT)
    } else {
        1
    }
}
