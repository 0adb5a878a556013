//! Parts of bytes that were accepted, where they stand (UEFI 2.10, 8.5.3 and 23.3.2). No byte is
//! copied.

ghost use Rattle.std.specs.Prelude.{◌≡◌, ◌+◌, ◌≤◌, ◌<◌, ◌^◌, length};
ghost use Rattle.cu_base.specs.Fields.{field};
ghost use Rattle.fmp_headers.specs.CapsuleHeader.{capsule_header_fields};
ghost use Rattle.fmp_headers.specs.ImageHeader.{image_header_fields};
ghost use Rattle.capsule_grammar.specs.Accepted.{IsFront, IsImageItem};
ghost use Rattle.capsule_grammar.specs.Reading.{image_of};
ghost use Rattle.capsule_grammar.specs.Refusals.{body_of};
ghost use Rattle.capsule_grammar.specs.Values.{image_seen};

use crate::ImageView;
use fmp_headers::{CapsuleHeader, ImageHeader, image_header_size};

/// The capsule header at the front.
pub fn capsule_header(bytes: &[u8]) -> CapsuleHeader
    requires { IsFront bytes.now }
    ensures { result ≡ capsule_header_fields bytes.now }
{
    match CapsuleHeader::read(bytes) {
        Ok(header) => header,
        Err(_) => unreachable!(),
    }
}

/// The body: the bytes from HeaderSize to CapsuleImageSize.
pub fn body(bytes: &[u8]) -> &[u8]
    requires { IsFront bytes.now }
    ensures { result.now ≡ body_of bytes.now }
{
    let header = capsule_header(bytes);
    &bytes[header.header_size as usize..header.image_size as usize]
}

/// The header of an image item.
pub fn image_header(image: &[u8]) -> ImageHeader
    requires { IsImageItem image.now }
    ensures { result ≡ image_header_fields image.now }
{
    match ImageHeader::read(image) {
        Ok(header) => header,
        Err(_) => unreachable!(),
    }
}

/// Header, update image, vendor code and pad of an image item (UEFI 2.10, 23.3.2), as slices of it.
pub fn image_view(item: &[u8]) -> ImageView<'_>
    requires { IsImageItem item.now }
    ensures value { image_seen result ≡ image_of item.now }
    ensures bound { length result.image.now < 2 ^ 32 }
{
    let header = image_header(item);
    let from = image_header_size(header.version) as usize;
    let size = header.image_size as usize;
    let vendor = header.vendor_size as usize;
    ImageView {
        header,
        image: part(item, from, size),
        vendor: part(item, from + size, vendor),
        pad: &item[from + size + vendor..],
    }
}

/// `size` bytes at a place, which are there.
fn part(bytes: &[u8], at: usize, size: usize) -> &[u8]
    requires { at + size ≤ length bytes.now }
    ensures { result.now ≡ field bytes.now at size }
{
    &bytes[at..at + size]
}
