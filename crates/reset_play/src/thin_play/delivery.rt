//! What a thin delivery says, and the parts of its image.

ghost use Rattle.std.specs.Prelude.{◌≡◌, ◌≤◌, ◌<◌, ◌^◌, length, option_map};
ghost use Rattle.std.specs.List.{list_any};
ghost use Rattle.reference_machine.specs.Deliveries.{is_target};
ghost use Rattle.reset_play.specs.Plays.{is_thin_on};
ghost use Rattle.reset_play.specs.Thin.{has_thin_header, has_thin_body, has_thin_image, is_thin};
ghost use Rattle.delivery_formats.specs.TrueFormats.{true_formats};
ghost use Rattle.reset_play.specs.ThinValues.{item_of, thin_said, parts_of};

use bench_model::{Board, Device};
use cu_base::{Guid, MAX_CAPSULE_BYTES, guid_at, u16_at, u32_at, u64_at};
use fmp_headers::FMP_CAPSULE_GUID;
use image_parts::{Parts, split};
use std::alloc::Global;

/// The bytes before the image of a thin delivery: a capsule header, an FMP header with one offset
/// and an image header of version 3.
pub const THIN_HEADER_BYTES: usize = 92;

/// What a thin delivery says.
#[derive(Clone, Copy)]
pub struct ThinItem<'a> {
    /// UpdateImageTypeId.
    pub type_id: Guid,
    /// UpdateImageIndex.
    pub index: u8,
    /// UpdateHardwareInstance.
    pub instance: u64,
    /// The update image.
    pub image: &'a [u8],
}

// Whether GUID, HeaderSize and CapsuleImageSize of the capsule header are those of a thin delivery.
fn has_thin_header(bytes: &[u8]) -> bool
    requires { THIN_HEADER_BYTES ≤ length bytes.now }
    ensures { result ≡ has_thin_header bytes.now }
{
    guid_at(bytes, 0).bytes == FMP_CAPSULE_GUID.bytes
        && u32_at(bytes, 16) == 28
        && u32_at(bytes, 24) as usize == bytes.len()
}

// Whether the FMP header has version 1, no driver and one item, which stands right behind its
// offset.
fn has_thin_body(bytes: &[u8]) -> bool
    requires { THIN_HEADER_BYTES ≤ length bytes.now }
    ensures { result ≡ has_thin_body bytes.now }
{
    u32_at(bytes, 28) == 1
        && u16_at(bytes, 32) == 0
        && u16_at(bytes, 34) == 1
        && u64_at(bytes, 36) == 16
}

// Whether the image header has version 3 and support 0, and image and vendor code end with the
// bytes.
fn has_thin_image(bytes: &[u8]) -> bool
    requires { THIN_HEADER_BYTES ≤ length bytes.now }
    ensures { result ≡ has_thin_image bytes.now }
{
    u32_at(bytes, 44) == 3
        && u64_at(bytes, 84) == 0
        && THIN_HEADER_BYTES + u32_at(bytes, 68) as usize + u32_at(bytes, 72) as usize
            == bytes.len()
}

fn is_thin(bytes: &[u8]) -> bool
    ensures { result ≡ is_thin bytes.now }
{
    THIN_HEADER_BYTES <= bytes.len()
        && bytes.len() <= MAX_CAPSULE_BYTES as usize
        && has_thin_header(bytes)
        && has_thin_body(bytes)
        && has_thin_image(bytes)
}

/// What the delivery says. None exactly where it is not thin.
pub fn read_thin(bytes: &[u8]) -> Option<ThinItem<'_>>
    ensures { option_map item_of result ≡ thin_said bytes.now }
{
    if !is_thin(bytes) {
        return None;
    }
    let size = u32_at(bytes, 68) as usize;
    Some(ThinItem {
        type_id: guid_at(bytes, 48),
        index: bytes[64],
        instance: u64_at(bytes, 76),
        image: &bytes[THIN_HEADER_BYTES..THIN_HEADER_BYTES + size],
    })
}

// Whether the item has the device as target.
fn is_target(item: &ThinItem<'_>, device: &Device) -> bool
    ensures { result ≡ is_target (item_of item.now).head device.now }
{
    item.type_id.bytes == device.type_id.bytes
        && item.index == device.index
        && (item.instance == 0 || item.instance == device.instance)
}

/// Whether the bytes are a thin delivery that has a target on the board.
pub fn is_thin_on(board: &Board, bytes: &[u8]) -> bool
    ensures { result ≡ is_thin_on board.now bytes.now }
{
    match read_thin(bytes) {
        Some(item) => has_target(&item, board.devices()),
        None => false,
    }
}

// Whether the item has a target among the devices.
fn has_target(item: &ThinItem<'_>, devices: &[Device]) -> bool
    ensures { result ≡ list_any (is_target (item_of item.now).head) devices.now }
{
    devices.iter().any(|device| is_target(item, device))
}

/// The parts of an update image of support 0, None exactly where it is refused: `split` takes no
/// memory where no section is due.
pub fn parts_in(alloc: Global, image: &[u8]) -> Option<Parts<'_>>
    requires { length image.now < 2 ^ 32 }
    ensures { option_map parts_of result ≡ true_formats.parts image.now 0 }
{
    match split(alloc, image, 0) {
        Ok(parts) => Some(parts),
        Err(_) => None,
    }
}
