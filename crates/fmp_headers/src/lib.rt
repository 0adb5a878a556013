//! The headers of a capsule: their layouts, and when one is refused.
#![tactic(auto)]

mod capsule;
mod faults;
mod fmp;
mod guids;
mod image;
mod laws;
mod layout;

pub use capsule::{CAPSULE_HEADER_BYTES, CapsuleHeader};
pub use faults::HeaderFault;
pub use fmp::{DRIVER_COUNT_AT, FMP_HEADER_BYTES, FMP_HEADER_VERSION, FmpHeader, ITEM_COUNT_AT};
pub use guids::FMP_CAPSULE_GUID;
pub use image::{
    IMAGE_HEADER_BYTES, IMAGE_SIZE_AT, ImageHeader, image_header_size, is_image_version,
};
pub use laws::{capsule_header_law, fixed_bytes_are, fmp_header_law, image_header_law};
