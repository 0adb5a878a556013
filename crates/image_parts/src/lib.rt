//! The parts of an update image: authentication data, dependency section, payload header and
//! payload (UEFI 2.10, 23.1 and 23.2; the payload header is EDK II's), and which images are
//! admitted.
//!
//! `split` cuts an image into slices, or tells the first wrong place and what is wrong there. The
//! parts that it gives are the image, one behind another. `is_admitted` says whether the SHA-256 of
//! the whole image is listed.
#![tactic(auto)]

mod admission;
mod authentication;
mod fault;
mod front;
pub mod laws;
mod payload_header;
mod scanning;
mod section;
mod spans;
mod splitting;
mod support;
mod value;
mod window;

pub use admission::is_admitted;
pub use fault::{PartFault, PartRefusal, PartWhy};
pub use scanning::{MAX_KEPT_BYTES, PartScan};
pub use spans::PartSpans;
pub use splitting::split;
pub use value::{AuthParts, Parts, PayloadHead};
