//! The words of every other crate: bytes, text, lists, GUIDs, moments and little-endian numbers.
//!
//! Contracts see a `Blob` and a `Text` as their bytes, and an `Items` as its items and the
//! number of further items that it takes without memory. A number in a format is the
//! little-endian number of its bytes.
#![tactic(auto)]

mod blob;
mod device_state;
mod digest;
mod faults;
mod guid;
mod items;
pub mod laws;
mod limits;
mod moment;
mod number;
mod places;
mod status;
mod steps;
mod text;
mod ticket;
mod time;

pub use blob::Blob;
pub use device_state::DevState;
pub use digest::Digest;
pub use faults::{BaseFault, Failed, NoMemory};
pub use guid::Guid;
pub use items::Items;
pub use limits::MAX_CAPSULE_BYTES;
pub use number::{
    bytes_of_u16, bytes_of_u32, bytes_of_u64, put_u16, put_u32, put_u64, read_u16, read_u32,
    read_u64,
};
pub use places::{guid_at, three_at, u16_at, u32_at, u64_at};
pub use status::EfiStatus;
pub use steps::{CountLedger, Ledger, Steps};
pub use text::Text;
pub use ticket::Ticket;
pub use time::{EfiTime, UNSPECIFIED_ZONE};

/// A list of texts.
pub type Names = Items<Text>;

/// A list of numbers.
pub type Numbers = Items<u64>;

/// A list of blobs.
pub type Blobs = Items<Blob>;
