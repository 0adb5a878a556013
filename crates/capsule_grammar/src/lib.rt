//! The grammar of a capsule (UEFI 2.10, 8.5.3 and 23.3.2): which bytes are the spelling of which
//! capsule, and what is wrong with all others.
//!
//! A capsule that fits and is at most 67,108,864 bytes long has one spelling. No spelling begins
//! another. Each list of bytes begins with a spelling or is refused at one place for one cause, and
//! never both: these are the laws of `laws`. `check` takes no memory and copies nothing. `decode`
//! gives the capsule in blobs of its own, `decode_all` one to eight of them back to back, and
//! `encode` writes one. `rebuild` writes the capsule at the front of bytes again without its lead
//! and its pads, and `rebuild_pieces` gives the same in pieces, with no copy of an item. The calls
//! of `accepted`, `item` and `lead` give the parts of bytes that `check` accepted, where they stand.
//! `check_fmp_header`, `check_offsets`, `check_one_offset`, `check_image` and `check_image_start`
//! judge a part by its first bytes and its length, for a reader that does not keep the rest.
#![tactic(auto)]

pub mod accepted;
mod all;
mod checking;
mod decoding;
mod encoding;
mod faults;
mod fitting;
mod header;
pub mod laws;
mod parts;
mod pieces;
mod reading;
mod rebuilding;
mod refusal;
mod sizes;
mod value;

pub use all::{MAX_CAPSULES, decode_all};
pub use checking::{check, item};
pub use decoding::decode;
pub use encoding::encode;
pub use faults::{DecodeFault, EncodeFault};
pub use fitting::fits;
pub use header::{check_capsule_header, is_fmp_guid};
pub use parts::{
    OFFSET_BYTES, check_fmp_header, check_image, check_image_start, check_offsets,
    check_one_offset, driver_count, image_count, item_count, list_end, start_of,
};
pub use pieces::Piece;
pub use reading::lead;
pub use rebuilding::{is_rebuilt, rebuild, rebuild_pieces};
pub use refusal::{Refusal, Why};
pub use value::{Body, Capsule, Capsules, FmpBody, Image, ImageView, Images};
