//! What a reader of a delivery in pieces tells (UEFI 2.10, 8.5.3 and 23.3.2): the structures of
//! capsules back to back, in order, and the place at which a refusal is told.
//!
//! The structures of a whole (`specs/Structures`) stand one behind the other, each with its kind, its
//! capsule and its item. A refusal is told (`specs/Told`) at the end of the structure that its test
//! reads, or of the item, the capsule or the delivery where that is nearer. `laws` ties both to the
//! definitions of `capsule_grammar`.
//!
//! A reader stands in one structure (`Cursor`), and reads on to the next place where a test is due or
//! the structure ends. `begin_capsule` puts it at the first one, and `turn` tells where it stands
//! behind such a place: `specs/Cursors` says what that means of the whole. `give` gives what of the
//! structure in hand lies between two places. `read` takes a piece so, and `Feed` is the reader that
//! is offered: it answers the refusal from the place on where it is told.
#![tactic(auto)]

mod capsules;
mod cursor;
mod feed;
mod fronts;
mod giving;
mod head;
mod items;
pub mod laws;
mod offset_list;
mod reading;
mod span;
mod turning;

pub use capsules::begin_capsule;
pub use cursor::{Cursor, Fate};
pub use feed::Feed;
pub use giving::{give, give_all};
pub use head::Head;
pub use offset_list::OffsetList;
pub use span::{Events, Span, SpanKind};
pub use turning::turn;
