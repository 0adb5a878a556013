//! The text of a capsule: what its header says, and line by line its drivers and its images with
//! the parts and the digest of each.
//!
//! `show_text` writes the text of the capsule at the front of bytes straight from these bytes. What
//! a text is stands in `specs/`, and the laws of `laws` say that each capsule has exactly one.
#![tactic(auto)]

mod fmp;
mod front;
mod image;
pub mod laws;
mod names;
mod parts;
mod room;
mod text;
mod words;

pub use text::show_text;
