//! The text of a trace.

mod entries;
mod parts;
mod picture;
mod units;

pub use entries::trace_text;
