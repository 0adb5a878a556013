//! Scatter lists of capsules in physical memory (UEFI 2.10, 8.5.3): walked within a bound, and
//! their data blocks joined within a limit.
//!
//! What a walk is stands in `specs/Walk`: the addresses x0, x1, .. and the first index at which a
//! test holds. The code keeps no list of addresses, and takes no memory for a walk.
#![tactic(auto)]

mod blocks;
mod descriptor;
mod faults;
pub mod laws;
mod lay;
mod limits;
mod repeats;
mod told;
mod walk;

pub use blocks::coalesce;
pub use faults::{CoalesceFault, ShapeFault};
pub use lay::lay_list;
pub use limits::{DESCRIPTOR_BYTES, MAX_DESCRIPTORS, MAX_STEPS};
pub use told::Shape;
pub use walk::shape;
