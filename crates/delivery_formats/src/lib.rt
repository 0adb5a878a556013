//! What a boot reads of bytes, as the crates of formats have it: the capsules of a delivery, the
//! parts of an update image, whether versions satisfy a dependency section, and the bytes behind a
//! scatter list.
//!
//! `specs/TrueFormats` is the one instance of the formats of the reference machine. The laws say
//! what each part of it is, by the relations of those crates. There is no code to run.
#![tactic(auto)]

mod laws;

pub use laws::{
    capsules_are_those_spelled, deliveries_keep_limits, lists_are_coalesced,
    parts_are_those_of_the_image, sections_are_satisfied_by_their_trees,
};
