//! Tests of `Feed`, which call what `capsule_feed` offers and nothing else. They stand apart, so that
//! a proof of that crate does not wait for them.
#![tactic(auto)]

#[cfg(test)]
mod capsules;
#[cfg(test)]
mod cuts;
#[cfg(test)]
mod feeds;
#[cfg(test)]
mod many;
#[cfg(test)]
mod refusals;
#[cfg(test)]
mod spans;
