//! Tests of `PartScan`, which call what `image_parts` offers and nothing else. They stand apart, so
//! that a proof of that crate does not wait for them.
#![tactic(auto)]

#[cfg(test)]
mod cuts;
#[cfg(test)]
mod images;
#[cfg(test)]
mod places;
#[cfg(test)]
mod refusals;
#[cfg(test)]
mod scans;
