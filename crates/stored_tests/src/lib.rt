//! Tests of the variables of the platform, over bytes written by hand. They stand in a crate of
//! their own, since a crate with tests is proved twice, and call public things alone.
#![tactic(auto)]

#[cfg(test)]
mod names;
#[cfg(test)]
mod numbers;
#[cfg(test)]
mod progress;
#[cfg(test)]
mod records;
