//! The tests of what is asked of the inbox, over a bench in memory. They stand in a crate of their
//! own, since a crate with tests is proved twice, and call public things alone.
#![tactic(auto)]

#[cfg(test)]
mod bench;
#[cfg(test)]
mod orders;
#[cfg(test)]
mod signals;
#[cfg(test)]
mod stagings;
