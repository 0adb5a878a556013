//! The tests of boots and of plays over a bench in memory. They stand in a crate of their own, since
//! a crate with tests is proved twice, and call public things alone.
#![tactic(auto)]

#[cfg(test)]
mod bench;
#[cfg(test)]
mod cuts;
#[cfg(test)]
mod deliveries;
#[cfg(test)]
mod folder;
#[cfg(test)]
mod plays;
