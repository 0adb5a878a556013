//! The tests of the bench in memory. They stand in a crate of their own, since a crate with tests is
//! proved twice, and call public things alone.
#![tactic(auto)]

#[cfg(test)]
mod tests;
