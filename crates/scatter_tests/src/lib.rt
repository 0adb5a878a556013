//! The tests of scatter lists and of the memory that they lie in. They stand in a crate of their
//! own, since a crate with tests is proved twice, and call public things alone.
#![tactic(auto)]

#[cfg(test)]
mod joins;
#[cfg(test)]
mod laid;
#[cfg(test)]
mod long;
#[cfg(test)]
mod reads;
#[cfg(test)]
mod walks;
