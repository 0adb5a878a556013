//! The tests of the variable log, over a bench in memory. They stand in a crate of their own, since
//! a crate with tests is proved twice, and call public things alone.
#![tactic(auto)]

#[cfg(test)]
mod bench;
#[cfg(test)]
mod cuts;
#[cfg(test)]
mod images;
#[cfg(test)]
mod old_format;
#[cfg(test)]
mod places;
#[cfg(test)]
mod variables;
