//! Tests of `cu_base` and `cu_io`, which call what these crates offer and nothing else. They stand
//! apart, so that a proof of those crates does not wait for them.
#![tactic(auto)]

#[cfg(test)]
mod streams;
#[cfg(test)]
mod words;
