//! Tests of `fmp_headers`, `capsule_grammar`, `dep_code` and `image_parts`, which call what these
//! crates offer and nothing else. They stand apart, so that a proof of those crates does not wait
//! for them.
#![tactic(auto)]

#[cfg(test)]
mod capsules;
#[cfg(test)]
mod headers;
#[cfg(test)]
mod parts;
#[cfg(test)]
mod sections;
#[cfg(test)]
mod texts;
