//! Tests of `recipe_files`, `report_tables` and `reset_play`, which call what these crates offer and nothing else.
//! They stand apart, so that a proof of those crates does not wait for them.
#![tactic(auto)]

#[cfg(test)]
mod boards;
#[cfg(test)]
mod platform;
#[cfg(test)]
mod recipes;
#[cfg(test)]
mod reports;
#[cfg(test)]
mod scripts;
#[cfg(test)]
mod traces;
