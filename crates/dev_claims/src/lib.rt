//! What a store of variables tells of the devices of a board: their states, the claim that is open,
//! and how much of each file is spent; and the batches that the calls on claims commit.
#![tactic(auto)]

mod attempt;
mod claimed;
mod closed;
mod closing;
mod committing;
mod dropped;
mod ending;
mod fault;
mod laws;
mod preparing;
mod pruning;
mod reading;
mod settling;

pub use attempt::{Attempt, claim, settle};
pub use closed::close_unit;
pub use closing::UnitIds;
pub use dropped::prune;
pub use fault::ClaimFault;
pub use laws::{
    a_claim_opens_a_unit, a_settlement_closes_the_open_unit, a_unit_is_closed_without_a_claim,
    an_empty_store_is_fresh, clearing_drops_all_progress, due_units_are_next,
    pruning_drops_what_is_gone, units_are_closed_as_told, unstaging_takes_one_out,
};
pub use preparing::prepare_attempt;
pub use reading::{dev_state, open_claim, progress};
pub use reference_machine::{End, Kind, UnitKey, UnitLine};
pub use settling::settle_open;
pub use stored_vars::{Claim, DevRec};
