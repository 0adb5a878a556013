//! The deliveries that wait in memory.

ghost use Rattle.std.specs.Prelude.{◌≡◌, ◌<◌, IfOk};
ghost use Rattle.stored_vars.specs.Holds.{pairs_of, staged_at, staged_of};
ghost use Rattle.var_store.specs.Stores.{variables_of};

use cu_base::NoMemory;
use reference_machine::{Staged, StagedPair};
use std::alloc::Global;
use stored_vars::{StoredVar, stored_pair};
use var_store::VarStore;

/// The staged deliveries by rising serial; those of one serial by the numbers of their variables.
pub fn staged(alloc: Global, store: &VarStore) -> Result<Staged, NoMemory>
    ensures { IfOk result (λ pairs. pairs.items ≡ staged_of (variables_of store.now)) }
{
    let mut pairs = pairs_of(alloc, store)?;
    match pairs.sort_by_key(|pair| pair.serial) {
        Ok(()) => Staged::from_slice(alloc, &pairs),
        Err(_) => Err(NoMemory),
    }
}

/// The staged deliveries by the numbers of their variables.
#[tactic(auto, using(crate::proofs::WaitingLemmas::none_more, crate::proofs::WaitingLemmas::one_more))]
fn pairs_of(alloc: Global, store: &VarStore) -> Result<Vec<StagedPair>, NoMemory>
    ensures { IfOk result (λ pairs. pairs.items ≡ pairs_of (variables_of store.now)) }
{
    let mut pairs = Vec::new(alloc);
    for number in 0..8 {
        if let Some(pair) = staged_at(store, number) {
            if pairs.push(pair).is_err() {
                return Err(NoMemory);
            }
        }
    }
    Ok(pairs)
}

/// The delivery that a variable keeps.
pub(crate) fn staged_at(store: &VarStore, number: u8) -> Option<StagedPair>
    requires { number < 8 }
    ensures { result ≡ staged_at (variables_of store.now) number }
{
    let variable = StoredVar::Stage(number);
    match store.get(variable.name(), &variable.guid()) {
        Some(value) => stored_pair(value.bytes),
        None => None,
    }
}
