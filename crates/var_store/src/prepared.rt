//! What a commit needs is made before it.

ghost use Rattle.std.specs.Prelude.{◌≡◌, ◌≤◌, All, IsTrue, IfNone, IfOk, OnOk, length};
ghost use Rattle.bench_model.specs.Bench.{BenchValue};
ghost use Rattle.cu_base.specs.Refusals.{first_refusal};
ghost use Rattle.var_log.specs.Changes.{keeps_limits};
ghost use Rattle.var_log.specs.Records.{body_of, record_size};
ghost use Rattle.var_store.specs.Answers.{PreparesAs, change_rows, refusal_of};
ghost use Rattle.var_store.specs.Places.{HavePlaces};
ghost use Rattle.var_store.specs.Stores.{OnlyMakesPlaces, Stands, prepared_of};

use crate::places::copy_of;
use crate::{StoreFault, VarStore};
use cu_base::NoMemory;
use std::alloc::Global;
use std::marker::Model;
use var_log::{Batch, Change, MAX_CHANGES, MAX_DATA, MAX_RECORD, Record, is_name};

/// A batch that is ready to be committed: its record, and the changes that the commit puts into the
/// map.
#[derive(Drop)]
pub struct Prepared {
    pub(crate) record: Record,
    pub(crate) changes: Vec<Change>,
}

impl Model for Prepared {
    ghost use Rattle.std.specs.Prelude.{◌≡◌, All, IsTrue};
    ghost use Rattle.var_log.specs.Changes.{keeps_limits};
    ghost use Rattle.var_store.specs.Stores.{PreparedValue, IsPrepared, prepared_with};

    ghost Value = { PreparedValue };

    ghost view = { λ p. prepared_with p.record.changes p.record.size };

    ghost invariant = { λ p. IsPrepared p.record.changes p.changes.items };
}

impl Prepared {
    /// The bytes that its record takes in a bank.
    pub fn bytes(&self) -> u32
        ensures value { result ≡ self.now.size }
    {
        self.record.size()
    }
}

impl VarStore {
    /// Makes all that a commit of the batch needs: its record, its changes, and a place for each
    /// variable of it. BadName and TooBig come for the first change outside the limits. After a
    /// refusal the variables are as they were.
    #[tactic(auto, using(crate::proofs::StoreLemmas::stands_still))]
    pub fn prepare_set(&mut self, alloc: Global, batch: &Batch) -> Result<Prepared, StoreFault>
        requires count { length batch.now.items ≤ MAX_CHANGES }
        requires size { record_size 2 (length (body_of batch.now.items)) ≤ MAX_RECORD }
        ensures value { PreparesAs batch.now.items result }
        ensures places { OnOk result (HavePlaces batch.now.items self.new.places) }
        ensures stands { (b : BenchValue) → Stands self.old b → Stands self.new b }
        ensures frame { OnlyMakesPlaces self.old self.new }
    {
        if let Some(fault) = refusal_of(batch.as_slice()) {
            return Err(fault);
        }
        match self.prepare(alloc, batch) {
            Ok(prepared) => Ok(prepared),
            Err(_) => Err(StoreFault::Memory),
        }
    }

    // The same of a batch within the limits.
    fn prepare(&mut self, alloc: Global, batch: &Batch) -> Result<Prepared, NoMemory>
        requires limits { All (λ c. IsTrue (keeps_limits c)) batch.now.items }
        requires count { length batch.now.items ≤ MAX_CHANGES }
        requires size { record_size 2 (length (body_of batch.now.items)) ≤ MAX_RECORD }
        ensures value { IfOk result (λ p. p ≡ prepared_of batch.now.items) }
        ensures places { OnOk result (HavePlaces batch.now.items self.new.places) }
        ensures frame { OnlyMakesPlaces self.old self.new }
    {
        let record = Record::of(alloc, batch)?;
        let changes = copies_of(alloc, batch.as_slice())?;
        self.places.make_places(alloc, batch.as_slice())?;
        Ok(Prepared { record, changes })
    }
}

// The refusal of the first change outside the limits.
fn refusal_of(changes: &[Change]) -> Option<StoreFault>
    ensures value { result ≡ refusal_of changes.now }
    ensures limits { IfNone result (All (λ c. IsTrue (keeps_limits c)) changes.now) }
{
    for change in changes {
        let refusal = refusal_of_change(change);
        if refusal.is_some() {
            return refusal;
        }
    }
    None
}

// Why a change is refused.
fn refusal_of_change(change: &Change) -> Option<StoreFault>
    ensures value { result ≡ first_refusal (change_rows change.now) }
    ensures limits { IfNone result (IsTrue (keeps_limits change.now)) }
{
    if !is_name(change.name().as_str().as_bytes()) {
        return Some(StoreFault::BadName);
    }
    match change {
        Change::Set { value, .. } if value.len() > MAX_DATA => Some(StoreFault::TooBig),
        _ => None,
    }
}

// The same changes.
fn copies_of(alloc: Global, changes: &[Change]) -> Result<Vec<Change>, NoMemory>
    ensures value { IfOk result (λ v. v.items ≡ changes.now) }
{
    let mut copies = Vec::new(alloc);
    if copies.reserve_exact(changes.len()).is_err() {
        return Err(NoMemory);
    }
    for change in changes {
        let copy = copy_of(alloc, change)?;
        if copies.push(copy).is_err() {
            return Err(NoMemory);
        }
    }
    Ok(copies)
}
