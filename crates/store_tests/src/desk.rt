//! A bench with an opened store, and what is done with them.

use crate::bench::{BANK, OURS, bench, delete_of, one, set_of};
use crate::calls;
use cu_base::Guid;
use mem_bench::MemBench;
use std::marker::Model;
use std::process::Abort;
use std::test::Fail;
use var_log::Batch;
use var_store::{StoreFault, VarStore};

/// A bench with a store that stands on it, unless the flash failed it.
#[derive(Drop)]
pub(crate) struct Desk {
    bench: MemBench,
    store: VarStore,
}

impl Model for Desk {
    ghost use Rattle.std.specs.Prelude.{◌≡◌, false};
    ghost use Rattle.mem_bench.specs.State.{state_of};
    ghost use Rattle.var_store.specs.Stores.{HeldStore, Stands};

    ghost Value = { HeldStore };

    ghost view = { λ d. d.store };

    ghost invariant = { λ d. d.store.log.stale ≡ false → Stands d.store (state_of d.bench) };
}

impl Desk {
    /// Opens the store of a bench.
    pub(crate) fn open(
        rt: &(impl Abort + AllocGlobal),
        mut bench: MemBench,
    ) -> Result<Desk, StoreFault> {
        calls::check_banks(rt, &bench);
        let store = VarStore::open(rt.alloc(), &mut bench)?;
        Ok(Desk { bench, store })
    }

    /// The store.
    pub(crate) fn store(&self) -> &VarStore {
        &self.store
    }

    /// The bench alone.
    pub(crate) fn into_bench(self) -> MemBench {
        let Desk { bench, .. } = self;
        bench
    }

    /// Makes room for so many bytes.
    pub(crate) fn room_for(
        &mut self,
        rt: &(impl Abort + AllocGlobal),
        bytes: u32,
    ) -> Result<(), StoreFault> {
        calls::make_room(rt, &mut self.bench, &mut self.store, bytes)
    }

    /// Prepares a batch and commits it, where there is room.
    pub(crate) fn commit(
        &mut self,
        rt: &(impl Abort + AllocGlobal),
        batch: &Batch,
    ) -> Result<(), StoreFault> {
        let prepared = calls::prepare(rt, &mut self.store, batch)?;
        calls::commit(rt, &mut self.bench, &mut self.store, prepared)
    }

    /// Prepares a batch, makes room for it and commits it.
    pub(crate) fn put(
        &mut self,
        rt: &(impl Abort + AllocGlobal),
        batch: &Batch,
    ) -> Result<(), StoreFault> {
        let prepared = calls::prepare(rt, &mut self.store, batch)?;
        calls::make_room(rt, &mut self.bench, &mut self.store, prepared.bytes())?;
        calls::commit(rt, &mut self.bench, &mut self.store, prepared)
    }

    /// Prepares a batch and then another, and commits them in the other order.
    pub(crate) fn commit_crossed(
        &mut self,
        rt: &(impl Abort + AllocGlobal),
        first: &Batch,
        second: &Batch,
    ) -> Result<(), StoreFault> {
        let early = calls::prepare(rt, &mut self.store, first)?;
        let late = calls::prepare(rt, &mut self.store, second)?;
        calls::commit(rt, &mut self.bench, &mut self.store, late)?;
        calls::commit(rt, &mut self.bench, &mut self.store, early)
    }

    /// Prepares a batch and commits it, and tells whether it could be prepared.
    pub(crate) fn try_commit(
        &mut self,
        rt: &(impl Abort + AllocGlobal),
        batch: &Batch,
    ) -> Result<bool, StoreFault> {
        match calls::prepare(rt, &mut self.store, batch) {
            Ok(prepared) => {
                calls::commit(rt, &mut self.bench, &mut self.store, prepared)?;
                Ok(true)
            }
            Err(_) => Ok(false),
        }
    }
}

/// A bench with an empty store.
pub(crate) fn empty_desk(rt: &(impl Abort + AllocGlobal)) -> Result<Desk, Fail> {
    let bench = bench(rt, BANK)?;
    let desk = Desk::open(rt, bench)?;
    Ok(desk)
}

/// Opens the store anew.
pub(crate) fn again(rt: &(impl Abort + AllocGlobal), desk: Desk) -> Result<Desk, Fail> {
    let desk = Desk::open(rt, desk.into_bench())?;
    Ok(desk)
}

/// Sets a variable.
pub(crate) fn set(
    rt: &(impl Abort + AllocGlobal),
    desk: &mut Desk,
    name: &str,
    data: &[u8],
) -> Result<(), Fail> {
    let batch = one(rt, set_of(rt, OURS, name, data)?)?;
    desk.put(rt, &batch)?;
    Ok(())
}

/// Deletes a variable.
pub(crate) fn delete(
    rt: &(impl Abort + AllocGlobal),
    desk: &mut Desk,
    name: &str,
) -> Result<(), Fail> {
    let batch = one(rt, delete_of(rt, OURS, name)?)?;
    desk.put(rt, &batch)?;
    Ok(())
}

/// Whether a variable has this data.
pub(crate) fn has(desk: &Desk, name: &str, data: &[u8]) -> bool {
    match desk.store().get(name, &Guid { bytes: OURS }) {
        Some(value) => value.bytes == data,
        None => false,
    }
}

/// Whether there is no such variable.
pub(crate) fn lacks(desk: &Desk, name: &str) -> bool {
    desk.store().get(name, &Guid { bytes: OURS }).is_none()
}

/// Whether these are the names of all variables, in order, all of one GUID.
pub(crate) fn has_names(
    rt: &(impl Abort + AllocGlobal),
    desk: &Desk,
    want: &[&str],
) -> Result<bool, Fail> {
    let names = desk.store().names(rt.alloc())?;
    let names = names.as_slice();
    Ok(
        names.len() == want.len()
            && names
                .iter()
                .zip(want)
                .all(|(is, want)| is.name.as_str() == *want),
    )
}
