//! A store of 16 variables on banks of 65,536 bytes, which are set in turn: each batch is one set
//! of 64 bytes, and is prepared, has room made for it, and is committed.

ghost use Rattle.std.specs.Prelude.{◌≤◌, IfOk, OnOk, length};
ghost use Rattle.mem_bench.specs.State.{state_of};
ghost use Rattle.var_log.specs.Logs.{HasBanks};
ghost use Rattle.var_log.specs.Records.{body_of, record_size};
ghost use Rattle.var_store.specs.Stores.{Stands};

use crate::boards::{laid_out, large_device};
use crate::stop::Stop;
use bench_model::Flash;
use cu_base::{Blob, Guid, NoMemory, Text};
use mem_bench::MemBench;
use std::alloc::Global;
use var_log::{Batch, Change, MAX_CHANGES, MAX_RECORD};
use var_store::{StoreFault, VarStore};

/// How many commits there are.
const COMMITS: u32 = 20_000;

/// The bytes of a variable.
const DATA: usize = 64;

/// Makes the commits.
pub fn measure(alloc: Global) -> Result<(), Stop> {
    let mut bench = laid_out(alloc, &large_device(alloc)?)?;
    check_banks(&bench)?;
    let Ok(mut store) = VarStore::open(alloc, &mut bench) else {
        return Err(Stop::Failed);
    };
    commit_all(alloc, &mut bench, &mut store)?;
    if store.seq() == u64::from(COMMITS) {
        Ok(())
    } else {
        Err(Stop::Failed)
    }
}

/// Makes them in a store.
fn commit_all(alloc: Global, bench: &mut MemBench, store: &mut VarStore) -> Result<(), Stop>
    requires stands { Stands store.old (state_of bench.old) }
{
    for number in 0..COMMITS {
        let batch = batch(alloc, number)?;
        check_banks(bench)?;
        match commit(alloc, bench, store, &batch) {
            Ok(()) => (),
            Err(_fault) => return Err(Stop::Failed),
        }
    }
    Ok(())
}

/// Prepares a batch, makes room for it and commits it.
fn commit(
    alloc: Global,
    bench: &mut MemBench,
    store: &mut VarStore,
    batch: &Batch,
) -> Result<(), StoreFault>
    requires banks { HasBanks (state_of bench.old) }
    requires stands { Stands store.old (state_of bench.old) }
    requires count { length batch.now.items ≤ MAX_CHANGES }
    requires size { record_size 2 (length (body_of batch.now.items)) ≤ MAX_RECORD }
    ensures stands { OnOk result (Stands store.new (state_of bench.new)) }
{
    let prepared = store.prepare_set(alloc, batch)?;
    store.room_for(alloc, bench, prepared.bytes())?;
    store.commit(bench, prepared)
}

/// The set of a variable of 16, which are named for the last digit of a number in base 16.
fn batch(alloc: Global, number: u32) -> Result<Batch, NoMemory>
    ensures count { IfOk result (λ b. length b.items ≤ MAX_CHANGES) }
    ensures size { IfOk result (λ b. record_size 2 (length (body_of b.items)) ≤ MAX_RECORD) }
{
    let mut guid = [7; 16];
    guid[0] = (number % 16) as u8;
    let mut batch = Batch::new(alloc);
    batch.push(Change::Set {
        name: Text::from_str(alloc, "A")?,
        guid: Guid { bytes: guid },
        attributes: 3,
        value: Blob::from_slice(alloc, &[(number % 256) as u8; DATA])?,
    })?;
    Ok(batch)
}

/// The banks are there.
fn check_banks(bench: &MemBench) -> Result<(), Stop>
    ensures { IfOk result (λ _. HasBanks (state_of bench.now)) }
{
    if bench.regions() < 2 {
        return Err(Stop::Board);
    }
    let size = bench.size(0);
    if bench.size(1) != size || size < 65_536 || size > 1_048_576 {
        return Err(Stop::Board);
    }
    Ok(())
}
