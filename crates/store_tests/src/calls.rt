//! The calls of a store on a bench. Each keeps what is asked of both: the store stands on the
//! bench, unless the flash failed it.

ghost use Rattle.std.specs.Prelude.{◌≡◌, IfOk, ℕ, false};
ghost use Rattle.bench_model.specs.Bench.{BenchValue};
ghost use Rattle.mem_bench.specs.State.{state_of};
ghost use Rattle.var_log.specs.Logs.{HasBanks};
ghost use Rattle.var_store.specs.Places.{HasSamePlaces, HavePlaces, KeepsPlaces};
ghost use Rattle.var_store.specs.Stores.{Stands};

use crate::sizes::is_recordable;
use bench_model::Flash;
use mem_bench::MemBench;
use std::process::Abort;
use var_log::Batch;
use var_store::{Prepared, StoreFault, VarStore};

/// The banks are there.
pub(crate) fn check_banks(rt: &impl Abort, bench: &MemBench)
    ensures { HasBanks (state_of bench.now) }
{
    assert!(rt; bench.regions() >= 2);
    let size = bench.size(0);
    assert!(rt; bench.size(1) == size && 65_536 <= size && size <= 1_048_576);
}

/// Prepares a batch that can be one record.
pub(crate) fn prepare(
    rt: &(impl Abort + AllocGlobal),
    store: &mut VarStore,
    batch: &Batch,
) -> Result<Prepared, StoreFault>
    ensures places { IfOk result (λ p. HavePlaces p.changes store.new.places) }
    ensures kept { KeepsPlaces store.old.places store.new.places }
    ensures log { store.new.log ≡ store.old.log }
    ensures stands { (b : BenchValue) → Stands store.old b → Stands store.new b }
{
    assert!(rt; is_recordable(batch.as_slice()));
    store.prepare_set(rt.alloc(), batch)
}

/// Makes room for so many bytes.
pub(crate) fn make_room(
    rt: &(impl Abort + AllocGlobal),
    bench: &mut MemBench,
    store: &mut VarStore,
    bytes: u32,
) -> Result<(), StoreFault>
    requires stands { store.old.log.stale ≡ false → Stands store.old (state_of bench.old) }
    ensures stands { store.new.log.stale ≡ false → Stands store.new (state_of bench.new) }
    ensures places { store.new.places ≡ store.old.places }
{
    check_banks(rt, bench);
    store.room_for(rt.alloc(), bench, bytes)
}

/// Commits what was prepared, where there is room.
pub(crate) fn commit(
    rt: &impl Abort,
    bench: &mut MemBench,
    store: &mut VarStore,
    prepared: Prepared,
) -> Result<(), StoreFault>
    requires stands { store.old.log.stale ≡ false → Stands store.old (state_of bench.old) }
    requires places { HavePlaces prepared.changes store.old.places }
    ensures stands { store.new.log.stale ≡ false → Stands store.new (state_of bench.new) }
    ensures places { HasSamePlaces store.old.places store.new.places }
{
    check_banks(rt, bench);
    assert!(rt; prepared.bytes() <= store.free());
    assert!(rt; store.seq() < u64::MAX);
    store.commit(bench, prepared)
}
