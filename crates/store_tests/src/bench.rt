//! Benches in memory with an empty log of variables, and batches.

use bench_model::{Bench, Board, Choice, Device, Devices, Digests, Flash, is_device_name};
use cu_base::{Blob, Failed, Guid, NoMemory, Text};
use mem_bench::MemBench;
use std::process::Abort;
use var_log::{Batch, Change};

/// The bytes of a bank.
pub(crate) const BANK: u32 = 65_536;

/// The GUID of the variables that are of no special one.
pub(crate) const OURS: [u8; 16] = [7; 16];

/// The attributes of the variables that are of no special ones.
pub(crate) const KEPT: u32 = 3;

/// A board with one device, whose banks have so many bytes.
fn board(rt: &(impl Abort + AllocGlobal), bank: u32) -> Result<Board, NoMemory> {
    let alloc = rt.alloc();
    let mut devices = Devices::new(alloc);
    assert!(rt; is_device_name("sys"));
    assert!(rt; BANK <= bank && bank <= 1_048_576);
    let device = Device {
        name: Text::from_str(alloc, "sys")?,
        type_id: Guid { bytes: OURS },
        index: 1,
        instance: 0,
        fw_type: 1,
        capacity: 64,
        version: 2,
        floor: 1,
        flags: 0,
    };
    devices.push(device)?;
    Ok(Board::new(bank, 2, false, 15, Digests::new(alloc), devices))
}

/// A bench of that board: bank 0 is the empty log, and bank 1 reads 0xFF.
pub(crate) fn bench(rt: &(impl Abort + AllocGlobal), bank: u32) -> Result<MemBench, NoMemory> {
    let board = board(rt, bank)?;
    let mut bench = MemBench::new(rt.alloc());
    bench.lay_out(rt.alloc(), &board)?;
    Ok(bench)
}

/// Writes bytes into bank 0.
pub(crate) fn write(
    rt: &impl Abort,
    bench: &mut MemBench,
    at: u32,
    bytes: &[u8],
) -> Result<(), Failed> {
    assert!(rt; bench.regions() > 0);
    assert!(rt; at as usize + bytes.len() <= bench.size(0) as usize);
    bench.write(0, at, bytes)
}

/// Orders a power cut.
pub(crate) fn arm(rt: &impl Abort, bench: &mut MemBench, after: u32, choice: Choice) {
    assert!(rt; bench.order_room() > 0);
    bench.arm(after, choice);
}

/// Resets the platform, and dirty bytes are lost.
pub(crate) fn cycle(rt: &impl Abort, bench: &mut MemBench) {
    assert!(rt; bench.order_room() > 0);
    bench.cycle(true);
}

/// A set of a variable.
pub(crate) fn set_of(
    rt: &impl AllocGlobal,
    guid: [u8; 16],
    name: &str,
    data: &[u8],
) -> Result<Change, NoMemory> {
    let alloc = rt.alloc();
    Ok(Change::Set {
        name: Text::from_str(alloc, name)?,
        guid: Guid { bytes: guid },
        attributes: KEPT,
        value: Blob::from_slice(alloc, data)?,
    })
}

/// A delete of a variable.
pub(crate) fn delete_of(
    rt: &impl AllocGlobal,
    guid: [u8; 16],
    name: &str,
) -> Result<Change, NoMemory> {
    Ok(Change::Delete {
        name: Text::from_str(rt.alloc(), name)?,
        guid: Guid { bytes: guid },
    })
}

/// Adds a change of another variable than the changes before.
pub(crate) fn add(rt: &impl Abort, batch: &mut Batch, change: Change) -> Result<(), NoMemory> {
    let guid = *change.guid();
    assert!(rt; !batch.has_key(change.name().as_str(), &guid));
    batch.push(change)
}

/// The batch of one change.
pub(crate) fn one(rt: &impl AllocGlobal, change: Change) -> Result<Batch, NoMemory> {
    let mut batch = Batch::new(rt.alloc());
    batch.push(change)?;
    Ok(batch)
}

/// The batch of two changes of two variables.
pub(crate) fn two(
    rt: &(impl Abort + AllocGlobal),
    first: Change,
    second: Change,
) -> Result<Batch, NoMemory> {
    let mut batch = Batch::new(rt.alloc());
    batch.push(first)?;
    add(rt, &mut batch, second)?;
    Ok(batch)
}

/// The data of the longest variable.
pub(crate) fn long() -> [u8; 16_384] {
    [0x11; 16_384]
}
