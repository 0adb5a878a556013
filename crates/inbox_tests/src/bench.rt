//! Benches in memory with an empty store of variables.

ghost use Rattle.mem_bench.specs.State.{state_of};
ghost use Rattle.var_log.specs.Logs.{HasBanks};

use bench_model::{Bench, Board, Device, Devices, Digests, Flash, is_device_name};
use cu_base::{Guid, NoMemory, Text};
use mem_bench::MemBench;
use std::process::Abort;

/// A bench of a board with one device and banks of 65,536 bytes: bank 0 is the empty log.
pub(crate) fn bench(rt: &(impl Abort + AllocGlobal)) -> Result<MemBench, NoMemory> {
    let alloc = rt.alloc();
    let mut devices = Devices::new(alloc);
    assert!(rt; is_device_name("sys"));
    let device = Device {
        name: Text::from_str(alloc, "sys")?,
        type_id: Guid { bytes: [7; 16] },
        index: 1,
        instance: 0,
        fw_type: 1,
        capacity: 64,
        version: 2,
        floor: 1,
        flags: 0,
    };
    devices.push(device)?;
    let board = Board::new(65_536, 2, false, 15, Digests::new(alloc), devices);
    let mut bench = MemBench::new(alloc);
    bench.lay_out(alloc, &board)?;
    Ok(bench)
}

/// The banks are there.
pub(crate) fn check_banks(rt: &impl Abort, bench: &MemBench)
    ensures { HasBanks (state_of bench.now) }
{
    assert!(rt; bench.regions() >= 2);
    let size = bench.size(0);
    assert!(rt; bench.size(1) == size && 65_536 <= size && size <= 1_048_576);
}
