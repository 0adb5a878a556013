//! An image of 64 MiB set as the slot of a device.

ghost use Rattle.std.specs.Prelude.{◌≡◌, IfOk};
ghost use Rattle.mem_bench.specs.State.{state_of};
ghost use Rattle.fmp_slot.specs.Held.{IsBegun, IsToldStable};

use crate::boards::{laid_out, large_device};
use crate::stop::Stop;
use bench_model::{Bench, Flash, SLOT_LEAD};
use cu_base::Ticket;
use fmp_slot::{SlotHead, set_image};
use mem_bench::MemBench;
use std::alloc::Global;

/// The bytes of the image.
const SIZE: usize = 67_108_864;

/// The region of the device.
const REGION: u32 = 2;

/// The ticket of the image.
const TICKET: Ticket = Ticket {
    route: 1,
    capsule: 0,
    item: 0,
    serial: 1,
};

/// Sets the image.
pub fn measure(alloc: Global) -> Result<(), Stop> {
    let Ok(payload) = vec![in alloc; 0x77; SIZE] else {
        return Err(Stop::Memory);
    };
    let mut bench = begun(alloc)?;
    if bench.regions() <= REGION || bench.size(REGION) <= SLOT_LEAD {
        return Err(Stop::Board);
    }
    let head = SlotHead {
        ticket: TICKET,
        version: 2,
        floor: 1,
        length: SIZE as u32,
        dep_length: 0,
    };
    set_image(&mut bench, 0, &head, &[], payload.as_slice())?;
    Ok(())
}

/// A bench whose one device is begun.
fn begun(alloc: Global) -> Result<MemBench, Stop>
    ensures begun { IfOk result (λ b. IsBegun 0 (state_of b)) }
    ensures stable { IfOk result (λ b. IsToldStable 0 (state_of b)) }
{
    let board = large_device(alloc)?;
    let mut bench = MemBench::new(alloc);
    bench.lay_out(alloc, &board)?;
    if bench.regions() <= REGION {
        return Err(Stop::Board);
    }
    bench.ready(0)?;
    bench.begin(0, TICKET)?;
    Ok(bench)
}
