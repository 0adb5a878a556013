//! What a board leaves the factory with: a bank with an empty log, a blank one, and sealed devices.

ghost use Rattle.std.specs.Prelude.{◌≡◌, ◌≤◌, [], ◌∷◌, ◌++◌, length, map, replicate, IfOk, OnOk};
ghost use Rattle.bench_model.specs.Devices.{AreDevices};
ghost use Rattle.bench_model.specs.Factory.{bank_head, filled, first_device, first_regions};
ghost use Rattle.bench_model.specs.Factory.{region_size, slot_head};
ghost use Rattle.mem_bench.specs.Parts.{no_tickets};
ghost use Rattle.mem_bench.specs.Regions.{stable_region};

use crate::region::Region;
use crate::tickets::Tickets;
use bench_model::{Board, Device, MAX_CAPACITY, SLOT_LEAD};
use cu_base::{Blob, NoMemory, put_u32, put_u64};
use std::alloc::Global;

/// An open gate of a bank, and the seal of a slot.
const OPEN: u8 = 0x5A;

/// The format of a slot that the factory seals.
const SLOT_FORMAT: u32 = 2;

/// The generation of the first log.
const FIRST_GENERATION: u64 = 1;

/// The route of the factory's ticket.
const FACTORY_ROUTE: u8 = 255;

/// All regions of a board, none of them dirty.
pub fn first_regions(alloc: Global, board: &Board) -> Result<Vec<Region>, NoMemory>
    ensures { IfOk result (λ v. v.items ≡ map stable_region (first_regions board.now)) }
{
    let mut regions = Vec::new(alloc);
    let head = bank_head(alloc, board.store())?;
    push(&mut regions, headed(alloc, board.bank(), head.as_slice())?)?;
    push(&mut regions, headed(alloc, board.bank(), &[])?)?;
    push_devices(alloc, &mut regions, board.two_banks(), board.devices())?;
    Ok(regions)
}

/// Appends the regions of devices.
fn push_devices(
    alloc: Global,
    regions: &mut Vec<Region>,
    two_banks: bool,
    devices: &[Device],
) -> Result<(), NoMemory>
    requires { AreDevices devices.now }
    ensures { OnOk result (regions.new.items ≡ regions.old.items
        ++ map stable_region (map (first_device two_banks) devices.now)) }
{
    for device in devices {
        push(regions, first_device(alloc, two_banks, device)?)?;
    }
    Ok(())
}

/// No tickets of any device.
pub fn first_tickets(alloc: Global, devices: usize) -> Result<Vec<Tickets>, NoMemory>
    ensures { IfOk result (λ v. v.items ≡ replicate devices no_tickets) }
{
    let mut all = Vec::new(alloc);
    for _ in 0..devices {
        push(&mut all, Tickets::new(alloc))?;
    }
    Ok(all)
}

/// Appends an item.
fn push<T: Drop>(items: &mut Vec<T>, item: T) -> Result<(), NoMemory>
    ensures { OnOk result (items.new.items ≡ items.old.items ++ item ∷ []) }
{
    match items.push(item) {
        Ok(()) => Ok(()),
        Err(_) => Err(NoMemory),
    }
}

/// The region of a device: its slot, or the first of its two, is sealed.
fn first_device(alloc: Global, two_banks: bool, device: &Device) -> Result<Region, NoMemory>
    requires { device.now.capacity ≤ MAX_CAPACITY }
    ensures { IfOk result (λ r. r ≡ stable_region (first_device two_banks device.now)) }
{
    let head = slot_head(alloc, device.version, device.floor)?;
    headed(
        alloc,
        region_size(two_banks, device.capacity),
        head.as_slice(),
    )
}

/// The bytes of a device's region.
fn region_size(two_banks: bool, capacity: u32) -> u32
    requires { capacity ≤ MAX_CAPACITY }
    ensures value { result ≡ region_size two_banks capacity }
    ensures bound { SLOT_LEAD ≤ result }
{
    let slot = SLOT_LEAD + capacity;
    if two_banks { 2 * slot } else { slot }
}

/// A region that begins with these bytes and is blank behind them.
fn headed(alloc: Global, size: u32, head: &[u8]) -> Result<Region, NoMemory>
    requires { length head.now ≤ size }
    ensures { IfOk result (λ r. r ≡ stable_region (filled size head.now)) }
{
    let mut region = Region::blank(alloc, size)?;
    region.write(0, head);
    region.sync();
    Ok(region)
}

/// The head of a bank with an empty log of this format.
fn bank_head(alloc: Global, format: u32) -> Result<Blob, NoMemory>
    ensures { IfOk result (λ head. head ≡ bank_head format) }
{
    let mut head = Blob::from_slice(alloc, &[OPEN, b'C', b'U', b'V'])?;
    put_u32(&mut head, format)?;
    put_u64(&mut head, FIRST_GENERATION)?;
    Ok(head)
}

/// The head of a slot that the factory sealed: no payload and no dependency section.
fn slot_head(alloc: Global, version: u32, floor: u32) -> Result<Blob, NoMemory>
    ensures { IfOk result (λ head. head ≡ slot_head version floor) }
{
    let mut head = Blob::from_slice(alloc, &[OPEN, b'C', b'U', b'S'])?;
    put_u32(&mut head, SLOT_FORMAT)?;
    head.push_slice(&[FACTORY_ROUTE, 0, 0, 0, 0, 0, 0, 0])?;
    put_u64(&mut head, 0)?;
    put_u32(&mut head, version)?;
    put_u32(&mut head, floor)?;
    put_u32(&mut head, 0)?;
    put_u32(&mut head, 0)?;
    head.push_slice(&[0; 24])?;
    Ok(head)
}
