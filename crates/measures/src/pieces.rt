//! Writes, syncs and reads of pieces of the region of a device.

ghost use Rattle.std.specs.Prelude.{◌≡◌, ◌+◌, ◌<◌, ◌^◌, length};

use crate::stop::Stop;
use bench_model::Flash;
use cu_base::Ticket;
use mem_bench::MemBench;

/// Writes a piece at a place of a device, within an update of it.
pub fn write(bench: &mut MemBench, device: u8, at: usize, piece: &[u8]) -> Result<(), Stop>
    requires { at + length piece.now < 2 ^ 63 }
{
    let region = region_of(device);
    if region >= bench.regions() {
        return Err(Stop::Board);
    }
    bench.ready(device)?;
    bench.begin(
        device,
        Ticket {
            route: 1,
            capsule: 0,
            item: 0,
            serial: 1,
        },
    )?;
    if at + piece.len() > bench.size(region) as usize {
        return Err(Stop::Board);
    }
    bench.write(region, at as u32, piece)?;
    bench.end(device)?;
    Ok(())
}

/// Makes what was written to a device last.
pub fn sync(bench: &mut MemBench, device: u8) -> Result<(), Stop> {
    let region = region_of(device);
    if region >= bench.regions() {
        return Err(Stop::Board);
    }
    bench.sync(region)?;
    Ok(())
}

/// Reads a piece at a place of a device.
pub fn read(bench: &mut MemBench, device: u8, at: usize, piece: &mut [u8]) -> Result<(), Stop>
    requires { at + length piece.old < 2 ^ 63 }
{
    let region = region_of(device);
    if region >= bench.regions() || at + piece.len() > bench.size(region) as usize {
        return Err(Stop::Board);
    }
    Flash::read(bench, region, at as u32, piece)?;
    Ok(())
}

/// How many bytes the region of a device has.
pub fn size(bench: &MemBench, device: u8) -> Result<u32, Stop> {
    let region = region_of(device);
    if region >= bench.regions() {
        return Err(Stop::Board);
    }
    Ok(bench.size(region))
}

/// The region of a device.
fn region_of(device: u8) -> u32
    ensures { result ≡ device + 2 }
{
    u32::from(device) + 2
}
