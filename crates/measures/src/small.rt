//! Small writes with syncs, all over a board of many devices.

use crate::boards::{laid_out, many_devices};
use crate::pieces::{size, sync, write};
use crate::stop::Stop;
use std::alloc::Global;

/// How many writes there are.
const WRITES: u32 = 1_000;

/// How far a write lies behind the one before, around the end of the region.
const STRIDE: u64 = 2_097_143;

/// The bytes of a write.
const SMALL: [u8; 16] = [0x77; 16];

/// Writes them, and syncs after each.
pub fn measure(alloc: Global) -> Result<(), Stop> {
    let mut bench = laid_out(alloc, &many_devices(alloc)?)?;
    for k in 0..WRITES {
        let device = (k % 16) as u8;
        let places = u64::from(size(&bench, device)?.max(16) - 15);
        let at = u64::from(k) * STRIDE % places;
        write(&mut bench, device, at as usize, &SMALL)?;
        sync(&mut bench, device)?;
    }
    Ok(())
}
