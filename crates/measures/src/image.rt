//! An image of 64 MiB: written in pieces, synced and read back.

use crate::boards::{laid_out, large_device};
use crate::pieces::{read, sync, write};
use crate::stop::Stop;
use bench_model::SLOT_LEAD;
use std::alloc::Global;

/// The bytes of a piece.
const PIECE: usize = 65_536;

/// How many pieces the image has.
const PIECES: usize = 1_024;

/// Writes the image, syncs it and reads it back.
pub fn measure(alloc: Global) -> Result<(), Stop> {
    let mut bench = laid_out(alloc, &large_device(alloc)?)?;
    let mut piece = [0x77; PIECE];
    for k in 0..PIECES {
        write(&mut bench, 0, SLOT_LEAD as usize + k * PIECE, &piece)?;
    }
    sync(&mut bench, 0)?;
    for k in 0..PIECES {
        read(&mut bench, 0, SLOT_LEAD as usize + k * PIECE, &mut piece)?;
    }
    Ok(())
}
