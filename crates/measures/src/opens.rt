//! A full bank of 1 MiB is opened, or read alone: its records have 40 bytes, and each deletes a
//! variable of its own, in falling order.

ghost use Rattle.std.specs.Prelude.{◌<◌, ◌^◌};

use crate::boards::{laid_out, large_bank};
use crate::stop::Stop;
use bench_model::Flash;
use mem_bench::MemBench;
use std::alloc::Global;
use var_log::VarLog;

/// How many records there are.
const RECORDS: u32 = 26_213;

/// The bytes of a record.
const RECORD: u32 = 40;

/// How often the bank is opened or read.
const TIMES: u32 = 20;

/// The bytes of a read.
const PIECE: usize = 65_536;

/// Opens it.
pub fn measure(alloc: Global) -> Result<(), Stop> {
    let mut bench = full_bank(alloc)?;
    for _ in 0..TIMES {
        open(alloc, &mut bench)?;
    }
    Ok(())
}

/// Reads it.
pub fn measure_reads(alloc: Global) -> Result<(), Stop> {
    let mut bench = full_bank(alloc)?;
    let mut piece = [0; PIECE];
    for _ in 0..TIMES {
        for number in 0..16 {
            read(&mut bench, number * PIECE as u32, &mut piece)?;
        }
    }
    Ok(())
}

/// The bench whose bank is full.
fn full_bank(alloc: Global) -> Result<MemBench, Stop> {
    let mut bench = laid_out(alloc, &large_bank(alloc)?)?;
    for number in 0..RECORDS {
        write(&mut bench, 16 + number * RECORD, &record(number))?;
    }
    if bench.regions() == 0 {
        return Err(Stop::Board);
    }
    bench.sync(0)?;
    Ok(bench)
}

/// A record that deletes a variable whose GUID begins with a number that falls.
fn record(number: u32) -> [u8; 40]
    requires { number < 2 ^ 31 }
{
    let mut bytes = [0; 40];
    bytes[0] = 0x5A;
    bytes[4] = 21;
    bytes[8..12].copy_from_slice(&(number + 1).to_le_bytes());
    bytes[16..21].copy_from_slice(&[1, 0, 2, 1, b'A']);
    bytes[21..25].copy_from_slice(&(u32::MAX - number).to_be_bytes());
    bytes
}

/// Writes into bank 0.
fn write(bench: &mut MemBench, at: u32, bytes: &[u8]) -> Result<(), Stop>
    requires { at < 2 ^ 31 }
{
    if bench.regions() == 0 || at as u64 + bytes.len() as u64 > u64::from(bench.size(0)) {
        return Err(Stop::Board);
    }
    bench.write(0, at, bytes)?;
    Ok(())
}

/// Reads from bank 0.
fn read(bench: &mut MemBench, at: u32, piece: &mut [u8]) -> Result<(), Stop>
    requires { at < 2 ^ 31 }
{
    if bench.regions() == 0 || at as u64 + piece.len() as u64 > u64::from(bench.size(0)) {
        return Err(Stop::Board);
    }
    Flash::read(bench, 0, at, piece)?;
    Ok(())
}

/// Opens the log, which has each record.
fn open(alloc: Global, bench: &mut MemBench) -> Result<(), Stop> {
    if bench.regions() < 2 {
        return Err(Stop::Board);
    }
    let size = bench.size(0);
    if bench.size(1) != size || size < 65_536 || size > 1_048_576 {
        return Err(Stop::Board);
    }
    match VarLog::open(alloc, bench) {
        Ok((log, _live)) => all_records(&log),
        Err(_fault) => Err(Stop::Failed),
    }
}

/// Whether the log has each record.
fn all_records(log: &VarLog) -> Result<(), Stop> {
    if log.seq() == u64::from(RECORDS) {
        Ok(())
    } else {
        Err(Stop::Failed)
    }
}
