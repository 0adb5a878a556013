//! The boards of the measures.

use crate::stop::Stop;
use bench_model::{Bench, Board};
use mem_bench::MemBench;
use recipe_files::read_board;
use std::alloc::{AllocError, Global};

/// A board of 16 devices of 32 MiB each.
pub fn many_devices(alloc: Global) -> Result<Board, Stop> {
    board(alloc, 16, 33_554_432)
}

/// A board of one device of 64 MiB.
pub fn large_device(alloc: Global) -> Result<Board, Stop> {
    board(alloc, 1, 67_108_864)
}

/// A board of one small device, whose banks have 1 MiB.
pub fn large_bank(alloc: Global) -> Result<Board, Stop> {
    board_of(alloc, 1_048_576, 1, 64)
}

/// A bench in memory that is this board as it leaves the factory.
pub fn laid_out(alloc: Global, board: &Board) -> Result<MemBench, Stop> {
    let mut bench = MemBench::new(alloc);
    bench.lay_out(alloc, board)?;
    Ok(bench)
}

/// A board of so many devices of this capacity, and of the least banks.
fn board(alloc: Global, devices: u32, capacity: u32) -> Result<Board, Stop> {
    board_of(alloc, 65_536, devices, capacity)
}

/// A board of these banks and of so many devices of this capacity.
fn board_of(alloc: Global, bank: u32, devices: u32, capacity: u32) -> Result<Board, Stop> {
    let Ok(text) = text(alloc, bank, devices, capacity) else {
        return Err(Stop::Memory);
    };
    match read_board(alloc, text.as_bytes()) {
        Ok(board) => Ok(board),
        Err(_) => Err(Stop::Board),
    }
}

/// The text of that board.
fn text(alloc: Global, bank: u32, devices: u32, capacity: u32) -> Result<String, AllocError> {
    let mut text = format!(in alloc; "bank = {bank}\nresult_max = 15\ndigests = []\n")?;
    for number in 0..devices {
        let head = format!(in alloc; "[[device]]\nname = \"d{number}\"\nindex = {number}\n")?;
        text.push_str(head.as_str())?;
        let room = format!(in alloc; "capacity = {capacity}\n")?;
        text.push_str(room.as_str())?;
        text.push_str("type = \"aaaaaaaa-0000-0000-0000-000000000001\"\ninstance = 0\n")?;
        text.push_str("fw_type = 1\nversion = 1\nfloor = 1\nflags = 0\n")?;
    }
    Ok(text)
}
