//! Cases worked by hand. A bank reads 0xFF where nothing was written.

mod devices;
mod folder;

use bench_model::{Bench, Board, Choice, Device, Devices, Digests, Flash, is_device_name};
use cu_base::{Failed, Guid, NoMemory, Text};
use mem_bench::MemBench;
use std::process::Abort;
use std::test::Fail;

/// Where the bytes of the cases stand in bank 0: behind its head, at an even place and an odd one.
const EVEN: u32 = 16;

const ODD: u32 = 17;

/// A board with one device of 64 bytes.
fn board(rt: &(impl Abort + AllocGlobal)) -> Result<Board, NoMemory> {
    let alloc = rt.alloc();
    let mut devices = Devices::new(alloc);
    assert!(rt; is_device_name("sys"));
    let device = Device {
        name: Text::from_str(alloc, "sys")?,
        type_id: Guid { bytes: [7; 16] },
        index: 1,
        instance: 0,
        fw_type: 1,
        capacity: 64,
        version: 2,
        floor: 1,
        flags: 0,
    };
    devices.push(device)?;
    Ok(Board::new(65_536, 2, false, 15, Digests::new(alloc), devices))
}

/// A bench of that board.
fn bench(rt: &(impl Abort + AllocGlobal)) -> Result<MemBench, NoMemory> {
    let board = board(rt)?;
    let mut bench = MemBench::new(rt.alloc());
    bench.lay_out(rt.alloc(), &board)?;
    Ok(bench)
}

/// Writes into bank 0.
fn write(rt: &impl Abort, bench: &mut MemBench, at: u32, bytes: &[u8]) -> Result<(), Failed> {
    assert!(rt; bench.regions() > 0, "a bank");
    assert!(rt;
        at as usize + bytes.len() <= bench.size(0) as usize,
        "within the bank"
    );
    bench.write(0, at, bytes)
}

/// Syncs bank 0.
fn sync(rt: &impl Abort, bench: &mut MemBench) -> Result<(), Failed> {
    assert!(rt; bench.regions() > 0, "a bank");
    bench.sync(0)
}

/// A byte of bank 0.
fn byte(rt: &impl Abort, bench: &mut MemBench, at: u32) -> Result<u8, Failed> {
    assert!(rt; bench.regions() > 0, "a bank");
    assert!(rt; at < bench.size(0), "within the bank");
    let mut out = [0];
    Flash::read(bench, 0, at, &mut out)?;
    Ok(out[0])
}

/// Orders a power cut.
fn arm(rt: &impl Abort, bench: &mut MemBench, after: u32, choice: Choice) {
    assert!(rt; bench.order_room() > 0, "room for an order");
    bench.arm(after, choice);
}

/// Orders a fault.
fn fail(rt: &impl Abort, bench: &mut MemBench, nth: u32) {
    assert!(rt; bench.order_room() > 0, "room for an order");
    assert!(rt; nth > 0, "calls count from 1");
    bench.fail(nth);
}

/// Resets the platform.
fn cycle(rt: &impl Abort, bench: &mut MemBench, cold: bool) {
    assert!(rt; bench.order_room() > 0, "room for an order");
    bench.cycle(cold);
}

#[test]
fn a_byte_that_was_written_and_not_synced(rt: HostRuntime) -> Result<(), Fail> {
    let mut whole = bench(&rt)?;
    write(&rt, &mut whole, EVEN, &[0x41])?;
    cycle(&rt, &mut whole, true);
    assert_eq!(rt; byte(&rt, &mut whole, EVEN), Ok(0x41));

    let mut torn = bench(&rt)?;
    arm(&rt, &mut torn, 0, Choice::Old);
    assert_eq!(rt; write(&rt, &mut torn, EVEN, &[0x41]), Err(Failed));
    cycle(&rt, &mut torn, true);
    assert_eq!(rt; byte(&rt, &mut torn, EVEN), Ok(0xFF));
    Ok(())
}

#[test]
fn what_a_cut_leaves_by_its_choice(rt: HostRuntime) -> Result<(), Fail> {
    // 0x11 and 0x22 were synced; 0x33 and 0x44 are written over them, and the sync is cut.
    for (name, choice, even, odd) in [
        ("new", Choice::New, 0x33, 0x44),
        ("old", Choice::Old, 0x11, 0x22),
        ("mix", Choice::Mix, 0x11, 0x44),
        ("fill", Choice::Fill(0x5A), 0x5A, 0x5A),
    ] {
        let mut bench = bench(&rt)?;
        write(&rt, &mut bench, EVEN, &[0x11, 0x22])?;
        sync(&rt, &mut bench)?;
        arm(&rt, &mut bench, 1, choice);
        write(&rt, &mut bench, EVEN, &[0x33, 0x44])?;
        assert_eq!(rt; sync(&rt, &mut bench), Err(Failed), "{name}");
        assert_eq!(rt;
            byte(&rt, &mut bench, EVEN),
            Err(Failed),
            "{name}: power is off"
        );
        cycle(&rt, &mut bench, false);
        assert_eq!(rt; byte(&rt, &mut bench, EVEN), Ok(even), "{name}, even");
        assert_eq!(rt; byte(&rt, &mut bench, ODD), Ok(odd), "{name}, odd");
        assert_eq!(rt; byte(&rt, &mut bench, ODD + 1), Ok(0xFF), "{name}, outside");
    }
    Ok(())
}

#[test]
fn a_warm_cycle_keeps_dirty_bytes_dirty(rt: HostRuntime) -> Result<(), Fail> {
    let mut bench = bench(&rt)?;
    write(&rt, &mut bench, EVEN, &[0x41])?;
    cycle(&rt, &mut bench, false);
    assert_eq!(rt; byte(&rt, &mut bench, EVEN), Ok(0x41));
    arm(&rt, &mut bench, 0, Choice::Old);
    assert_eq!(rt; sync(&rt, &mut bench), Err(Failed));
    cycle(&rt, &mut bench, true);
    assert_eq!(rt; byte(&rt, &mut bench, EVEN), Ok(0xFF), "it was still dirty");
    Ok(())
}

#[test]
fn a_fault_strikes_once(rt: HostRuntime) -> Result<(), Fail> {
    let mut bench = bench(&rt)?;
    fail(&rt, &mut bench, 1);
    assert_eq!(rt; byte(&rt, &mut bench, EVEN), Err(Failed), "a read");
    assert_eq!(rt; byte(&rt, &mut bench, EVEN), Ok(0xFF));
    fail(&rt, &mut bench, 1);
    assert_eq!(rt;
        write(&rt, &mut bench, EVEN, &[0x41]),
        Err(Failed),
        "a write"
    );
    assert_eq!(rt;
        byte(&rt, &mut bench, EVEN),
        Ok(0x41),
        "its range has the new bytes"
    );
    fail(&rt, &mut bench, 1);
    assert_eq!(rt; sync(&rt, &mut bench), Err(Failed), "a sync");
    assert_eq!(rt; sync(&rt, &mut bench), Ok(()));
    fail(&rt, &mut bench, 2);
    assert_eq!(rt; sync(&rt, &mut bench), Ok(()), "the first passes");
    assert_eq!(rt; sync(&rt, &mut bench), Err(Failed), "the second is struck");
    Ok(())
}

#[test]
fn where_both_strike_it_is_the_cut(rt: HostRuntime) -> Result<(), Fail> {
    let mut bench = bench(&rt)?;
    arm(&rt, &mut bench, 0, Choice::Fill(0x77));
    fail(&rt, &mut bench, 1);
    assert_eq!(rt; write(&rt, &mut bench, EVEN, &[0x41]), Err(Failed));
    assert_eq!(rt; sync(&rt, &mut bench), Err(Failed), "power is off");
    cycle(&rt, &mut bench, false);
    assert_eq!(rt; byte(&rt, &mut bench, EVEN), Ok(0x77));
    Ok(())
}

#[test]
fn a_struck_step_passes_for_the_cut(rt: HostRuntime) -> Result<(), Fail> {
    let mut bench = bench(&rt)?;
    arm(&rt, &mut bench, 1, Choice::Old);
    fail(&rt, &mut bench, 1);
    assert_eq!(rt; sync(&rt, &mut bench), Err(Failed), "the fault");
    assert_eq!(rt; byte(&rt, &mut bench, EVEN), Ok(0xFF), "power is on");
    assert_eq!(rt; sync(&rt, &mut bench), Err(Failed), "the cut");
    assert_eq!(rt; byte(&rt, &mut bench, EVEN), Err(Failed), "power is off");
    Ok(())
}

#[test]
fn a_cycle_drops_what_is_pending(rt: HostRuntime) -> Result<(), Fail> {
    let mut bench = bench(&rt)?;
    arm(&rt, &mut bench, 0, Choice::Old);
    fail(&rt, &mut bench, 1);
    cycle(&rt, &mut bench, false);
    assert_eq!(rt; byte(&rt, &mut bench, EVEN), Ok(0xFF));
    assert_eq!(rt; sync(&rt, &mut bench), Ok(()));
    arm(&rt, &mut bench, 0, Choice::Old);
    assert_eq!(rt; sync(&rt, &mut bench), Err(Failed));
    arm(&rt, &mut bench, 0, Choice::Old);
    fail(&rt, &mut bench, 1);
    cycle(&rt, &mut bench, true);
    assert_eq!(rt;
        sync(&rt, &mut bench),
        Ok(()),
        "what was ordered while power was off, too"
    );
    Ok(())
}

#[test]
fn calls_without_power_count_and_do_nothing_else(rt: HostRuntime) -> Result<(), Fail> {
    let mut bench = bench(&rt)?;
    arm(&rt, &mut bench, 0, Choice::New);
    assert_eq!(rt; sync(&rt, &mut bench), Err(Failed));
    let before = bench.counts();
    assert_eq!(rt; write(&rt, &mut bench, EVEN, &[0x41]), Err(Failed));
    assert_eq!(rt; sync(&rt, &mut bench), Err(Failed));
    assert_eq!(rt; byte(&rt, &mut bench, EVEN), Err(Failed));
    let after = bench.counts();
    assert_eq!(rt; after.moves, before.moves.saturating_add(2));
    assert_eq!(rt; after.looks, before.looks.saturating_add(1));
    assert_eq!(rt; after.flash_faults, before.flash_faults.saturating_add(3));
    assert_eq!(rt; after.volume_faults, before.volume_faults);
    cycle(&rt, &mut bench, true);
    assert_eq!(rt; byte(&rt, &mut bench, EVEN), Ok(0xFF));
    Ok(())
}
