//! Logs that were made by hand: which bank is taken, and where its records end.

use crate::bench::{BANK, bench, filled, is_one, long, open, room, write};
use mem_bench::MemBench;
use std::process::Abort;
use std::test::Fail;
use var_log::LogFault;

/// A set of `A` to one byte as number 1: 46 bytes, and two zeros up to a multiple of 8.
const ONE: [u8; 48] = [
    0x5A, 0, 0, 0, 0x1E, 0, 0, 0, 1, 0, 0, 0, 0, 0, 0, 0, 1, 0, 1, 1, 0x41, 7, 7, 7, 7, 7, 7, 7, 7,
    7, 7, 7, 7, 7, 7, 7, 7, 3, 0, 0, 0, 1, 0, 0, 0, 0x11, 0, 0,
];

/// Two sets of `A` in one body as number 1: 74 bytes, and six zeros.
const TWICE: [u8; 80] = [
    0x5A, 0, 0, 0, 0x3A, 0, 0, 0, 1, 0, 0, 0, 0, 0, 0, 0, 2, 0, 1, 1, 0x41, 7, 7, 7, 7, 7, 7, 7, 7,
    7, 7, 7, 7, 7, 7, 7, 7, 3, 0, 0, 0, 1, 0, 0, 0, 0x11, 1, 1, 0x41, 7, 7, 7, 7, 7, 7, 7, 7, 7, 7,
    7, 7, 7, 7, 7, 7, 3, 0, 0, 0, 1, 0, 0, 0, 0x22, 0, 0, 0, 0, 0, 0,
];

/// The header of a bank of format 2 and of a generation below 256.
fn header(generation: u8) -> [u8; 16] {
    [
        0x5A, 0x43, 0x55, 0x56, 2, 0, 0, 0, generation, 0, 0, 0, 0, 0, 0, 0,
    ]
}

/// A bench whose bank 0 has these bytes behind its header.
fn with_records(rt: &(impl Abort + AllocGlobal), records: &[u8]) -> Result<MemBench, Fail> {
    let mut bench = bench(rt, 2)?;
    write(rt, &mut bench, 0, 16, records)?;
    Ok(bench)
}

#[test]
fn of_two_open_banks_the_greater_generation_is_taken(rt: HostRuntime) -> Result<(), Fail> {
    for (second, number, generation) in [(0, 1, 1), (1, 1, 1), (2, 0, 2)] {
        let mut bench = with_records(&rt, &ONE)?;
        write(&rt, &mut bench, 1, 0, &header(second))?;
        let (log, live) = open(&rt, &mut bench)?;
        assert_eq!(rt; log.seq(), number, "beside {second}");
        assert_eq!(rt; log.generation(), generation, "beside {second}");
        assert_eq!(rt; live.is_empty(), number == 0, "beside {second}");
    }
    Ok(())
}

#[test]
fn the_last_change_of_a_key_in_a_body_counts(rt: HostRuntime) -> Result<(), Fail> {
    let mut bench = with_records(&rt, &TWICE)?;
    let (log, live) = open(&rt, &mut bench)?;
    assert_eq!(rt; log.free(), BANK - 16 - 80 - 1);
    assert!(rt; is_one(&live, "A", &[0x22]));
    Ok(())
}

/// A bench whose second record is the first again with one byte changed, and under the next number.
fn with_second(rt: &(impl Abort + AllocGlobal), at: usize, byte: u8) -> Result<MemBench, Fail> {
    let mut second = ONE;
    second[8] = 2;
    assert!(rt; at < 48);
    second[at] = byte;
    let mut bench = with_records(rt, &ONE)?;
    write(rt, &mut bench, 0, 64, &second)?;
    Ok(bench)
}

#[test]
fn what_ends_a_log(rt: HostRuntime) -> Result<(), Fail> {
    // A place of the second record, the byte that is put there, and the last number then.
    for (name, at, byte, number) in [
        ("nothing is changed", 45, 0x22, 2),
        ("the three bytes are not tested", 1, 9, 2),
        ("a closed gate", 0, 0, 1),
        ("a body behind the end of the bank", 6, 1, 1),
        ("the number before", 8, 1, 1),
        ("a number that is left out", 8, 3, 1),
        ("no such kind", 18, 3, 1),
        ("an empty name", 19, 0, 1),
        ("a space in a name", 20, 0x20, 1),
        ("a change too many", 16, 2, 1),
        ("a change too few", 16, 0, 1),
        ("more data than the body has", 41, 2, 1),
        ("padding that is not zero", 47, 1, 1),
    ] {
        let mut bench = with_second(&rt, at, byte)?;
        let (log, _) = open(&rt, &mut bench)?;
        assert_eq!(rt; log.seq(), number, "{name}");
    }
    Ok(())
}

#[test]
fn a_bank_may_end_in_the_middle_of_a_record(rt: HostRuntime) -> Result<(), Fail> {
    let mut bench = filled(&rt)?;
    // 16,320 bytes of a body from 49,328 on pass the end of the bank.
    let head = [0x5A, 0, 0, 0, 0xC0, 0x3F, 0, 0, 4, 0, 0, 0, 0, 0, 0, 0];
    write(&rt, &mut bench, 0, 49_312, &head)?;
    let (log, live) = open(&rt, &mut bench)?;
    assert_eq!(rt; log.seq(), 3);
    assert_eq!(rt; log.free(), 0);
    assert!(rt; is_one(&live, "A", &long()));
    Ok(())
}

#[test]
fn nothing_is_free_behind_an_open_gate(rt: HostRuntime) -> Result<(), Fail> {
    let mut bench = with_second(&rt, 18, 3)?;
    let (mut log, live) = open(&rt, &mut bench)?;
    assert_eq!(rt; log.seq(), 1);
    assert_eq!(rt; log.free(), 0);
    room(&rt, &mut log, &mut bench, &live, 1)?;
    assert_eq!(rt; log.generation(), 2);
    assert_eq!(rt; log.free(), BANK - 16 - 48 - 1);
    Ok(())
}

#[test]
fn a_number_at_its_end_takes_no_record(rt: HostRuntime) -> Result<(), Fail> {
    let mut last = ONE;
    for at in 8..16 {
        last[at] = 0xFF;
    }
    let mut bench = with_records(&rt, &last)?;
    let (mut log, live) = open(&rt, &mut bench)?;
    assert_eq!(rt; log.seq(), u64::MAX);
    let full = room(&rt, &mut log, &mut bench, &live, 0);
    assert_eq!(rt; full, Err(LogFault::Full));
    Ok(())
}

#[test]
fn a_generation_at_its_end_is_not_reclaimed(rt: HostRuntime) -> Result<(), Fail> {
    let mut bench = with_second(&rt, 18, 3)?;
    write(&rt, &mut bench, 0, 8, &[0xFF; 8])?;
    let (mut log, live) = open(&rt, &mut bench)?;
    assert_eq!(rt; log.generation(), u64::MAX);
    room(&rt, &mut log, &mut bench, &live, 0)?;
    let (mut log, live) = open(&rt, &mut bench)?;
    let full = room(&rt, &mut log, &mut bench, &live, 1);
    assert_eq!(rt; full, Err(LogFault::Full));
    Ok(())
}
