//! Where records stand in a bank, and how many bytes are free.

use crate::bench::{BANK, add, bench, format, is_one, open, read, record, room, set, write};
use std::test::Fail;
use var_log::LogFault;

/// EFI_GLOBAL_VARIABLE (UEFI 2.10, 3.3).
const GLOBAL: [u8; 16] = [
    0x61, 0xDF, 0xE4, 0x8B, 0xCA, 0x93, 0xD2, 0x11, 0xAA, 0x0D, 0x00, 0xE0, 0x98, 0x03, 0x2B, 0x8C,
];

/// The first record of a fresh board, 65 bytes and seven zeros, and a closed gate behind it.
const FIRST: [u8; 73] = [
    0x5A, 0, 0, 0, 0x31, 0, 0, 0, 1, 0, 0, 0, 0, 0, 0, 0, 1, 0, 1, 0x0D, 0x4F, 0x73, 0x49, 0x6E,
    0x64, 0x69, 0x63, 0x61, 0x74, 0x69, 0x6F, 0x6E, 0x73, 0x61, 0xDF, 0xE4, 0x8B, 0xCA, 0x93, 0xD2,
    0x11, 0xAA, 0x0D, 0x00, 0xE0, 0x98, 0x03, 0x2B, 0x8C, 7, 0, 0, 0, 8, 0, 0, 0, 4, 0, 0, 0, 0, 0,
    0, 0, 0, 0, 0, 0, 0, 0, 0, 0xFF,
];

#[test]
fn the_first_record_of_a_fresh_board(rt: HostRuntime) -> Result<(), Fail> {
    let mut bench = bench(&rt, 2)?;
    let first = record(&rt, GLOBAL, "OsIndications", 7, &[4, 0, 0, 0, 0, 0, 0, 0])?;
    let free = add(&rt, &mut bench, first)?;
    assert_eq!(rt; free, BANK - 16 - 72 - 1);
    let mut bytes = [0; 73];
    read(&rt, &mut bench, 0, 16, &mut bytes)?;
    assert_eq!(rt; bytes, FIRST);
    Ok(())
}

#[test]
fn empty_banks(rt: HostRuntime) -> Result<(), Fail> {
    let mut bench = bench(&rt, 2)?;
    write(&rt, &mut bench, 0, 0, &[0xFF; 17])?;
    match open(&rt, &mut bench) {
        Ok(_) => assert!(rt; false, "no bank is open"),
        Err(fault) => assert_eq!(rt; fault, LogFault::NoBank),
    }
    format(&rt, &mut bench)?;
    let (log, live) = open(&rt, &mut bench)?;
    assert_eq!(rt; log.seq(), 0);
    assert_eq!(rt; log.generation(), 1);
    assert_eq!(rt; log.free(), 65_519);
    assert_eq!(rt; log.pending(), None);
    assert!(rt; live.is_empty());
    Ok(())
}

#[test]
fn padded_places(rt: HostRuntime) -> Result<(), Fail> {
    let long = [0x22; 16_384];
    let mut bench = bench(&rt, 2)?;
    for place in [16_448, 32_880, 49_312] {
        let free = add(&rt, &mut bench, set(&rt, "A", &long)?)?;
        assert_eq!(rt; free, BANK - 1 - place);
    }
    let (log, _) = open(&rt, &mut bench)?;
    let fits = set(&rt, "A", &long[..16_171])?;
    assert_eq!(rt; fits.size(), 16_216);
    assert!(rt; fits.size() <= log.free());
    let passes = set(&rt, "A", &long[..16_172])?;
    assert_eq!(rt; passes.size(), 16_224);
    assert!(rt; passes.size() > log.free());
    Ok(())
}

#[test]
fn room_is_made_by_a_reclaim(rt: HostRuntime) -> Result<(), Fail> {
    let long = [0x22; 16_384];
    let mut bench = bench(&rt, 2)?;
    for _ in 0..3 {
        add(&rt, &mut bench, set(&rt, "A", &long)?)?;
    }
    let (mut log, live) = open(&rt, &mut bench)?;
    room(&rt, &mut log, &mut bench, &live, 16_216)?;
    assert_eq!(rt; log.generation(), 1);
    let (mut log, live) = open(&rt, &mut bench)?;
    room(&rt, &mut log, &mut bench, &live, 16_224)?;
    assert_eq!(rt; log.generation(), 2);
    assert_eq!(rt; log.seq(), 3);
    assert_eq!(rt; log.free(), BANK - 16 - 16_432 - 1);
    let (mut log, live) = open(&rt, &mut bench)?;
    assert_eq!(rt; log.generation(), 2);
    assert_eq!(rt; log.seq(), 3);
    assert!(rt; is_one(&live, "A", &long));
    let full = room(&rt, &mut log, &mut bench, &live, 49_088);
    assert_eq!(rt; full, Err(LogFault::Full));
    Ok(())
}
