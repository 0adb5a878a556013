//! A log of format 1 is written anew in format 2 as it is opened.

use crate::bench::{BANK, CHOICES, arm, bench, cycle, is_one, open, read, write};
use bench_model::Choice;
use mem_bench::MemBench;
use std::process::Abort;
use std::test::Fail;
use var_log::LogFault;

/// Two records of format 1 without padding, 46 bytes each: sets of `A` to one byte as numbers 6 and
/// 7.
const TWO: [u8; 92] = [
    0x5A, 0, 0, 0, 0x1E, 0, 0, 0, 6, 0, 0, 0, 0, 0, 0, 0, 1, 0, 1, 1, 0x41, 7, 7, 7, 7, 7, 7, 7, 7,
    7, 7, 7, 7, 7, 7, 7, 7, 3, 0, 0, 0, 1, 0, 0, 0, 0x11, 0x5A, 0, 0, 0, 0x1E, 0, 0, 0, 7, 0, 0, 0,
    0, 0, 0, 0, 1, 0, 1, 1, 0x41, 7, 7, 7, 7, 7, 7, 7, 7, 7, 7, 7, 7, 7, 7, 7, 7, 3, 0, 0, 0, 1, 0,
    0, 0, 0x22,
];

/// The bank that it becomes: its header, one record of what lives, and a closed gate.
const ANEW: [u8; 65] = [
    0x5A, 0x43, 0x55, 0x56, 2, 0, 0, 0, 2, 0, 0, 0, 0, 0, 0, 0, 0x5A, 0, 0, 0, 0x1E, 0, 0, 0, 7, 0,
    0, 0, 0, 0, 0, 0, 1, 0, 1, 1, 0x41, 7, 7, 7, 7, 7, 7, 7, 7, 7, 7, 7, 7, 7, 7, 7, 7, 3, 0, 0, 0,
    1, 0, 0, 0, 0x22, 0, 0, 0xFF,
];

/// A bench with those records.
fn old(rt: &(impl Abort + AllocGlobal)) -> Result<MemBench, Fail> {
    let mut bench = bench(rt, 1)?;
    write(rt, &mut bench, 0, 16, &TWO)?;
    Ok(bench)
}

#[test]
fn a_log_is_written_anew(rt: HostRuntime) -> Result<(), Fail> {
    let mut bench = old(&rt)?;
    for _ in 0..2 {
        let (log, live) = open(&rt, &mut bench)?;
        assert_eq!(rt; log.seq(), 7);
        assert_eq!(rt; log.generation(), 2);
        assert_eq!(rt; log.free(), BANK - 16 - 48 - 1);
        assert!(rt; is_one(&live, "A", &[0x22]));
    }
    let mut bytes = [0; 65];
    read(&rt, &mut bench, 1, 0, &mut bytes)?;
    assert_eq!(rt; bytes, ANEW);
    Ok(())
}

#[test]
fn a_greatest_generation_is_not_written_anew(rt: HostRuntime) -> Result<(), Fail> {
    let mut bench = old(&rt)?;
    write(&rt, &mut bench, 0, 8, &[0xFF; 8])?;
    match open(&rt, &mut bench) {
        Ok(_) => assert!(rt; false, "there is no next generation"),
        Err(fault) => assert_eq!(rt; fault, LogFault::Full),
    }
    Ok(())
}

/// An open that is cut leaves the variables and the number.
fn cut(rt: &(impl Abort + AllocGlobal), after: u32, choice: Choice) -> Result<(), Fail> {
    let mut bench = old(rt)?;
    arm(rt, &mut bench, after, choice);
    match open(rt, &mut bench) {
        Ok(_) => assert!(rt; false, "at {after}"),
        Err(fault) => assert_eq!(rt; fault, LogFault::Flash, "at {after}"),
    }
    cycle(rt, &mut bench);
    let (log, live) = open(rt, &mut bench)?;
    assert_eq!(rt; log.seq(), 7, "at {after}");
    assert_eq!(rt; log.generation(), 2, "at {after}");
    assert!(rt; is_one(&live, "A", &[0x22]), "at {after}");
    Ok(())
}

#[test]
fn cuts_of_each_move(rt: HostRuntime) -> Result<(), Fail> {
    for choice in CHOICES {
        for after in 0..8 {
            cut(&rt, after, choice)?;
        }
    }
    Ok(())
}
