//! Boots over deliveries by memory.

use crate::bench::{bench, board, booted, check_banks, check_line, numbers};
use bench_model::Bench;
use mem_bench::MemBench;
use reference_machine::Kind;
use std::process::Abort;
use std::test::Fail;
use update_inbox::update_capsule;
use var_store::Note;

/// A scatter list of one block of 28 bytes at 0x2000.
const LIST: &[u8; 32] = b"\x1c\0\0\0\0\0\0\0\0\x20\0\0\0\0\0\0\0\0\0\0\0\0\0\0\0\0\0\0\0\0\0\0";

/// A capsule of another GUID than FMP's that lasts over a reset, without a body.
const OTHER: &[u8; 28] = b"\x11\x11\x11\x11\x22\x22\x33\x33\x44\x44\x55\x55\x55\x55\x55\x55\
    \x1c\0\0\0\0\0\x01\0\x1c\0\0\0";

/// Lays the capsule into memory and stages it.
fn stage(rt: &(impl Abort + AllocGlobal), bench: &mut MemBench) {
    assert!(rt; bench.lay(0x2000, OTHER).is_ok());
    assert!(rt; bench.lay(0x1000, LIST).is_ok());
    check_banks(rt, bench);
    let mut note = Note {
        opened: None,
        pending: None,
    };
    let answer = update_capsule(rt.alloc(), bench, 0x1000, &mut note);
    assert_eq!(rt; answer, Ok(1));
}

/// A warm reset keeps the memory. After a cold one the list cannot be coalesced.
#[test]
fn a_staged_delivery_is_taken_out_once(rt: HostRuntime) -> Result<(), Fail> {
    for (cold, kind, status) in [
        (false, Kind::Skip, 0x8000_0000_0000_0003),
        (true, Kind::Bad, 0x8000_0000_0000_0001),
    ] {
        let board = board(&rt)?;
        let mut bench = bench(&rt, &board)?;
        stage(&rt, &mut bench);
        assert!(rt; bench.order_room() > 0);
        bench.cycle(cold);
        let (answer, report) = booted(&rt, &board, &mut bench);
        assert_eq!(rt; answer, Ok(()));
        assert_eq!(rt; numbers(&report), (Some(1), 2, None));
        assert_eq!(rt; report.lines.len(), 1);
        for line in report.lines.as_slice() {
            check_line(&rt, line, kind, (0, 1, ""), status, 0);
        }
        assert!(rt; report.unstaged.as_slice() == [1].as_slice());
        assert_eq!(rt; report.removed.len(), 0);
        let (answer, report) = booted(&rt, &board, &mut bench);
        assert_eq!(rt; answer, Ok(()));
        assert_eq!(rt; numbers(&report), (Some(3), 0, None));
    }
    Ok(())
}
