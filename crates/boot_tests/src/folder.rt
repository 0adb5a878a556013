//! Boots over files of the folder.

use crate::bench::{ask, bench, board, booted, check_line, numbers, put};
use bench_model::Volume;
use reference_machine::Kind;
use std::process::Abort;
use std::test::Fail;

/// LOAD_ERROR of UEFI 2.10, appendix D.
const LOAD_ERROR: u64 = 0x8000_0000_0000_0001;

/// UNSUPPORTED of the same.
const UNSUPPORTED: u64 = 0x8000_0000_0000_0003;

/// A capsule of another GUID than FMP's, without a body.
const OTHER: &[u8; 28] = b"\x11\x11\x11\x11\x22\x22\x33\x33\x44\x44\x55\x55\x55\x55\x55\x55\
    \x1c\0\0\0\0\0\x01\0\x1c\0\0\0";

/// A capsule of FMP with one image of version 1, whose type no device has. It has no bytes.
const STRANGE: &[u8; 76] = b"\xed\xd5\xcb\x6d\x2d\xe8\x44\x4c\xbd\xa1\x71\x94\x19\x9a\xd9\x2a\
    \x1c\0\0\0\0\0\x01\0\x4c\0\0\0\
    \x01\0\0\0\0\0\x01\0\x10\0\0\0\0\0\0\0\
    \x01\0\0\0\x09\x09\x09\x09\x09\x09\x09\x09\x09\x09\x09\x09\x09\x09\x09\x09\
    \x01\0\0\0\0\0\0\0\0\0\0\0";

/// The unit is closed, the file is removed, and it is stored that the files were taken: three
/// steps, of which two are batches.
#[test]
fn a_file_that_is_no_capsule_has_one_result(rt: HostRuntime) -> Result<(), Fail> {
    let board = board(&rt)?;
    let mut bench = bench(&rt, &board)?;
    put(&rt, &mut bench, "bad.cap", b"x")?;
    ask(&rt, &mut bench);
    let (answer, report) = booted(&rt, &board, &mut bench);
    assert_eq!(rt; answer, Ok(()));
    assert_eq!(rt; numbers(&report), (Some(1), 3, None));
    assert_eq!(rt; report.lines.len(), 1);
    for line in report.lines.as_slice() {
        check_line(&rt, line, Kind::Bad, (1, 1, "bad.cap"), LOAD_ERROR, 0);
    }
    assert_eq!(rt; report.unstaged.len(), 0);
    assert!(rt; report.removed.as_slice() == [1].as_slice());
    match bench.list(rt.alloc()) {
        Ok(files) => assert_eq!(rt; files.len(), 0),
        Err(_) => panic!(rt; "it was not listed"),
    }
    let (answer, report) = booted(&rt, &board, &mut bench);
    assert_eq!(rt; answer, Ok(()));
    assert_eq!(rt; numbers(&report), (Some(3), 0, None));
    assert_eq!(rt; report.lines.len(), 0);
    assert_eq!(rt; report.removed.len(), 0);
    Ok(())
}

/// By upper-cased names `a.cap` goes before `B.cap`, which was put first.
#[test]
fn files_are_taken_by_name(rt: HostRuntime) -> Result<(), Fail> {
    let board = board(&rt)?;
    let mut bench = bench(&rt, &board)?;
    put(&rt, &mut bench, "B.cap", STRANGE)?;
    put(&rt, &mut bench, "a.cap", OTHER)?;
    ask(&rt, &mut bench);
    let (answer, report) = booted(&rt, &board, &mut bench);
    assert_eq!(rt; answer, Ok(()));
    assert_eq!(rt; numbers(&report), (Some(1), 5, None));
    let wanted = [
        (Kind::Skip, (1, 2, "a.cap"), 0),
        (Kind::NoTarget, (1, 1, "B.cap"), 1),
    ];
    assert_eq!(rt; report.lines.len(), wanted.len());
    for (line, (kind, source, number)) in report.lines.as_slice().iter().zip(wanted) {
        check_line(&rt, line, kind, source, UNSUPPORTED, number);
    }
    assert!(rt; report.removed.as_slice() == [2, 1].as_slice());
    let (answer, report) = booted(&rt, &board, &mut bench);
    assert_eq!(rt; answer, Ok(()));
    assert_eq!(rt; numbers(&report), (Some(4), 0, None));
    Ok(())
}

/// Without a request the folder is left alone.
#[test]
fn files_that_are_not_asked_for_stay(rt: HostRuntime) -> Result<(), Fail> {
    let board = board(&rt)?;
    let mut bench = bench(&rt, &board)?;
    put(&rt, &mut bench, "bad.cap", b"x")?;
    let (answer, report) = booted(&rt, &board, &mut bench);
    assert_eq!(rt; answer, Ok(()));
    assert_eq!(rt; numbers(&report), (Some(0), 0, None));
    match bench.list(rt.alloc()) {
        Ok(files) => assert_eq!(rt; files.len(), 1),
        Err(_) => panic!(rt; "it was not listed"),
    }
    Ok(())
}
