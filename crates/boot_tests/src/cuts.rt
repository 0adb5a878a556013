//! A boot that is cut at each of its moves, and the boot after it.

use crate::bench::{ask, bench, board, booted, numbers, put};
use bench_model::{Bench, Choice, Volume};
use cap_boot::BootFault;
use std::process::Abort;
use std::test::Fail;

/// The moves of the boot: the two banks and the device are synced, the unit is closed by a batch of
/// four moves, of which the third opens the gate, the file is removed, and a batch clears the
/// request. A file that is gone has its progress dropped by the next boot.
#[test]
fn each_move_may_be_cut_and_no_result_comes_twice(rt: HostRuntime) -> Result<(), Fail> {
    let flash = Err(BootFault::Flash);
    let cases = [
        (0, flash, (None, 0, None), 0, (Some(1), 3, None), 1),
        (1, flash, (None, 0, None), 0, (Some(1), 3, None), 1),
        (2, flash, (Some(1), 0, None), 0, (Some(1), 3, None), 1),
        (3, flash, (Some(1), 0, Some(2)), 0, (Some(1), 3, None), 1),
        (4, flash, (Some(1), 0, Some(2)), 0, (Some(1), 3, None), 1),
        (5, flash, (Some(1), 0, Some(2)), 0, (Some(2), 2, None), 0),
        (6, flash, (Some(1), 0, Some(2)), 0, (Some(2), 2, None), 0),
        (
            7,
            Err(BootFault::Volume),
            (Some(1), 1, None),
            1,
            (Some(2), 2, None),
            0,
        ),
        (8, flash, (Some(1), 2, Some(3)), 1, (Some(2), 2, None), 0),
        (9, flash, (Some(1), 2, Some(3)), 1, (Some(2), 2, None), 0),
        (10, flash, (Some(1), 2, Some(3)), 1, (Some(3), 0, None), 0),
        (11, flash, (Some(1), 2, Some(3)), 1, (Some(3), 0, None), 0),
        (12, Ok(()), (Some(1), 3, None), 1, (Some(3), 0, None), 0),
    ];
    for (after, ended, first, lines, second, more) in cases {
        let board = board(&rt)?;
        let mut bench = bench(&rt, &board)?;
        put(&rt, &mut bench, "bad.cap", b"x")?;
        ask(&rt, &mut bench);
        assert!(rt; bench.order_room() > 0);
        bench.arm(after, Choice::New);
        let (answer, report) = booted(&rt, &board, &mut bench);
        assert_eq!(rt; answer, ended, "at {after}");
        assert_eq!(rt; numbers(&report), first, "at {after}");
        assert_eq!(rt; report.lines.len(), lines, "at {after}");
        assert!(rt; bench.order_room() > 0);
        bench.cycle(true);
        let (answer, report) = booted(&rt, &board, &mut bench);
        assert_eq!(rt; answer, Ok(()), "again at {after}");
        assert_eq!(rt; numbers(&report), second, "again at {after}");
        assert_eq!(rt; report.lines.len(), more, "again at {after}");
        match bench.list(rt.alloc()) {
            Ok(files) => assert_eq!(rt; files.len(), 0),
            Err(_) => panic!(rt; "it was not listed"),
        }
    }
    Ok(())
}
