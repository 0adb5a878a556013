//! Each move of an append, of a reclaim and of a format is cut, with each choice of what a cut
//! leaves: 90 cases.

use crate::bench::{
    CHOICES, append, arm, bench, cycle, filled, format, is_one, long, open, room, set, write,
};
use bench_model::Choice;
use std::process::Abort;
use std::test::Fail;
use var_log::LogFault;

/// The moves of an open before those of the call that is cut.
const SYNCS: u32 = 2;

/// An append that is cut leaves the batch or not, wholly.
fn cut_append(rt: &(impl Abort + AllocGlobal), after: u32, choice: Choice) -> Result<(), Fail> {
    let mut bench = bench(rt, 2)?;
    arm(rt, &mut bench, after, choice);
    let (mut log, _) = open(rt, &mut bench)?;
    let mut entry = set(rt, "A", &[1, 2, 3])?;
    let answer = append(rt, &mut log, &mut bench, &mut entry);
    assert_eq!(rt; answer, Err(LogFault::Flash), "at {after}");
    assert_eq!(rt; log.pending(), Some(1), "at {after}");
    cycle(rt, &mut bench);
    let (log, live) = open(rt, &mut bench)?;
    assert_eq!(rt; log.generation(), 1, "at {after}");
    if log.seq() == 0 {
        assert!(rt; live.is_empty(), "at {after}");
    } else {
        assert_eq!(rt; log.seq(), 1, "at {after}");
        assert!(rt; is_one(&live, "A", &[1, 2, 3]), "at {after}");
    }
    Ok(())
}

/// A reclaim that is cut leaves the variables and the number.
fn cut_reclaim(rt: &(impl Abort + AllocGlobal), after: u32, choice: Choice) -> Result<(), Fail> {
    let mut bench = filled(rt)?;
    arm(rt, &mut bench, after, choice);
    let (mut log, live) = open(rt, &mut bench)?;
    let answer = room(rt, &mut log, &mut bench, &live, 20_000);
    assert_eq!(rt; answer, Err(LogFault::Flash), "at {after}");
    assert_eq!(rt; log.pending(), None, "at {after}");
    cycle(rt, &mut bench);
    let (log, live) = open(rt, &mut bench)?;
    assert_eq!(rt; log.seq(), 3, "at {after}");
    assert!(rt; log.generation() <= 2, "at {after}");
    assert!(rt; is_one(&live, "A", &long()), "at {after}");
    Ok(())
}

/// A format that is cut leaves no log or the empty one.
fn cut_format(rt: &(impl Abort + AllocGlobal), after: u32, choice: Choice) -> Result<(), Fail> {
    let mut bench = bench(rt, 2)?;
    write(rt, &mut bench, 0, 0, &[0xFF; 17])?;
    arm(rt, &mut bench, after, choice);
    assert_eq!(rt; format(rt, &mut bench), Err(LogFault::Flash), "at {after}");
    cycle(rt, &mut bench);
    match open(rt, &mut bench) {
        Ok((log, live)) => {
            assert_eq!(rt; log.seq(), 0, "at {after}");
            assert_eq!(rt; log.generation(), 1, "at {after}");
            assert!(rt; live.is_empty(), "at {after}");
        }
        Err(fault) => assert_eq!(rt; fault, LogFault::NoBank, "at {after}"),
    }
    Ok(())
}

#[test]
fn appends(rt: HostRuntime) -> Result<(), Fail> {
    for choice in CHOICES {
        for after in 0..4 {
            cut_append(&rt, SYNCS + after, choice)?;
        }
    }
    Ok(())
}

#[test]
fn reclaims(rt: HostRuntime) -> Result<(), Fail> {
    for choice in CHOICES {
        for after in 0..6 {
            cut_reclaim(&rt, SYNCS + after, choice)?;
        }
    }
    Ok(())
}

#[test]
fn formats(rt: HostRuntime) -> Result<(), Fail> {
    for choice in CHOICES {
        for after in 0..8 {
            cut_format(&rt, after, choice)?;
        }
    }
    Ok(())
}
