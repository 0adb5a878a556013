//! Each move of a commit, and of the reclaim before one, is cut with each choice of what a cut
//! leaves.

use crate::bench::{BANK, OURS, arm, bench, cycle, delete_of, set_of, two};
use crate::desk::{Desk, again, has, has_names, lacks, set};
use bench_model::Choice;
use mem_bench::MemBench;
use std::process::Abort;
use std::test::Fail;
use var_log::{Batch, LogFault};
use var_store::StoreFault;

/// What a cut leaves of dirty bytes.
const CHOICES: [Choice; 5] = [
    Choice::New,
    Choice::Old,
    Choice::Mix,
    Choice::Fill(0),
    Choice::Fill(0xFF),
];

/// The moves of an open before those of the call that is cut.
const SYNCS: u32 = 2;

/// What the flash answers as it is cut.
const CUT: StoreFault = StoreFault::Log(LogFault::Flash);

/// What a store answers that was left after a fault.
const STALE: StoreFault = StoreFault::Log(LogFault::Stale);

/// A bench with three variables, as long as it takes for the third to fill the bank.
fn filled(rt: &(impl Abort + AllocGlobal), long: usize) -> Result<MemBench, Fail> {
    let mut desk = Desk::open(rt, bench(rt, BANK)?)?;
    set(rt, &mut desk, "A", &[1, 2, 3])?;
    set(rt, &mut desk, "B", &[4])?;
    let data = crate::bench::long();
    assert!(rt; long <= 16_384);
    set(rt, &mut desk, "C", &data[..long])?;
    set(rt, &mut desk, "C", &data[..long])?;
    set(rt, &mut desk, "C", &data[..long])?;
    Ok(desk.into_bench())
}

/// The batch that is cut: it sets A and deletes B.
fn change(rt: &(impl Abort + AllocGlobal)) -> Result<Batch, Fail> {
    let set = set_of(rt, OURS, "A", &[5, 6])?;
    let delete = delete_of(rt, OURS, "B")?;
    Ok(two(rt, set, delete)?)
}

/// The variables are those before the batch.
fn is_old(rt: &(impl Abort + AllocGlobal), desk: &Desk) -> Result<bool, Fail> {
    Ok(has(desk, "A", &[1, 2, 3]) && has(desk, "B", &[4]) && has_names(rt, desk, &["A", "B", "C"])?)
}

/// The variables are those after it.
fn is_new(rt: &(impl Abort + AllocGlobal), desk: &Desk) -> Result<bool, Fail> {
    Ok(has(desk, "A", &[5, 6]) && lacks(desk, "B") && has_names(rt, desk, &["A", "C"])?)
}

/// A bench of which move `after` of the call behind an open is cut, and the store that was opened
/// on it.
fn armed(
    rt: &(impl Abort + AllocGlobal),
    mut bench: MemBench,
    after: u32,
    choice: Choice,
) -> Result<Desk, Fail> {
    arm(rt, &mut bench, SYNCS.saturating_add(after), choice);
    Ok(Desk::open(rt, bench)?)
}

/// The store after the cut and a reset.
fn reset(rt: &(impl Abort + AllocGlobal), desk: Desk) -> Result<Desk, Fail> {
    let mut bench = desk.into_bench();
    cycle(rt, &mut bench);
    Ok(Desk::open(rt, bench)?)
}

/// What a cut of a commit leaves in the store itself: the map as it was, and a batch in doubt.
fn cut(rt: &(impl Abort + AllocGlobal), after: u32, choice: Choice) -> Result<Desk, Fail> {
    let mut desk = armed(rt, filled(rt, 1)?, after, choice)?;
    let batch = change(rt)?;
    assert_eq!(rt; desk.commit(rt, &batch), Err(CUT), "at {after}");
    assert_eq!(rt; desk.store().pending(), Some(6), "at {after}");
    assert_eq!(rt; desk.store().seq(), 5, "at {after}");
    assert!(rt; is_old(rt, &desk)?, "at {after}");
    assert_eq!(rt; desk.commit(rt, &batch), Err(STALE), "at {after}");
    assert_eq!(rt; desk.room_for(rt, 1), Err(STALE), "at {after}");
    reset(rt, desk)
}

/// A commit that is cut leaves the old variables or the new ones, wholly, and tells whether the
/// new ones.
fn cut_commit(rt: &(impl Abort + AllocGlobal), after: u32, choice: Choice) -> Result<bool, Fail> {
    let desk = cut(rt, after, choice)?;
    assert_eq!(rt; desk.store().pending(), None, "at {after}");
    if desk.store().seq() == 5 {
        assert!(rt; is_old(rt, &desk)?, "at {after}");
        return Ok(false);
    }
    assert_eq!(rt; desk.store().seq(), 6, "at {after}");
    assert!(rt; is_new(rt, &desk)?, "at {after}");
    Ok(true)
}

#[test]
fn commits(rt: HostRuntime) -> Result<(), Fail> {
    for choice in CHOICES {
        for after in 0..2 {
            assert!(rt;
                !cut_commit(&rt, after, choice)?,
                "the gate was not written"
            );
        }
        for after in 2..4 {
            // The gate was written: a cut leaves the open one, or what it was, or another byte.
            let new = cut_commit(&rt, after, choice)?;
            assert_eq!(rt; new, choice == Choice::New, "at {after}");
        }
    }
    Ok(())
}

/// A reclaim that is cut leaves the variables and the number.
fn cut_room(rt: &(impl Abort + AllocGlobal), after: u32, choice: Choice) -> Result<(), Fail> {
    let mut desk = armed(rt, filled(rt, 16_384)?, after, choice)?;
    assert_eq!(rt; desk.room_for(rt, 20_000), Err(CUT), "at {after}");
    assert_eq!(rt; desk.store().pending(), None, "at {after}");
    assert!(rt; is_old(rt, &desk)?, "at {after}");
    let desk = reset(rt, desk)?;
    assert_eq!(rt; desk.store().seq(), 5, "at {after}");
    assert!(rt; is_old(rt, &desk)?, "at {after}");
    assert!(rt; has(&desk, "C", &[0x11; 16_384]), "at {after}");
    Ok(())
}

#[test]
fn reclaims(rt: HostRuntime) -> Result<(), Fail> {
    for choice in CHOICES {
        for after in 0..6 {
            cut_room(&rt, after, choice)?;
        }
    }
    Ok(())
}

#[test]
fn a_store_goes_on_after_a_reset(rt: HostRuntime) -> Result<(), Fail> {
    let mut desk = cut(&rt, 0, Choice::Mix)?;
    let batch = change(&rt)?;
    desk.put(&rt, &batch)?;
    assert_eq!(rt; desk.store().seq(), 6);
    let desk = again(&rt, desk)?;
    assert!(rt; is_new(&rt, &desk)?);
    Ok(())
}
