//! A store whose banks are filled and reclaimed many times.

use crate::desk::{Desk, again, empty_desk, has, set};
use crate::steps::Step::Names;
use crate::steps::look_all;
use std::process::Abort;
use std::test::Fail;

/// The names that are set in turn.
const NAMES: [&str; 8] = ["A", "B", "C", "D", "E", "F", "G", "H"];

/// The data of a commit: its number, and zeros.
fn data(number: u32) -> [u8; 200] {
    let mut data = [0; 200];
    data[..4].copy_from_slice(&number.to_le_bytes());
    data
}

/// Sets a variable, and tells whether a reclaim came first.
fn set_next(rt: &(impl Abort + AllocGlobal), desk: &mut Desk, number: u32) -> Result<bool, Fail> {
    let name = NAMES[number as usize % 8];
    let free = desk.store().free();
    set(rt, desk, name, &data(number))?;
    Ok(desk.store().free() > free)
}

/// Whether each variable has the data of the last of so many commits that set it.
fn are_last(desk: &Desk, commits: u32) -> bool {
    let mut are = true;
    for number in commits.saturating_sub(8)..commits {
        are = are && has(desk, NAMES[number as usize % 8], &data(number));
    }
    are
}

/// A store after so many commits, and the reclaims that came with them.
fn filled(rt: &(impl Abort + AllocGlobal), commits: u32) -> Result<(Desk, u32), Fail> {
    let mut desk = empty_desk(rt)?;
    let mut reclaims = 0_u32;
    for number in 0..commits {
        if set_next(rt, &mut desk, number)? {
            reclaims = reclaims.saturating_add(1);
        }
    }
    Ok((desk, reclaims))
}

/// After so many commits the store that is opened anew has the last of each variable.
fn opens(rt: &(impl Abort + AllocGlobal), desk: Desk, commits: u32) -> Result<Desk, Fail> {
    let desk = again(rt, desk)?;
    assert_eq!(rt; desk.store().seq(), u64::from(commits));
    assert!(rt; are_last(&desk, commits));
    Ok(desk)
}

#[test]
fn a_commit_after_a_thousand(rt: HostRuntime) -> Result<(), Fail> {
    let (desk, reclaims) = filled(&rt, 1_000)?;
    // A record takes 248 bytes: 264 fit the first bank, and 256 beside the eight that a reclaim
    // keeps in one record of 1,824.
    assert_eq!(rt; reclaims, 3);
    let mut desk = opens(&rt, desk, 1_000)?;
    set_next(&rt, &mut desk, 1_000)?;
    let desk = opens(&rt, desk, 1_001)?;
    look_all(&rt, &desk, &[Names(&NAMES)])
}
