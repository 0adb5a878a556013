//! The first change outside the limits decides why a batch is refused.

use crate::bench::{OURS, delete_of, long, one, set_of, two};
use crate::desk::{Desk, empty_desk, has, has_names, set};
use crate::steps::Step::{Has, Set};
use crate::steps::plays;
use cu_base::NoMemory;
use std::process::Abort;
use std::test::Fail;
use var_log::{Batch, Change};
use var_store::StoreFault;

/// A name of one byte more than the limit.
const LONG: &str = "0123456789abcdef0123456789abcdef0123456789abcdef0123456789abcdef0";

/// A name at the limit.
const LONGEST: &str = "0123456789abcdef0123456789abcdef0123456789abcdef0123456789abcdef";

/// The batch is refused, and the store stays as it was.
fn is_refused(
    rt: &(impl Abort + AllocGlobal),
    desk: &mut Desk,
    batch: &Batch,
    fault: StoreFault,
) -> Result<(), Fail> {
    let free = desk.store().free();
    assert_eq!(rt; desk.commit(rt, batch), Err(fault));
    assert_eq!(rt; desk.store().seq(), 1);
    assert_eq!(rt; desk.store().free(), free);
    assert!(rt; has(desk, "A", &[1]));
    assert!(rt; has_names(rt, desk, &["A"])?);
    Ok(())
}

/// A store with one variable.
fn filled(rt: &(impl Abort + AllocGlobal)) -> Result<Desk, Fail> {
    let mut desk = empty_desk(rt)?;
    set(rt, &mut desk, "A", &[1])?;
    Ok(desk)
}

/// A set and a delete of a variable of this name are refused.
fn has_no_name(rt: &(impl Abort + AllocGlobal), desk: &mut Desk, name: &str) -> Result<(), Fail> {
    let set = one(rt, set_of(rt, OURS, name, &[2])?)?;
    is_refused(rt, desk, &set, StoreFault::BadName)?;
    let delete = one(rt, delete_of(rt, OURS, name)?)?;
    is_refused(rt, desk, &delete, StoreFault::BadName)
}

#[test]
fn names_outside_the_limits(rt: HostRuntime) -> Result<(), Fail> {
    let mut desk = filled(&rt)?;
    for name in ["", "two words", LONG, "del\u{7f}", "s\u{e9}s"] {
        has_no_name(&rt, &mut desk, name)?;
    }
    Ok(())
}

#[test]
fn names_and_data_at_their_limits(rt: HostRuntime) -> Result<(), Fail> {
    let long = long();
    plays(
        &rt,
        &[
            Set(LONGEST, &[2]),
            Set("B", &long),
            Has(LONGEST, &[2]),
            Has("B", &long),
        ],
    )
}

/// A set of this data is too big.
fn is_too_big(rt: &(impl Abort + AllocGlobal), data: &[u8]) -> Result<(), Fail> {
    let mut desk = filled(rt)?;
    let batch = one(rt, set_of(rt, OURS, "B", data)?)?;
    is_refused(rt, &mut desk, &batch, StoreFault::TooBig)
}

#[test]
fn data_outside_the_limit(rt: HostRuntime) -> Result<(), Fail> {
    is_too_big(&rt, &passing())
}

/// Data of one byte more than the limit.
fn passing() -> [u8; 16_385] {
    [9; 16_385]
}

/// A change within the limits.
fn good(rt: &impl AllocGlobal) -> Result<Change, NoMemory> {
    set_of(rt, OURS, "A", &[9])
}

/// A change whose name is none.
fn unnamed(rt: &impl AllocGlobal) -> Result<Change, NoMemory> {
    set_of(rt, OURS, "a b", &passing())
}

/// A change with too much data.
fn big(rt: &impl AllocGlobal) -> Result<Change, NoMemory> {
    set_of(rt, OURS, "B", &passing())
}

/// A batch of two changes is refused.
fn are_refused(
    rt: &(impl Abort + AllocGlobal),
    first: Change,
    second: Change,
    fault: StoreFault,
) -> Result<(), Fail> {
    let batch = two(rt, first, second)?;
    let mut desk = filled(rt)?;
    is_refused(rt, &mut desk, &batch, fault)
}

#[test]
fn a_good_one_decides_nothing(rt: HostRuntime) -> Result<(), Fail> {
    are_refused(&rt, good(&rt)?, big(&rt)?, StoreFault::TooBig)
}

#[test]
fn the_first_one_decides(rt: HostRuntime) -> Result<(), Fail> {
    are_refused(&rt, unnamed(&rt)?, big(&rt)?, StoreFault::BadName)?;
    are_refused(&rt, big(&rt)?, unnamed(&rt)?, StoreFault::TooBig)
}
