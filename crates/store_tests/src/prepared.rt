//! Batches that were prepared one before another, and committed in the other order.

use crate::bench::{OURS, delete_of, one, set_of};
use crate::desk::{Desk, again, empty_desk, has, has_names, set};
use std::process::Abort;
use std::test::Fail;

/// Prepares a set of A and then one of B, and commits B before A.
fn crossed(rt: &(impl Abort + AllocGlobal), desk: &mut Desk) -> Result<(), Fail> {
    let first = one(rt, set_of(rt, OURS, "A", &[2])?)?;
    let second = one(rt, set_of(rt, OURS, "B", &[3])?)?;
    desk.commit_crossed(rt, &first, &second)?;
    Ok(())
}

#[test]
fn a_record_takes_its_number_as_it_is_committed(rt: HostRuntime) -> Result<(), Fail> {
    let mut desk = empty_desk(&rt)?;
    set(&rt, &mut desk, "A", &[1])?;
    crossed(&rt, &mut desk)?;
    assert_eq!(rt; desk.store().seq(), 3);
    assert!(rt; has(&desk, "A", &[2]) && has(&desk, "B", &[3]));
    let desk = again(&rt, desk)?;
    assert_eq!(rt; desk.store().seq(), 3);
    assert!(rt; has(&desk, "A", &[2]) && has(&desk, "B", &[3]));
    Ok(())
}

#[test]
fn the_last_commit_of_a_variable_counts(rt: HostRuntime) -> Result<(), Fail> {
    let mut desk = empty_desk(&rt)?;
    let first = one(&rt, set_of(&rt, OURS, "A", &[1])?)?;
    let second = one(&rt, delete_of(&rt, OURS, "A")?)?;
    desk.commit_crossed(&rt, &first, &second)?;
    assert!(rt; has(&desk, "A", &[1]));
    let desk = again(&rt, desk)?;
    assert_eq!(rt; desk.store().seq(), 2);
    assert!(rt; has(&desk, "A", &[1]));
    assert!(rt; has_names(&rt, &desk, &["A"])?);
    Ok(())
}
