//! What sets and deletes leave, before and after the store is opened anew.

use crate::bench::{KEPT, OURS, one, set_of};
use crate::desk::{Desk, again, empty_desk, has_names};
use crate::steps::Step::{Again, Delete, Has, Lacks, Names, Seq, Set};
use crate::steps::plays;
use cu_base::Guid;
use std::process::Abort;
use std::test::Fail;
use var_store::Value;

#[test]
fn a_set_replaces(rt: HostRuntime) -> Result<(), Fail> {
    plays(
        &rt,
        &[
            Set("A", &[1, 2, 3]),
            Set("A", &[4]),
            Has("A", &[4]),
            Again,
            Has("A", &[4]),
            Seq(2),
        ],
    )
}

#[test]
fn a_variable_without_data_is_there(rt: HostRuntime) -> Result<(), Fail> {
    plays(&rt, &[Set("A", &[]), Again, Has("A", &[]), Names(&["A"])])
}

#[test]
fn a_delete_takes_away(rt: HostRuntime) -> Result<(), Fail> {
    plays(
        &rt,
        &[
            Set("A", &[1]),
            Set("B", &[2]),
            Delete("A"),
            Lacks("A"),
            Names(&["B"]),
            Again,
            Lacks("A"),
            Has("B", &[2]),
            Names(&["B"]),
        ],
    )
}

#[test]
fn what_was_deleted_is_set_again(rt: HostRuntime) -> Result<(), Fail> {
    plays(
        &rt,
        &[
            Set("A", &[1]),
            Delete("A"),
            Set("A", &[3]),
            Has("A", &[3]),
            Again,
            Has("A", &[3]),
            Names(&["A"]),
        ],
    )
}

#[test]
fn a_delete_of_what_is_not_there_is_a_batch(rt: HostRuntime) -> Result<(), Fail> {
    plays(
        &rt,
        &[
            Set("A", &[1]),
            Delete("B"),
            Seq(2),
            Names(&["A"]),
            Again,
            Seq(2),
            Names(&["A"]),
        ],
    )
}

#[test]
fn names_come_in_order(rt: HostRuntime) -> Result<(), Fail> {
    plays(
        &rt,
        &[
            Set("b", &[1]),
            Set("AA", &[1]),
            Set("~", &[1]),
            Set("A", &[1]),
            Set("!", &[1]),
            Names(&["!", "A", "AA", "b", "~"]),
            Again,
            Names(&["!", "A", "AA", "b", "~"]),
        ],
    )
}

/// A variable of another GUID.
type Other = ([u8; 16], &'static str, u8);

/// Variables of three GUIDs, of which the last byte, the first byte or none is another.
const OTHERS: [Other; 4] = [
    ([7, 7, 7, 7, 7, 7, 7, 7, 7, 7, 7, 7, 7, 7, 7, 8], "A", 1),
    (OURS, "B", 2),
    ([6, 255, 255, 7, 7, 7, 7, 7, 7, 7, 7, 7, 7, 7, 7, 7], "C", 3),
    ([6, 255, 255, 7, 7, 7, 7, 7, 7, 7, 7, 7, 7, 7, 7, 7], "B", 4),
];

/// Sets one of them.
fn set_other(rt: &(impl Abort + AllocGlobal), desk: &mut Desk, other: Other) -> Result<(), Fail> {
    let batch = one(rt, set_of(rt, other.0, other.1, &[other.2])?)?;
    desk.put(rt, &batch)?;
    Ok(())
}

/// Whether one of them is there.
fn has_other(desk: &Desk, other: Other) -> bool {
    let found = desk.store().get(other.1, &Guid { bytes: other.0 });
    let want = [other.2];
    found
        == Some(Value {
            attributes: KEPT,
            bytes: &want,
        })
}

/// A store of them.
fn others(rt: &(impl Abort + AllocGlobal)) -> Result<Desk, Fail> {
    let mut desk = empty_desk(rt)?;
    for other in OTHERS {
        set_other(rt, &mut desk, other)?;
    }
    Ok(desk)
}

#[test]
fn guids_come_before_names(rt: HostRuntime) -> Result<(), Fail> {
    let desk = others(&rt)?;
    let are = has_names(&rt, &desk, &["B", "C", "B", "A"])?;
    assert!(rt; are);
    Ok(())
}

#[test]
fn one_name_under_two_guids_is_two_variables(rt: HostRuntime) -> Result<(), Fail> {
    let desk = again(&rt, others(&rt)?)?;
    for other in OTHERS {
        assert!(rt; has_other(&desk, other));
    }
    Ok(())
}
