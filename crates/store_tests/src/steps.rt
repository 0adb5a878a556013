//! Tests as lists of steps, so that each of them is one call.

use crate::desk::{Desk, again, delete, has, has_names, lacks, set};
use std::process::Abort;
use std::test::Fail;

/// What is done with a store, or what is asked of it.
#[derive(Clone, Copy)]
pub(crate) enum Step<'a> {
    /// A variable is set.
    Set(&'a str, &'a [u8]),
    /// A variable is deleted.
    Delete(&'a str),
    /// The store is opened anew.
    Again,
    /// A variable has this data.
    Has(&'a str, &'a [u8]),
    /// A variable is not there.
    Lacks(&'a str),
    /// These are the names of all variables, in order.
    Names(&'a [&'a str]),
    /// This is the number of the last batch.
    Seq(u64),
    /// So many bytes are free.
    Free(u32),
}

/// Takes steps one after another.
pub(crate) fn play(
    rt: &(impl Abort + AllocGlobal),
    mut desk: Desk,
    steps: &[Step<'_>],
) -> Result<Desk, Fail> {
    for step in steps {
        desk = take(rt, desk, *step)?;
    }
    Ok(desk)
}

/// Takes a step.
fn take(rt: &(impl Abort + AllocGlobal), desk: Desk, step: Step<'_>) -> Result<Desk, Fail> {
    match step {
        Step::Set(name, data) => set_in(rt, desk, name, data),
        Step::Delete(name) => delete_in(rt, desk, name),
        Step::Again => again(rt, desk),
        _ => {
            look(rt, &desk, step)?;
            Ok(desk)
        }
    }
}

/// Sets a variable.
fn set_in(
    rt: &(impl Abort + AllocGlobal),
    mut desk: Desk,
    name: &str,
    data: &[u8],
) -> Result<Desk, Fail> {
    set(rt, &mut desk, name, data)?;
    Ok(desk)
}

/// Deletes a variable.
fn delete_in(rt: &(impl Abort + AllocGlobal), mut desk: Desk, name: &str) -> Result<Desk, Fail> {
    delete(rt, &mut desk, name)?;
    Ok(desk)
}

/// What steps ask is so.
pub(crate) fn look_all(
    rt: &(impl Abort + AllocGlobal),
    desk: &Desk,
    steps: &[Step<'_>],
) -> Result<(), Fail> {
    for step in steps {
        look(rt, desk, *step)?;
    }
    Ok(())
}

/// What a step asks is so.
fn look(rt: &(impl Abort + AllocGlobal), desk: &Desk, step: Step<'_>) -> Result<(), Fail> {
    match step {
        Step::Has(name, data) => assert!(rt; has(desk, name, data), "at {name}"),
        Step::Lacks(name) => assert!(rt; lacks(desk, name), "at {name}"),
        Step::Names(names) => look_names(rt, desk, names)?,
        Step::Seq(seq) => assert_eq!(rt; desk.store().seq(), seq),
        Step::Free(free) => assert_eq!(rt; desk.store().free(), free),
        _ => (),
    }
    Ok(())
}

/// The names are these.
fn look_names(rt: &(impl Abort + AllocGlobal), desk: &Desk, names: &[&str]) -> Result<(), Fail> {
    let are = has_names(rt, desk, names)?;
    assert!(rt; are);
    Ok(())
}

/// Plays steps on an empty store.
pub(crate) fn plays(rt: &(impl Abort + AllocGlobal), steps: &[Step<'_>]) -> Result<(), Fail> {
    let desk = crate::desk::empty_desk(rt)?;
    let _desk = play(rt, desk, steps)?;
    Ok(())
}
