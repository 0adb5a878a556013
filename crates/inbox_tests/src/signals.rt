//! Requests for the capsule files, and each of their moves cut.

use crate::bench::{bench, check_banks};
use bench_model::{Bench, Choice, Flash};
use mem_bench::MemBench;
use std::process::Abort;
use std::test::Fail;
use stored_vars::{StoredVar, stored_number};
use update_inbox::{InboxFault, signal};
use var_store::{Note, VarStore};

/// A note of these numbers.
fn noted(opened: Option<u64>, pending: Option<u64>) -> Note {
    Note { opened, pending }
}

/// Signals, and tells the answer and the note.
fn signalled(
    rt: &(impl Abort + AllocGlobal),
    bench: &mut MemBench,
) -> (Result<(), InboxFault>, Note) {
    check_banks(rt, bench);
    let mut note = noted(Some(9), Some(9));
    let answer = signal(rt.alloc(), bench, &mut note);
    (answer, note)
}

/// What the operating system asks for.
fn asked(rt: &(impl Abort + AllocGlobal), bench: &mut MemBench) -> Result<Option<u64>, Fail> {
    check_banks(rt, bench);
    let store = VarStore::open(rt.alloc(), bench)?;
    let variable = StoredVar::OsIndications;
    Ok(match store.get(variable.name(), &variable.guid()) {
        Some(value) => stored_number(value.bytes),
        None => None,
    })
}

/// The record that the first request appends: OsIndications of the global GUID, attributes 7, with
/// the 8 bytes of 4, and zeros up to a multiple of 8.
const FIRST: &[u8; 72] = b"\x5a\0\0\0\x31\0\0\0\x01\0\0\0\0\0\0\0\x01\0\x01\x0dOsIndications\
    \x61\xdf\xe4\x8b\xca\x93\xd2\x11\xaa\x0d\0\xe0\x98\x03\x2b\x8c\x07\0\0\0\x08\0\0\0\
    \x04\0\0\0\0\0\0\0\0\0\0\0\0\0\0";

#[test]
fn the_first_request_is_one_record(rt: HostRuntime) -> Result<(), Fail> {
    let mut bench = bench(&rt)?;
    let (answer, note) = signalled(&rt, &mut bench);
    assert_eq!(rt; answer, Ok(()));
    assert_eq!(rt; note, noted(Some(0), None));
    let mut out = [0; 72];
    assert!(rt; bench.regions() > 0 && bench.size(0) >= 88);
    assert!(rt; bench.read(0, 16, &mut out).is_ok());
    assert!(rt; out == *FIRST);
    assert_eq!(rt; asked(&rt, &mut bench)?, Some(4));
    Ok(())
}

#[test]
fn a_second_request_is_one_batch_more(rt: HostRuntime) -> Result<(), Fail> {
    let mut bench = bench(&rt)?;
    assert!(rt; signalled(&rt, &mut bench).0.is_ok());
    let (answer, note) = signalled(&rt, &mut bench);
    assert_eq!(rt; answer, Ok(()));
    assert_eq!(rt; note, noted(Some(1), None));
    assert_eq!(rt; asked(&rt, &mut bench)?, Some(4));
    Ok(())
}

/// The two syncs of an opening and the four moves of the batch, of which the third opens the gate.
#[test]
fn each_move_of_a_request_may_be_cut(rt: HostRuntime) -> Result<(), Fail> {
    for after in 0..6 {
        let mut bench = bench(&rt)?;
        assert!(rt; bench.order_room() > 1);
        bench.arm(after, Choice::New);
        let (answer, note) = signalled(&rt, &mut bench);
        assert_eq!(rt; answer, Err(InboxFault::Flash));
        let is_open = after >= 2;
        let opened = if is_open { Some(0) } else { None };
        let pending = if is_open { Some(1) } else { None };
        assert_eq!(rt; note, noted(opened, pending), "at {after}");
        assert!(rt; bench.order_room() > 0);
        bench.cycle(true);
        let stored = if after >= 4 { Some(4) } else { None };
        assert_eq!(rt; asked(&rt, &mut bench)?, stored, "at {after}");
    }
    Ok(())
}

#[test]
fn without_an_open_bank_nothing_is_stored(rt: HostRuntime) -> Result<(), Fail> {
    let mut bench = bench(&rt)?;
    assert!(rt; bench.regions() > 0 && bench.size(0) > 0);
    assert!(rt; bench.write(0, 0, &[0xFF]).is_ok());
    let (answer, note) = signalled(&rt, &mut bench);
    assert_eq!(rt; answer, Err(InboxFault::NoBank));
    assert_eq!(rt; note, noted(None, None));
    Ok(())
}
