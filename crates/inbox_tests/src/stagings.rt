//! Deliveries by memory, and which capsules are taken.

use crate::bench::{bench, check_banks};
use bench_model::Bench;
use cu_base::{Blob, put_u32, put_u64};
use mem_bench::MemBench;
use reference_machine::StagedPair;
use std::process::Abort;
use std::test::Fail;
use stored_vars::{StoredVar, stored_number, stored_pair};
use update_inbox::{InboxFault, update_capsule};
use var_store::{Note, VarStore};

/// Where the scatter list of a capsule is laid: one block of 28 bytes at 0x2000, and the end.
const LIST: u64 = 0x1000;

/// A bench in whose memory a capsule of these flags is laid, of 28 bytes and another GUID than FMP's.
fn with_capsule(rt: &(impl Abort + AllocGlobal), flags: u32) -> Result<MemBench, Fail> {
    let mut bench = bench(rt)?;
    let mut list = Blob::new(rt.alloc());
    for number in [28, 0x2000, 0, 0] {
        put_u64(&mut list, number)?;
    }
    let mut capsule = Blob::from_slice(rt.alloc(), &[0x11; 16])?;
    for number in [28, flags, 28] {
        put_u32(&mut capsule, number)?;
    }
    assert!(rt; bench.lay(LIST, list.as_slice()).is_ok());
    assert!(rt; bench.lay(0x2000, capsule.as_slice()).is_ok());
    Ok(bench)
}

/// Stages what lies at an address, and tells the answer and the number at opening.
fn staged(
    rt: &(impl Abort + AllocGlobal),
    bench: &mut MemBench,
    address: u64,
) -> (Result<u64, InboxFault>, Option<u64>) {
    check_banks(rt, bench);
    let mut note = Note {
        opened: None,
        pending: None,
    };
    let answer = update_capsule(rt.alloc(), bench, address, &mut note);
    assert_eq!(rt; note.pending, None);
    (answer, note.opened)
}

/// The delivery that a variable keeps, and the last serial.
fn kept(
    rt: &(impl Abort + AllocGlobal),
    bench: &mut MemBench,
    number: u8,
) -> Result<(Option<StagedPair>, Option<u64>), Fail> {
    check_banks(rt, bench);
    assert!(rt; number < 8);
    let store = VarStore::open(rt.alloc(), bench)?;
    let stage = StoredVar::Stage(number);
    let pair = match store.get(stage.name(), &stage.guid()) {
        Some(value) => stored_pair(value.bytes),
        None => None,
    };
    let serial = match store.get("Serial", &StoredVar::Serial.guid()) {
        Some(value) => stored_number(value.bytes),
        None => None,
    };
    Ok((pair, serial))
}

#[test]
fn eight_deliveries_wait_and_a_ninth_is_refused(rt: HostRuntime) -> Result<(), Fail> {
    let mut bench = with_capsule(&rt, 0x0005_0000)?;
    for number in 0..8 {
        let (answer, opened) = staged(&rt, &mut bench, LIST);
        let serial = u64::from(number) + 1;
        assert_eq!(rt; answer, Ok(serial));
        assert_eq!(rt; opened, Some(u64::from(number)));
        let (pair, last) = kept(&rt, &mut bench, number)?;
        let wanted = StagedPair {
            serial,
            address: LIST,
        };
        assert_eq!(rt; pair, Some(wanted));
        assert_eq!(rt; last, Some(serial));
    }
    let (answer, opened) = staged(&rt, &mut bench, LIST);
    assert_eq!(rt; answer, Err(InboxFault::Resources));
    assert_eq!(rt; opened, Some(8));
    Ok(())
}

/// PERSIST_ACROSS_RESET is 0x10000, POPULATE_SYSTEM_TABLE 0x20000, INITIATE_RESET 0x40000: both of
/// these need the first, and a capsule that is a table or does not last is not taken.
#[test]
fn flags_decide_what_is_taken(rt: HostRuntime) -> Result<(), Fail> {
    let cases = [
        (0x1_0000, Ok(1)),
        (0x5_0000, Ok(1)),
        (0x2_0000, Err(InboxFault::Invalid)),
        (0x4_0000, Err(InboxFault::Invalid)),
        (0x6_0000, Err(InboxFault::Invalid)),
        (0, Err(InboxFault::Unsupported)),
        (0x3_0000, Err(InboxFault::Unsupported)),
        (0x7_0000, Err(InboxFault::Unsupported)),
    ];
    for (flags, wanted) in cases {
        let mut bench = with_capsule(&rt, flags)?;
        let (answer, opened) = staged(&rt, &mut bench, LIST);
        assert_eq!(rt; answer, wanted, "flags {flags}");
        assert_eq!(rt; opened, Some(0));
    }
    Ok(())
}

#[test]
fn what_is_no_list_or_no_capsule_is_invalid(rt: HostRuntime) -> Result<(), Fail> {
    let mut bench = with_capsule(&rt, 0x0001_0000)?;
    for (address, name) in [
        (0x3000, "nothing is there"),
        (0x1004, "misaligned"),
        (0x1010, "an empty list"),
    ] {
        let (answer, _) = staged(&rt, &mut bench, address);
        assert_eq!(rt; answer, Err(InboxFault::Invalid), "{name}");
    }
    let (pair, last) = kept(&rt, &mut bench, 0)?;
    assert!(rt; pair.is_none() && last.is_none());
    Ok(())
}
