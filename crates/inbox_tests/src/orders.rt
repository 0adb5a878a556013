//! Staged deliveries and files of the folder in order.

use crate::bench::{bench, check_banks};
use bench_model::{Bench, Volume, is_file_name};
use cu_base::{Blob, Text};
use mem_bench::MemBench;
use reference_machine::StagedPair;
use std::process::Abort;
use std::test::Fail;
use stored_vars::{StoredVar, pair_bytes};
use update_inbox::{InboxFault, files_in_order, staged};
use var_log::{Batch, Change};
use var_store::VarStore;

/// A delivery of this serial; its address tells its variable.
fn pair(number: u8, serial: u64) -> StagedPair {
    StagedPair {
        serial,
        address: 0x1000 + u64::from(number),
    }
}

/// Keeps a delivery in a variable.
fn keep(
    rt: &(impl Abort + AllocGlobal),
    bench: &mut MemBench,
    number: u8,
    serial: u64,
) -> Result<(), Fail> {
    check_banks(rt, bench);
    assert!(rt; number < 8);
    let variable = StoredVar::Stage(number);
    let mut batch = Batch::new(rt.alloc());
    batch.push(Change::Set {
        name: Text::from_str(rt.alloc(), variable.name())?,
        guid: variable.guid(),
        attributes: variable.attributes(),
        value: Blob::from_slice(rt.alloc(), &pair_bytes(&pair(number, serial)))?,
    })?;
    let mut store = VarStore::open(rt.alloc(), bench)?;
    assert!(rt; store.write(rt.alloc(), bench, &batch).is_ok());
    Ok(())
}

/// Puts a file of one byte.
fn put(rt: &(impl Abort + AllocGlobal), bench: &mut MemBench, name: &str) -> Result<(), Fail> {
    assert!(rt; is_file_name(name));
    let name = Text::from_str(rt.alloc(), name)?;
    assert!(rt; bench.put(rt.alloc(), &name, b"x").is_ok());
    Ok(())
}

/// Serials 5, 3 and 4 in the first, the third and the last variable, and 3 once more in the fifth:
/// deliveries of one serial go by the numbers of their variables.
#[test]
fn staged_deliveries_go_by_serial(rt: HostRuntime) -> Result<(), Fail> {
    let mut bench = bench(&rt)?;
    for (number, serial) in [(0, 5), (2, 3), (4, 3), (7, 4)] {
        keep(&rt, &mut bench, number, serial)?;
    }
    check_banks(&rt, &bench);
    let store = VarStore::open(rt.alloc(), &mut bench)?;
    let pairs = staged(rt.alloc(), &store)?;
    let wanted = [pair(2, 3), pair(4, 3), pair(7, 4), pair(0, 5)];
    assert!(rt; pairs.as_slice() == wanted.as_slice());
    Ok(())
}

/// `_` stands behind the upper-case letters and before the lower-case ones.
#[test]
fn files_go_by_upper_cased_names(rt: HostRuntime) -> Result<(), Fail> {
    let mut bench = bench(&rt)?;
    for name in ["b.cap", "_x", "A.cap", "a", "B", "b.ca"] {
        put(&rt, &mut bench, name)?;
    }
    let files = files_in_order(rt.alloc(), &mut bench)?;
    let wanted = [
        ("a", 4),
        ("A.cap", 3),
        ("B", 5),
        ("b.ca", 6),
        ("b.cap", 1),
        ("_x", 2),
    ];
    assert_eq!(rt; files.len(), wanted.len());
    for (file, (name, serial)) in files.as_slice().iter().zip(wanted) {
        assert!(rt; file.name.as_str() == name && file.serial == serial && file.size == 1);
    }
    Ok(())
}

#[test]
fn a_folder_that_is_not_listed_is_a_fault(rt: HostRuntime) -> Result<(), Fail> {
    let mut bench = bench(&rt)?;
    put(&rt, &mut bench, "a.cap")?;
    assert!(rt; bench.order_room() > 0);
    bench.fail(1);
    match files_in_order(rt.alloc(), &mut bench) {
        Ok(_) => panic!(rt; "it was listed"),
        Err(fault) => assert_eq!(rt; fault, InboxFault::Volume),
    }
    assert_eq!(rt; files_in_order(rt.alloc(), &mut bench)?.len(), 1);
    Ok(())
}
