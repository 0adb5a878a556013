//! Cases of the updates of a device.

use super::{arm, bench, cycle, fail};
use bench_model::{Choice, Flash};
use cu_base::{Failed, Ticket};
use mem_bench::MemBench;
use std::process::Abort;
use std::test::Fail;

/// The region of device 0.
const DEVICE: u32 = 2;

/// A ticket of a file.
const TICKET: Ticket = Ticket {
    route: 1,
    capsule: 0,
    item: 0,
    serial: 1,
};

/// Begins the update of device 0.
fn begin(rt: &impl Abort, bench: &mut MemBench) -> Result<(), Failed> {
    assert!(rt; bench.regions() > DEVICE, "a device");
    assert!(rt; bench.ready(0).is_ok(), "memory");
    bench.begin(0, TICKET)
}

/// Ends the update of device 0.
fn end(rt: &impl Abort, bench: &mut MemBench) -> Result<(), Failed> {
    assert!(rt; bench.regions() > DEVICE, "a device");
    bench.end(0)
}

/// Reads the first bytes of a region.
fn front(rt: &impl Abort, bench: &mut MemBench, region: u32, out: &mut [u8]) -> Result<(), Failed> {
    assert!(rt; region < bench.regions(), "a region");
    assert!(rt;
        out.len() <= bench.size(region) as usize,
        "within the region"
    );
    Flash::read(bench, region, 0, out)
}

/// How often device 0 was begun.
fn begun(rt: &impl Abort, bench: &MemBench) -> usize {
    assert!(rt; bench.regions() > DEVICE, "a device");
    bench.begun(0).len()
}

#[test]
fn a_begin_is_recorded_and_an_end_closes_the_device(rt: HostRuntime) -> Result<(), Fail> {
    let mut bench = bench(&rt)?;
    assert_eq!(rt; begin(&rt, &mut bench), Ok(()));
    assert_eq!(rt; begun(&rt, &bench), 1);
    assert_eq!(rt; bench.open_device(), Some(0));
    assert_eq!(rt; end(&rt, &mut bench), Ok(()));
    assert_eq!(rt; bench.open_device(), None);
    assert_eq!(rt; begun(&rt, &bench), 1);
    Ok(())
}

#[test]
fn a_begin_that_is_struck_is_not_recorded(rt: HostRuntime) -> Result<(), Fail> {
    let mut bench = bench(&rt)?;
    fail(&rt, &mut bench, 1);
    assert_eq!(rt; begin(&rt, &mut bench), Err(Failed), "a fault");
    arm(&rt, &mut bench, 0, Choice::New);
    assert_eq!(rt; begin(&rt, &mut bench), Err(Failed), "a cut");
    cycle(&rt, &mut bench, true);
    assert_eq!(rt; begun(&rt, &bench), 0);
    assert_eq!(rt; bench.open_device(), None);
    Ok(())
}

#[test]
fn an_end_that_is_struck_leaves_the_device_open(rt: HostRuntime) -> Result<(), Fail> {
    let mut bench = bench(&rt)?;
    assert_eq!(rt; begin(&rt, &mut bench), Ok(()));
    fail(&rt, &mut bench, 1);
    assert_eq!(rt; end(&rt, &mut bench), Err(Failed));
    assert_eq!(rt; bench.open_device(), Some(0));
    cycle(&rt, &mut bench, false);
    assert_eq!(rt; bench.open_device(), None, "a cycle ends it");
    Ok(())
}

#[test]
fn a_device_leaves_the_factory_sealed(rt: HostRuntime) -> Result<(), Fail> {
    let mut bench = bench(&rt)?;
    assert!(rt; bench.regions() > DEVICE, "a device");
    assert_eq!(rt; bench.size(DEVICE), 8_256);
    let mut head = [0; 66];
    assert_eq!(rt; front(&rt, &mut bench, DEVICE, &mut head), Ok(()));
    let sealed = [
        0x5A, 0x43, 0x55, 0x53, 2, 0, 0, 0, 255, 0, 0, 0, 0, 0, 0, 0, 0, 0, 0, 0, 0, 0, 0, 0, 2, 0,
        0, 0, 1, 0, 0, 0, 0, 0, 0, 0, 0, 0, 0, 0, 0, 0, 0, 0, 0, 0, 0, 0, 0, 0, 0, 0, 0, 0, 0, 0,
        0, 0, 0, 0, 0, 0, 0, 0, 0xFF, 0xFF,
    ];
    assert!(rt;
        head == sealed,
        "the head of the slot, and blank places behind it"
    );
    Ok(())
}

#[test]
fn bank_0_leaves_the_factory_with_an_open_log(rt: HostRuntime) -> Result<(), Fail> {
    let mut bench = bench(&rt)?;
    assert!(rt; bench.regions() > 1, "two banks");
    assert!(rt;
        bench.size(0) == 65_536 && bench.size(1) == 65_536,
        "their sizes"
    );
    let mut head = [0; 17];
    assert_eq!(rt; front(&rt, &mut bench, 0, &mut head), Ok(()));
    let open = [
        0x5A, 0x43, 0x55, 0x56, 2, 0, 0, 0, 1, 0, 0, 0, 0, 0, 0, 0, 0xFF,
    ];
    assert!(rt;
        head == open,
        "the head of the bank, and a blank place behind it"
    );
    let mut blank = [0; 2];
    assert_eq!(rt; front(&rt, &mut bench, 1, &mut blank), Ok(()));
    assert!(rt; blank == [0xFF; 2], "bank 1 is blank");
    Ok(())
}
