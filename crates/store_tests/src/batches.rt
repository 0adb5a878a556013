//! Large batches that are one record of a bank of 1,048,576 bytes: its head and a gate take
//! 17, so that 1,048,552 are the most.

use crate::bench::{OURS, add, bench, long, set_of, write};
use crate::calls::check_banks;
use crate::desk::{Desk, again};
use cu_base::NoMemory;
use std::process::Abort;
use std::test::Fail;
use var_log::{Batch, LogFault, VarLog};
use var_store::StoreFault;

/// The bytes of the bank.
const BANK: u32 = 1_048_576;

/// The names of sixteen digits.
const DIGITS: [&str; 16] = [
    "0", "1", "2", "3", "4", "5", "6", "7", "8", "9", "a", "b", "c", "d", "e", "f",
];

/// A store on banks of that size.
fn large_desk(rt: &(impl Abort + AllocGlobal)) -> Result<Desk, Fail> {
    Ok(Desk::open(rt, bench(rt, BANK)?)?)
}

/// The GUID of a number.
fn guid(number: u32) -> [u8; 16] {
    let mut guid = OURS;
    guid[..4].copy_from_slice(&number.to_le_bytes());
    guid
}

/// 63 sets of 16,384 bytes and one of so many: a body of 1,033,922 bytes and these.
fn sets(rt: &(impl Abort + AllocGlobal), last: usize) -> Result<Batch, Fail> {
    let data = long();
    assert!(rt; last <= 16_384);
    let mut batch = Batch::new(rt.alloc());
    for number in 0..63 {
        let name = DIGITS[number as usize % 16];
        add(rt, &mut batch, set_of(rt, guid(number), name, &data)?)?;
    }
    add(rt, &mut batch, set_of(rt, guid(63), "f", &data[..last])?)?;
    Ok(batch)
}

#[test]
fn the_most_bytes(rt: HostRuntime) -> Result<(), Fail> {
    let mut desk = large_desk(&rt)?;
    let batch = sets(&rt, 14_614)?;
    desk.put(&rt, &batch)?;
    assert_eq!(rt; desk.store().free(), 7);
    let desk = again(&rt, desk)?;
    assert_eq!(rt; desk.store().seq(), 1);
    let names = desk.store().names(rt.alloc())?;
    assert_eq!(rt; names.len(), 64);
    Ok(())
}

#[test]
fn a_byte_more_is_too_much(rt: HostRuntime) -> Result<(), Fail> {
    let mut desk = large_desk(&rt)?;
    let batch = sets(&rt, 14_615)?;
    let full = StoreFault::Log(LogFault::Full);
    assert_eq!(rt; desk.put(&rt, &batch), Err(full));
    assert_eq!(rt; desk.store().seq(), 0);
    Ok(())
}

/// How many sets without data are in a batch of many.
const MANY: u32 = 8_194;

/// The head of the record of so many sets as number 1: a body of 221,240 bytes.
const HEAD: [u8; 18] = [
    0x5A, 0, 0, 0, 0x38, 0x60, 0x03, 0, 1, 0, 0, 0, 0, 0, 0, 0, 0x02, 0x20,
];

/// That record, made by hand.
fn record(rt: &impl AllocGlobal) -> Result<Vec<u8>, NoMemory> {
    let mut bytes = Vec::new(rt.alloc());
    put(&mut bytes, &HEAD)?;
    for number in 0..MANY {
        put(&mut bytes, &[1, 1, b'A'])?;
        put(&mut bytes, &guid(number))?;
        put(&mut bytes, &[3, 0, 0, 0, 0, 0, 0, 0])?;
    }
    Ok(bytes)
}

/// Appends bytes.
fn put(out: &mut Vec<u8>, bytes: &[u8]) -> Result<(), NoMemory> {
    match out.extend_from_slice(bytes) {
        Ok(()) => Ok(()),
        Err(_) => Err(NoMemory),
    }
}

/// The batch of so many sets, as a log tells it that has them.
fn many_sets(rt: &(impl Abort + AllocGlobal)) -> Result<Batch, Fail> {
    let mut bench = bench(rt, BANK)?;
    let bytes = record(rt)?;
    write(rt, &mut bench, 16, &bytes)?;
    check_banks(rt, &bench);
    let (_, live) = VarLog::open(rt.alloc(), &mut bench)?;
    Ok(live)
}

#[test]
fn many_sets_in_one_batch(rt: HostRuntime) -> Result<(), Fail> {
    let batch = many_sets(&rt)?;
    assert_eq!(rt; batch.len(), MANY as usize);
    let mut desk = large_desk(&rt)?;
    desk.put(&rt, &batch)?;
    assert_eq!(rt; desk.store().seq(), 1);
    assert_eq!(rt; desk.store().free(), 827_303);
    let desk = again(&rt, desk)?;
    assert_eq!(rt; desk.store().names(rt.alloc())?.len(), MANY as usize);
    Ok(())
}
