//! Records of devices.

use cu_base::{DevState, NoMemory, Text, Ticket};
use reference_machine::UnitKey;
use std::alloc::Global;
use std::process::Abort;
use std::test::Fail;
use stored_vars::{Claim, DevRec, has_stored_claim, is_key_name, stored_state};

/// Version 3, floor 2, last version 0x01020304, last status 5.
const STATE: DevState = DevState {
    version: 3,
    floor: 2,
    last_version: 0x0102_0304,
    last_status: 5,
};

/// The record of that state with a claim: by file, capsule 1, item 2, unit 7, serial 9, version 4,
/// floor 3, 18 bytes, of the file `sys.cap`.
const CLAIMED: [u8; 96] = [
    3, 0, 0, 0, 2, 0, 0, 0, 4, 3, 2, 1, 5, 0, 0, 0, 1, 1, 1, 2, 7, 0, 0, 0, 9, 0, 0, 0, 0, 0, 0, 0,
    4, 0, 0, 0, 3, 0, 0, 0, 18, 0, 0, 0, 7, 0, 0, 0, 0x73, 0x79, 0x73, 0x2e, 0x63, 0x61, 0x70, 0,
    0, 0, 0, 0, 0, 0, 0, 0, 0, 0, 0, 0, 0, 0, 0, 0, 0, 0, 0, 0, 0, 0, 0, 0, 0, 0, 0, 0, 0, 0, 0, 0,
    0, 0, 0, 0, 0, 0, 0, 0,
];

/// The record of that state without a claim.
fn bare() -> [u8; 96] {
    let mut bytes = [0; 96];
    bytes[..16].copy_from_slice(&CLAIMED[..16]);
    bytes
}

/// The claim of that record.
fn claim(alloc: Global) -> Result<Claim, NoMemory> {
    Ok(Claim {
        key: UnitKey {
            ticket: Ticket {
                route: 1,
                capsule: 1,
                item: 2,
                serial: 9,
            },
            unit: 7,
            device: 11,
            name: Text::from_str(alloc, "sys.cap")?,
        },
        version: 4,
        floor: 3,
        length: 18,
    })
}

#[test]
fn a_record_without_a_claim(rt: HostRuntime) -> Result<(), Fail> {
    let record = DevRec {
        state: STATE,
        claim: None,
    };
    assert!(&rt; record.write() == bare());
    match DevRec::read(rt.alloc(), 11, &bare())? {
        None => assert!(&rt; false, "a record is there"),
        Some(read) => {
            assert_eq!(&rt; read.state, STATE);
            assert!(&rt; read.claim.is_none());
        }
    }
    assert_eq!(&rt; stored_state(&bare()), Some(STATE));
    assert!(&rt; !has_stored_claim(&bare()));
    Ok(())
}

#[test]
fn a_record_with_a_claim(rt: HostRuntime) -> Result<(), Fail> {
    let wanted = claim(rt.alloc())?;
    assert!(&rt; is_key_name(wanted.key.name.as_str()));
    let record = DevRec {
        state: STATE,
        claim: Some(wanted),
    };
    assert!(&rt; record.write() == CLAIMED);
    assert_eq!(&rt; stored_state(&CLAIMED), Some(STATE));
    assert!(&rt; has_stored_claim(&CLAIMED));
    let Some(read) = DevRec::read(rt.alloc(), 11, &CLAIMED)? else {
        assert!(&rt; false, "a record is there");
        return Ok(());
    };
    let Some(read) = read.claim else {
        assert!(&rt; false, "a claim is there");
        return Ok(());
    };
    let wanted = claim(rt.alloc())?;
    assert_eq!(&rt; read.key.ticket, wanted.key.ticket);
    assert_eq!(&rt; (read.key.unit, read.key.device), (7, 11));
    assert_eq!(&rt; read.key.name.as_str(), "sys.cap");
    assert_eq!(&rt; (read.version, read.floor, read.length), (4, 3, 18));
    Ok(())
}

#[test]
fn bytes_that_are_no_record(rt: HostRuntime) -> Result<(), Fail> {
    for (at, byte) in [
        (16, 2),
        (16, 0),
        (44, 6),
        (44, 8),
        (44, 41),
        (44, 255),
        (45, 1),
        (47, 1),
        (48, 0x20),
        (54, 0x80),
        (55, 0x70),
        (88, 1),
        (95, 1),
    ] {
        assert!(&rt; at < 96);
        let mut other = CLAIMED;
        other[at] = byte;
        assert_eq!(&rt; stored_state(&other), None, "at {at}");
        assert!(&rt; !has_stored_claim(&other));
        assert!(&rt; DevRec::read(rt.alloc(), 11, &other)?.is_none());
    }
    let mut other = bare();
    other[95] = 1;
    assert_eq!(&rt; stored_state(&other), None);
    assert_eq!(&rt; stored_state(&CLAIMED[..95]), None);
    assert_eq!(&rt; stored_state(&[]), None);
    Ok(())
}

/// A claim of a delivery by memory has no name.
#[test]
fn a_claim_without_a_name(rt: HostRuntime) -> Result<(), Fail> {
    let mut bytes = CLAIMED;
    for at in 44..56usize {
        bytes[at] = 0;
    }
    assert_eq!(&rt; stored_state(&bytes), Some(STATE));
    assert!(&rt; has_stored_claim(&bytes));
    Ok(())
}
