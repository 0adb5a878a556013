//! Progress.

use std::process::Abort;
use std::test::Fail;
use stored_vars::{ProgressEntry, progress_bytes, stored_progress, stored_units};

/// Serial 2 with 1 unit, serial 300 with 258 units.
const TWO: [u8; 24] = [
    2, 0, 0, 0, 0, 0, 0, 0, 1, 0, 0, 0, 0x2c, 1, 0, 0, 0, 0, 0, 0, 2, 1, 0, 0,
];

#[test]
fn two_files(rt: HostRuntime) -> Result<(), Fail> {
    let entries = [
        ProgressEntry {
            serial: 2,
            units: 1,
        },
        ProgressEntry {
            serial: 300,
            units: 258,
        },
    ];
    let bytes = progress_bytes(rt.alloc(), &entries)?;
    assert!(&rt; bytes.as_slice() == &TWO[..]);
    match stored_progress(rt.alloc(), &TWO)? {
        None => assert!(&rt; false, "two entries are there"),
        Some(read) => assert!(&rt; read.as_slice() == &entries[..]),
    }
    assert_eq!(&rt; stored_units(&TWO, 2), 1);
    assert_eq!(&rt; stored_units(&TWO, 300), 258);
    assert_eq!(&rt; stored_units(&TWO, 3), 0);
    Ok(())
}

#[test]
fn bytes_that_are_no_progress(rt: HostRuntime) -> Result<(), Fail> {
    let mut equal = TWO;
    equal[12] = 2;
    equal[13] = 0;
    let mut falling = TWO;
    falling[12] = 1;
    falling[13] = 0;
    for bytes in [&equal[..], &falling[..], &TWO[..23], &TWO[..13]] {
        assert!(&rt; stored_progress(rt.alloc(), bytes)?.is_none());
        assert_eq!(&rt; stored_units(bytes, 2), 0);
    }
    Ok(())
}

#[test]
fn no_file_at_all(rt: HostRuntime) -> Result<(), Fail> {
    match stored_progress(rt.alloc(), &[])? {
        None => assert!(&rt; false, "no bytes are no entries"),
        Some(read) => assert!(&rt; read.is_empty()),
    }
    assert_eq!(&rt; stored_units(&[], 0), 0);
    Ok(())
}
