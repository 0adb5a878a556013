//! Where the records of the store stand in a bank, and when a reclaim comes.

use crate::bench::{BANK, long};
use crate::steps::Step::{Again, Free, Has, Names, Seq, Set};
use crate::steps::plays;
use std::test::Fail;

/// The bytes that are free once one variable of 16,384 bytes stands in a bank.
const BEHIND_ONE: u32 = BANK - 1 - 16_448;

/// The bytes that are free once three do.
const BEHIND_THREE: u32 = BANK - 1 - 49_312;

#[test]
fn padded_log_places(rt: HostRuntime) -> Result<(), Fail> {
    let long = long();
    plays(
        &rt,
        &[
            Set("A", &long),
            Free(BEHIND_ONE),
            Set("A", &long),
            Free(BANK - 1 - 32_880),
            Set("A", &long),
            Free(BEHIND_THREE),
            Names(&["A"]),
        ],
    )
}

#[test]
fn the_last_record_that_fits_needs_no_reclaim(rt: HostRuntime) -> Result<(), Fail> {
    let long = long();
    let fits = &long[..16_171];
    plays(
        &rt,
        &[
            Set("A", &long),
            Set("A", &long),
            Set("A", &long),
            Set("A", fits),
            Free(BEHIND_THREE - 16_216),
            Again,
            Seq(4),
            Has("A", fits),
            Names(&["A"]),
        ],
    )
}

#[test]
fn one_byte_more_needs_a_reclaim(rt: HostRuntime) -> Result<(), Fail> {
    let long = long();
    let passes = &long[..16_172];
    plays(
        &rt,
        &[
            Set("A", &long),
            Set("A", &long),
            Set("A", &long),
            Set("A", passes),
            Free(BEHIND_ONE - 16_224),
            Again,
            Seq(4),
            Has("A", passes),
            Names(&["A"]),
        ],
    )
}
