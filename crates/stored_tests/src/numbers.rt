//! Numbers, staged deliveries and the names of results.

use cu_base::bytes_of_u64;
use reference_machine::StagedPair;
use std::process::Abort;
use stored_vars::{
    pair_bytes, result_name_bytes, stored_number, stored_pair, stored_result_number,
};

#[test]
fn numbers_have_eight_bytes(rt: HostRuntime) {
    let bytes = [4, 0, 0, 0, 0, 0, 0, 0x80];
    assert_eq!(rt; stored_number(&bytes), Some(0x8000_0000_0000_0004));
    assert_eq!(rt; bytes_of_u64(0x8000_0000_0000_0004), bytes);
    assert_eq!(rt; stored_number(&[4, 0, 0, 0, 0, 0, 0]), None);
    assert_eq!(rt; stored_number(&[4, 0, 0, 0, 0, 0, 0, 0, 0]), None);
    assert_eq!(rt; stored_number(&[]), None);
}

#[test]
fn staged_deliveries_have_sixteen_bytes(rt: HostRuntime) {
    let pair = StagedPair {
        serial: 3,
        address: 0x1_0000,
    };
    let bytes = [3, 0, 0, 0, 0, 0, 0, 0, 0, 0, 1, 0, 0, 0, 0, 0];
    assert_eq!(rt; pair_bytes(&pair), bytes);
    assert_eq!(rt; stored_pair(&bytes), Some(pair));
    assert_eq!(rt; stored_pair(&bytes[..15]), None);
}

/// `Capsule01AF` in CHAR16.
const LAST: [u8; 22] = [
    0x43, 0, 0x61, 0, 0x70, 0, 0x73, 0, 0x75, 0, 0x6c, 0, 0x65, 0, 0x30, 0, 0x31, 0, 0x41, 0, 0x46,
    0,
];

#[test]
fn names_of_results(rt: HostRuntime) {
    assert_eq!(rt; result_name_bytes(0x01AF), LAST);
    assert_eq!(rt; stored_result_number(&LAST), Some(0x01AF));
    assert_eq!(rt;
        stored_result_number(&result_name_bytes(0xFFFF)),
        Some(0xFFFF)
    );
    assert_eq!(rt; stored_result_number(&LAST[..20]), None);
    for (at, byte) in [
        (0, 0x63),
        (1, 1),
        (12, 0x45),
        (14, 0x2f),
        (14, 0x3a),
        (14, 0x40),
        (16, 0x47),
        (18, 0x61),
        (20, 0xff),
        (21, 1),
    ] {
        assert!(rt; at < 22);
        let mut other = LAST;
        other[at] = byte;
        assert_eq!(rt; stored_result_number(&other), None, "at {at}");
    }
}
