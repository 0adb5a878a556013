//! Layouts written by hand from the tables of UEFI 2.10, 8.5.3 and 23.3.2.

use crate::texts::expect_text;
use cu_base::{Blob, Guid};
use fmp_headers::{CapsuleHeader, FMP_CAPSULE_GUID, FmpHeader, HeaderFault, ImageHeader};
use std::process::Abort;
use std::test::Fail;

const CAPSULE: [u8; 28] = [
    0xed, 0xd5, 0xcb, 0x6d, 0x2d, 0xe8, 0x44, 0x4c, 0xbd, 0xa1, 0x71, 0x94, 0x19, 0x9a, 0xd9, 0x2a,
    0x20, 0, 0, 0, 0, 0, 5, 0, 0x28, 0, 0, 0,
];

const FMP: [u8; 8] = [1, 0, 0, 0, 2, 0, 0x03, 0x01];

const IMAGE: [u8; 48] = [
    3, 0, 0, 0, 0xaa, 0xaa, 0xaa, 0xaa, 0, 0, 0, 0, 0, 0, 0, 0, 0, 0, 0, 1, 7, 9, 8, 6, 0x12, 0, 0,
    0, 0, 1, 0, 0, 5, 0, 0, 0, 0, 0, 0, 0x80, 2, 0, 0, 0, 0, 0, 0, 0,
];

fn header() -> CapsuleHeader {
    CapsuleHeader {
        guid: FMP_CAPSULE_GUID,
        header_size: 32,
        flags: 0x50000,
        image_size: 40,
    }
}

fn image(version: u32) -> ImageHeader {
    ImageHeader {
        version,
        type_id: Guid {
            bytes: [0xaa, 0xaa, 0xaa, 0xaa, 0, 0, 0, 0, 0, 0, 0, 0, 0, 0, 0, 1],
        },
        index: 7,
        reserved: [9, 8, 6],
        image_size: 18,
        vendor_size: 256,
        instance: if version == 1 {
            0
        } else {
            0x8000_0000_0000_0005
        },
        support: if version == 3 { 2 } else { 1 },
    }
}

#[test]
fn headers_are_read_at_their_places(rt: HostRuntime) {
    assert_eq!(rt; CapsuleHeader::read(&CAPSULE), Ok(header()));
    let fmp = FmpHeader {
        drivers: 2,
        items: 259,
    };
    assert_eq!(rt; FmpHeader::read(&FMP), Ok(fmp));
    assert_eq!(rt; ImageHeader::read(&IMAGE), Ok(image(3)));
}

#[test]
fn headers_are_written_as_they_are_read(rt: HostRuntime) -> Result<(), Fail> {
    let mut out = Blob::new(rt.alloc());
    header().write_into(&mut out)?;
    let fmp = FmpHeader {
        drivers: 2,
        items: 259,
    };
    fmp.write_into(&mut out)?;
    let last = image(3);
    assert!(rt; last.keeps_version_rules());
    last.write_into(&mut out)?;
    let mut wanted = Blob::from_slice(rt.alloc(), &CAPSULE)?;
    wanted.push_slice(&FMP)?;
    wanted.push_slice(&IMAGE)?;
    assert_eq!(rt; out.as_slice(), wanted.as_slice());
    Ok(())
}

/// The same bytes with another first byte, which is the low byte of Version.
fn of_version(version: u8) -> [u8; 48] {
    let mut bytes = IMAGE;
    bytes[0] = version;
    bytes
}

fn first(bytes: &[u8], n: usize) -> &[u8] {
    bytes.get(..n).unwrap_or(bytes)
}

fn refused(rt: &impl Abort, bytes: &[u8], fault: HeaderFault) {
    assert_eq!(rt; ImageHeader::read(bytes), Err(fault));
}

#[test]
fn image_headers_of_each_version(rt: HostRuntime) {
    let one = of_version(1);
    assert_eq!(rt; ImageHeader::read(first(&one, 32)), Ok(image(1)));
    let two = of_version(2);
    assert_eq!(rt; ImageHeader::read(first(&two, 40)), Ok(image(2)));
    refused(&rt, first(&one, 31), HeaderFault::Short);
    refused(&rt, first(&two, 39), HeaderFault::Short);
    refused(&rt, first(&IMAGE, 47), HeaderFault::Short);
    refused(&rt, &of_version(0), HeaderFault::BadImageVersion);
    refused(&rt, &of_version(4), HeaderFault::BadImageVersion);
}

#[test]
fn faults_of_headers_have_a_text(rt: HostRuntime) -> Result<(), Fail> {
    let cases = [
        (HeaderFault::Short, "the bytes end before the header does"),
        (
            HeaderFault::BadHeaderSize,
            "HeaderSize is below 28 or above CapsuleImageSize",
        ),
        (
            HeaderFault::BadImageSize,
            "CapsuleImageSize is above the limit of 67108864 bytes",
        ),
        (
            HeaderFault::BadFmpVersion,
            "the version of the FMP capsule header is not 1",
        ),
        (
            HeaderFault::BadImageVersion,
            "the version of the image header is not 1, 2 or 3",
        ),
    ];
    for (fault, text) in cases {
        expect_text(&rt, &fault, text)?;
    }
    Ok(())
}
