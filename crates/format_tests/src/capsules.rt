//! Capsules written by hand from the tables of UEFI 2.10, 8.5.3 and 23.3.2: what is read of them and
//! written, which no command does. Which are refused is shown by runs of the built program.

use crate::texts::expect_text;
use capsule_grammar::{
    Body, Capsule, DecodeFault, EncodeFault, Refusal, Why, check, decode, decode_all, encode, fits,
    rebuild,
};
use cu_base::{Blob, put_u16, put_u32, put_u64};
use std::alloc::Global;
use std::process::Abort;
use std::test::Fail;

/// CapsuleGuid of FMP capsules.
const FMP: [u8; 16] = [
    0xed, 0xd5, 0xcb, 0x6d, 0x2d, 0xe8, 0x44, 0x4c, 0xbd, 0xa1, 0x71, 0x94, 0x19, 0x9a, 0xd9, 0x2a,
];

/// A capsule header of FMP with this CapsuleImageSize, and what stands behind it.
fn capsule(alloc: Global, size: u8, rest: &[u8]) -> Result<Blob, Fail> {
    let mut bytes = Blob::from_slice(alloc, &FMP)?;
    bytes.push_slice(&[28, 0, 0, 0, 0, 0, 5, 0, size, 0, 0, 0])?;
    bytes.push_slice(rest)?;
    Ok(bytes)
}

/// A capsule of FMP with this many drivers of one byte and images of version 1 without bytes.
fn many_items(alloc: Global, drivers: u16, images: u16) -> Result<Blob, Fail> {
    let (drivers, images) = (drivers as u32, images as u32);
    let items = drivers + images;
    let mut bytes = Blob::from_slice(alloc, &FMP)?;
    bytes.push_slice(&[28, 0, 0, 0, 0, 0, 5, 0])?;
    put_u32(&mut bytes, 28 + 8 + 8 * items + drivers + 32 * images)?;
    put_u32(&mut bytes, 1)?;
    put_u16(&mut bytes, drivers as u16)?;
    put_u16(&mut bytes, images as u16)?;
    for k in 0..items {
        let in_front = k.min(drivers) + 32 * (k - k.min(drivers));
        put_u64(&mut bytes, (8 + 8 * items + in_front) as u64)?;
    }
    for _ in 0..drivers {
        bytes.push_slice(&[0x55])?;
    }
    for _ in 0..images {
        bytes.push_slice(&[1, 0, 0, 0])?;
        bytes.push_slice(&[0; 28])?;
    }
    Ok(bytes)
}

/// It is read and written again.
fn all_items_are_read(
    rt: &impl Abort,
    alloc: Global,
    bytes: &Blob,
    drivers: usize,
    images: usize,
) -> Result<(), Fail> {
    let (read, size) = decode(alloc, bytes.as_slice())?;
    assert_eq!(rt; size, bytes.len());
    if let Body::Fmp(fmp) = &read.body {
        assert_eq!(rt; fmp.drivers.len(), drivers);
        assert_eq!(rt; fmp.images.len(), images);
    } else {
        assert!(rt; false, "the body is that of an FMP capsule");
    }
    written_again(rt, &read, alloc, bytes.as_slice())?;
    let rebuilt = rebuild(alloc, bytes.as_slice())?;
    assert_eq!(rt; rebuilt.as_slice(), bytes.as_slice());
    Ok(())
}

#[test]
fn the_most_items_and_drivers(rt: HostRuntime) -> Result<(), Fail> {
    let images = many_items(rt.alloc(), 0, 65_535)?;
    all_items_are_read(&rt, rt.alloc(), &images, 0, 65_535)?;
    let drivers = many_items(rt.alloc(), 65_535, 0)?;
    all_items_are_read(&rt, rt.alloc(), &drivers, 65_535, 0)
}

/// The bytes of a capsule are those that it was read from.
fn written_again(
    rt: &impl Abort,
    capsule: &Capsule,
    alloc: Global,
    bytes: &[u8],
) -> Result<(), Fail> {
    let fit = fits(capsule);
    assert!(rt; fit);
    let again = encode(alloc, capsule)?;
    assert_eq!(rt; again.as_slice(), bytes);
    Ok(())
}

#[test]
fn a_lead_and_a_pad_are_kept(rt: HostRuntime) -> Result<(), Fail> {
    let alloc = rt.alloc();
    let mut body = Blob::from_slice(
        alloc,
        &[1, 0, 0, 0, 0, 0, 1, 0, 18, 0, 0, 0, 0, 0, 0, 0, 7, 8],
    )?;
    body.push_slice(&[1, 0, 0, 0])?;
    body.push_slice(&[0; 28])?;
    body.push_slice(&[4, 5, 6])?;
    let bytes = capsule(alloc, 81, body.as_slice())?;
    let (read, size) = decode(alloc, bytes.as_slice())?;
    assert_eq!(rt; size, 81);
    written_again(&rt, &read, alloc, bytes.as_slice())?;
    if let Body::Fmp(fmp) = &read.body {
        assert_eq!(rt; fmp.lead.as_slice(), [7, 8].as_slice());
        let pad = fmp.images.at(0).map(|i| i.pad.len());
        assert_eq!(rt; pad, Some(3));
    } else {
        assert!(rt; false, "the body is that of an FMP capsule");
    }
    Ok(())
}

#[test]
fn a_rebuild_has_no_lead_and_no_pad(rt: HostRuntime) -> Result<(), Fail> {
    let alloc = rt.alloc();
    let mut item = Blob::from_slice(alloc, &[1, 0, 0, 0])?;
    item.push_slice(&[0; 28])?;
    let mut body = Blob::from_slice(
        alloc,
        &[1, 0, 0, 0, 0, 0, 1, 0, 18, 0, 0, 0, 0, 0, 0, 0, 7, 8],
    )?;
    body.push_slice(item.as_slice())?;
    body.push_slice(&[4, 5, 6])?;
    let bytes = capsule(alloc, 81, body.as_slice())?;
    let mut left = Blob::from_slice(alloc, &[1, 0, 0, 0, 0, 0, 1, 0, 16, 0, 0, 0, 0, 0, 0, 0])?;
    left.push_slice(item.as_slice())?;
    let wanted = capsule(alloc, 76, left.as_slice())?;
    let rebuilt = rebuild(alloc, bytes.as_slice())?;
    assert_eq!(rt; rebuilt.as_slice(), wanted.as_slice());
    Ok(())
}

#[test]
fn another_guid_has_its_bytes(rt: HostRuntime) -> Result<(), Fail> {
    let mut bytes = Blob::from_slice(rt.alloc(), &[9; 16])?;
    bytes.push_slice(&[30, 0, 0, 0, 1, 2, 3, 4, 33, 0, 0, 0, 5, 5, 6, 6, 6, 99])?;
    let (read, size) = decode(rt.alloc(), bytes.as_slice())?;
    assert_eq!(rt; size, 33);
    assert_eq!(rt; read.ext.as_slice(), [5, 5].as_slice());
    assert_eq!(rt; check(bytes.as_slice()), Ok(33));
    match bytes.as_slice().get(..33) {
        Some(front) => written_again(&rt, &read, rt.alloc(), front),
        None => Ok(()),
    }
}

#[test]
fn refusals_reach_the_caller(rt: HostRuntime) {
    match decode(rt.alloc(), &[0; 27]) {
        Err(DecodeFault::Refused(refusal)) => {
            assert_eq!(rt;
                refusal,
                Refusal {
                    at: 0,
                    why: Why::Short
                }
            );
        }
        _ => assert!(rt; false, "a capsule was read"),
    }
}

/// Copies of a capsule of another GUID, of 28 bytes each.
fn copies(alloc: Global, count: u32) -> Result<Blob, Fail> {
    let mut bytes = Blob::new(alloc);
    for _ in 0..count {
        bytes.push_slice(&[9; 16])?;
        bytes.push_slice(&[28, 0, 0, 0, 0, 0, 0, 0, 28, 0, 0, 0])?;
    }
    Ok(bytes)
}

fn all_refused(rt: &impl Abort, alloc: Global, bytes: &[u8], at: u32, why: Why) {
    match decode_all(alloc, bytes) {
        Err(DecodeFault::Refused(refusal)) => assert_eq!(rt; refusal, Refusal { at, why }),
        _ => assert!(rt; false, "capsules were read"),
    }
}

#[test]
fn at_most_eight_capsules_back_to_back(rt: HostRuntime) -> Result<(), Fail> {
    let alloc = rt.alloc();
    let eight = copies(alloc, 8)?;
    let capsules = decode_all(alloc, eight.as_slice())?;
    assert_eq!(rt; capsules.len(), 8);
    let nine = copies(alloc, 9)?;
    all_refused(&rt, alloc, nine.as_slice(), 224, Why::TooManyCapsules);
    all_refused(&rt, alloc, &[], 0, Why::Short);
    let mut second = copies(alloc, 1)?;
    let version_2 = capsule(alloc, 36, &[2, 0, 0, 0, 0, 0, 0, 0])?;
    second.push_slice(version_2.as_slice())?;
    all_refused(&rt, alloc, second.as_slice(), 56, Why::BadFmpVersion);
    Ok(())
}

#[test]
fn causes_have_a_text(rt: HostRuntime) -> Result<(), Fail> {
    let cases = [
        (
            Why::Short,
            "the bytes end before the structure that begins there does",
        ),
        (
            Why::BadHeaderSize,
            "HeaderSize is below 28 or above CapsuleImageSize",
        ),
        (
            Why::BadImageSize,
            "CapsuleImageSize is above 67108864 or above the bytes that are there",
        ),
        (
            Why::BadFmpVersion,
            "the version of the FMP capsule header is not 1",
        ),
        (
            Why::BadImageVersion,
            "the version of the image header is not 1, 2 or 3",
        ),
        (
            Why::OffsetsOutside,
            "an item begins within the item offset list or behind the end of the capsule",
        ),
        (
            Why::OffsetsNotRising,
            "an item does not begin behind the item before it",
        ),
        (
            Why::ImageOutside,
            "image header, image and vendor code pass the end of their item",
        ),
        (
            Why::TooManyCapsules,
            "more than eight capsules stand back to back",
        ),
    ];
    for (why, text) in cases {
        expect_text(&rt, &why, text)?;
    }
    Ok(())
}

#[test]
fn faults_have_a_text(rt: HostRuntime) -> Result<(), Fail> {
    let refused = DecodeFault::Refused(Refusal {
        at: 44,
        why: Why::OffsetsNotRising,
    });
    expect_text(
        &rt,
        &refused,
        "refused at 44: an item does not begin behind the item before it",
    )?;
    expect_text(&rt, &DecodeFault::Memory, "out of memory")?;
    expect_text(
        &rt,
        &EncodeFault::TooLarge,
        "the capsule has more than 67108864 bytes",
    )?;
    Ok(())
}
