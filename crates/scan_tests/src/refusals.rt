//! Each refusal, whole and in small pieces.

use crate::images::{AUTH, PLAIN, SECTION, changed, joined, repeated};
use crate::scans::refused;
use dep_code::DepWhy;
use image_parts::PartWhy;
use std::test::Fail;

#[test]
fn wrong_authentication_data(rt: HostRuntime) -> Result<(), Fail> {
    let alloc = rt.alloc();
    let signed = joined(alloc, &[&AUTH, &PLAIN])?;
    let cases = [
        (8usize, 23u8, 8u32, PartWhy::BadAuthLength),
        (8, 46, 8, PartWhy::BadAuthLength),
        (11, 0xff, 8, PartWhy::BadAuthLength),
        (12, 1, 12, PartWhy::BadRevision),
        (14, 0xf0, 14, PartWhy::BadCertType),
        (8, 45, 53, PartWhy::ShortPayloadHeader),
        (8, 24, 32, PartWhy::BadSignature),
    ];
    for (place, byte, at, why) in cases {
        let image = changed(alloc, signed.as_slice(), place, byte)?;
        refused(&rt, alloc, image.as_slice(), 1, at, why)?;
    }
    refused(&rt, alloc, &[], 1, 0, PartWhy::ShortAuth)?;
    refused(&rt, alloc, &AUTH[..31], 1, 0, PartWhy::ShortAuth)?;
    refused(&rt, alloc, &AUTH[..34], 1, 8, PartWhy::BadAuthLength)
}

#[test]
fn wrong_sections(rt: HostRuntime) -> Result<(), Fail> {
    let alloc = rt.alloc();
    let cases = [
        (&[6u8, 0, 0] as &[u8], 36u32, DepWhy::CutOperand),
        (&[6], 36, DepWhy::NoEnd),
        (&[0x0f], 35, DepWhy::BadOpcode),
        (&[6, 0x0e, 6, 0, 0, 0, 0x0d], 36, DepWhy::LateDeclare),
        (&[0x0e, 8, 0, 0, 0, 6, 0x0d], 36, DepWhy::WrongDeclare),
        (&[6, 3, 0x0d], 36, DepWhy::BadTypes),
        (&[1, 5, 0, 0, 0, 6, 0x0d], 41, DepWhy::NotOneBool),
    ];
    for (section, at, why) in cases {
        let image = joined(alloc, &[&AUTH, section])?;
        refused(&rt, alloc, image.as_slice(), 3, at, PartWhy::Dep(why))?;
    }
    Ok(())
}

#[test]
fn a_text_is_cut_or_too_long(rt: HostRuntime) -> Result<(), Fail> {
    let alloc = rt.alloc();
    for count in [4094usize, 4095, 4110, 4111, 4112, 20_000] {
        let letters = repeated(alloc, 0x41, count)?;
        let cut = joined(alloc, &[&[2], letters.as_slice()])?;
        let why = PartWhy::Dep(DepWhy::CutOperand);
        refused(&rt, alloc, cut.as_slice(), 2, 0, why)?;
    }
    for count in [4095usize, 4110, 4111, 4112, 20_000] {
        let letters = repeated(alloc, 0x41, count)?;
        let long = joined(alloc, &[&[2], letters.as_slice(), &[0]])?;
        let why = PartWhy::Dep(DepWhy::TooLong);
        refused(&rt, alloc, long.as_slice(), 2, 0, why)?;
    }
    Ok(())
}

#[test]
fn a_section_of_more_than_4096_bytes(rt: HostRuntime) -> Result<(), Fail> {
    let alloc = rt.alloc();
    let letters = repeated(alloc, 0x41, 4093)?;
    let end = joined(alloc, &[&[2], letters.as_slice(), &[0, 6, 0x0d]])?;
    let why = PartWhy::Dep(DepWhy::TooLong);
    refused(&rt, alloc, end.as_slice(), 2, 4096, why)
}

#[test]
fn wrong_payload_headers(rt: HostRuntime) -> Result<(), Fail> {
    let alloc = rt.alloc();
    let image = joined(alloc, &[&AUTH, &SECTION, &PLAIN])?;
    let cases = [
        (62usize, 0x32u8, 59u32, PartWhy::BadSignature),
        (63, 15, 63, PartWhy::BadPayloadHeaderSize),
        (63, 19, 63, PartWhy::BadPayloadHeaderSize),
        (66, 1, 63, PartWhy::BadPayloadHeaderSize),
    ];
    for (place, byte, at, why) in cases {
        let image = changed(alloc, image.as_slice(), place, byte)?;
        refused(&rt, alloc, image.as_slice(), 3, at, why)?;
    }
    let short = joined(alloc, &[&AUTH, &SECTION, &PLAIN[..15]])?;
    refused(
        &rt,
        alloc,
        short.as_slice(),
        3,
        59,
        PartWhy::ShortPayloadHeader,
    )?;
    refused(&rt, alloc, &[], 0, 0, PartWhy::ShortPayloadHeader)
}
