//! Places and lengths of each mix of parts.

use crate::images::{AUTH, PLAIN, SECTION, WITH_EXTRA, joined};
use crate::scans::{finds, refused, scanned};
use image_parts::{PartSpans, PartWhy, PayloadHead};
use std::test::Fail;

/// The places in an image of FwVersion 4, LowestSupportedVersion 3 and a payload of two bytes.
pub fn spans(auth: u32, dep_length: u32, header_size: u32, payload_at: u32) -> PartSpans {
    PartSpans {
        auth,
        dep_at: auth,
        dep_length,
        head: PayloadHead {
            header_size,
            version: 4,
            lowest: 3,
        },
        payload_at,
        payload_length: 2,
    }
}

#[test]
fn a_plain_image_in_pieces_of_one_byte(rt: HostRuntime) -> Result<(), Fail> {
    let alloc = rt.alloc();
    let scan = scanned(alloc, &PLAIN, 0, 1)?;
    finds(&rt, alloc, &scan, spans(0, 0, 16, 16), &[]);
    refused(&rt, alloc, &PLAIN[..15], 0, 0, PartWhy::ShortPayloadHeader)
}

#[test]
fn each_mix_of_parts_has_its_places(rt: HostRuntime) -> Result<(), Fail> {
    let alloc = rt.alloc();
    let signed = joined(alloc, &[&AUTH, &PLAIN])?;
    let depends = joined(alloc, &[&SECTION, &WITH_EXTRA])?;
    let both = joined(alloc, &[&AUTH, &SECTION, &WITH_EXTRA])?;
    let none: &[u8] = &[];
    let cases = [
        (&signed, 1u64, spans(35, 0, 16, 51), none),
        (&depends, 2, spans(0, 24, 20, 44), &SECTION),
        (&both, 3, spans(35, 24, 20, 79), &SECTION),
        (
            &both,
            0xffff_ffff_ffff_ffff,
            spans(35, 24, 20, 79),
            &SECTION,
        ),
    ];
    for (image, support, places, section) in cases {
        let image = image.as_slice();
        assert!(&rt; image.len() < 0x1_0000_0000);
        let scan = scanned(alloc, image, support, 5)?;
        finds(&rt, alloc, &scan, places, section);
    }
    Ok(())
}
