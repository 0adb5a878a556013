//! One answer for an image, however it is cut.

use crate::images::{AUTH, PLAIN, SECTION, WITH_EXTRA, joined, repeated};
use crate::places::spans;
use crate::scans::{finds, scanned, scanned_at};
use cu_base::Blob;
use image_parts::{PartSpans, PayloadHead};
use std::test::Fail;

#[test]
fn every_cut_into_two_pieces(rt: HostRuntime) -> Result<(), Fail> {
    let alloc = rt.alloc();
    let both = joined(alloc, &[&AUTH, &SECTION, &WITH_EXTRA])?;
    let image = both.as_slice();
    assert!(&rt; image.len() == 81);
    for cut in 0..82usize {
        assert!(&rt; cut <= image.len());
        let scan = scanned_at(alloc, image, 3, cut)?;
        finds(&rt, alloc, &scan, spans(35, 24, 20, 79), &SECTION);
    }
    Ok(())
}

#[test]
fn every_size_of_pieces(rt: HostRuntime) -> Result<(), Fail> {
    let alloc = rt.alloc();
    let both = joined(alloc, &[&AUTH, &SECTION, &WITH_EXTRA])?;
    let image = both.as_slice();
    assert!(&rt; image.len() < 0x1_0000_0000);
    for size in 1..83usize {
        assert!(&rt; 0 < size);
        let scan = scanned(alloc, image, 3, size)?;
        finds(&rt, alloc, &scan, spans(35, 24, 20, 79), &SECTION);
    }
    Ok(())
}

/// VERSION_STR of 4,092 letters, TRUE and END: 4,096 bytes, the most of a section.
#[test]
fn the_longest_section(rt: HostRuntime) -> Result<(), Fail> {
    let alloc = rt.alloc();
    let letters = repeated(alloc, 0x41, 4092)?;
    let section = joined(alloc, &[&[2], letters.as_slice(), &[0, 6, 0x0d]])?;
    let whole = joined(alloc, &[&AUTH, section.as_slice(), &PLAIN])?;
    let image = whole.as_slice();
    assert!(&rt; image.len() < 0x1_0000_0000);
    for size in [1usize, 1000, 4096, 65_536] {
        assert!(&rt; 0 < size);
        let scan = scanned(alloc, image, 3, size)?;
        let places = spans(35, 4096, 16, 4147);
        finds(&rt, alloc, &scan, places, section.as_slice());
    }
    Ok(())
}

/// dwLength 70,024: a certificate of 70,000 bytes.
#[test]
fn a_certificate_longer_than_a_piece(rt: HostRuntime) -> Result<(), Fail> {
    let alloc = rt.alloc();
    let letters = repeated(alloc, 0x41, 70_000)?;
    let fields = &AUTH[12..32];
    let whole = joined(
        alloc,
        &[
            &AUTH[..8],
            &[0x88, 0x11, 1, 0],
            fields,
            letters.as_slice(),
            &SECTION,
            &PLAIN,
        ],
    )?;
    let image = whole.as_slice();
    assert!(&rt; image.len() < 0x1_0000_0000);
    for size in [1usize, 4096, 65_536] {
        assert!(&rt; 0 < size);
        let scan = scanned(alloc, image, 3, size)?;
        finds(&rt, alloc, &scan, spans(70_032, 24, 16, 70_072), &SECTION);
    }
    Ok(())
}

/// 256 times 65,536 bytes behind a payload header.
#[test]
fn a_payload_of_16_mebibytes(rt: HostRuntime) -> Result<(), Fail> {
    let alloc = rt.alloc();
    let letters = repeated(alloc, 0x41, 65_536)?;
    let mut whole = Blob::new(alloc);
    whole.push_slice(&SECTION)?;
    whole.push_slice(&PLAIN[..16])?;
    for _ in 0..256 {
        whole.push_slice(letters.as_slice())?;
    }
    let image = whole.as_slice();
    assert!(&rt; image.len() < 0x1_0000_0000);
    let scan = scanned(alloc, image, 2, 65_536)?;
    let places = PartSpans {
        auth: 0,
        dep_at: 0,
        dep_length: 24,
        head: PayloadHead {
            header_size: 16,
            version: 4,
            lowest: 3,
        },
        payload_at: 40,
        payload_length: 16_777_216,
    };
    finds(&rt, alloc, &scan, places, &SECTION);
    Ok(())
}
